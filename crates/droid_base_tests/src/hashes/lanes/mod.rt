//! Hashes in lanes, beside the kit's `md5` and `sha2`.

mod example;
mod schedules;
