//! The hashes of eight files and a file's ends, beside the kit's `md5` and `sha2` and slices of the whole file.

mod ends;
mod page;
mod schedules;
