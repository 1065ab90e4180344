//! Lists of checksums, by the public calls of `droid_fixity`.

mod line;
mod lists;
mod memory;
