//! Hashes of many files side by side, of a file's ends, and of a file's pieces.

mod assembly;
mod chance;
mod lanes;
mod scan;
