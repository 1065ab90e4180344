//! Compares the formats that a profile gives its files with those that were found.

pub mod file_formats;
pub mod format_change;
pub mod listed_formats;
