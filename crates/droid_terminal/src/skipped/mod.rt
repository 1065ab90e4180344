//! The entries that were skipped, and their CSV.

pub mod recorder;
pub mod skipped_entry;
pub mod skipped_paths;
pub mod skipped_text;
