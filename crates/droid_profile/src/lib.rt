//! The profile of a tree: its folders and files in order, eight files read at a time, no service. It is written as CSV,
//! and the checksums of its files as a list.
//!
//! `walk` takes a tree's entries, folder by folder. `lanes` reads and hashes the files that it found, eight at a time,
//! and identifies each.
#![tactic(auto)]

mod csv_fault;
mod csv_profile;
mod csv_recipient;
mod delivery;
mod fault;
mod lanes;
pub mod laws;
mod options;
mod pending_lines;
mod profiler;
mod recipient;
mod tree_profile;
mod walk;

pub use csv_fault::CsvFault;
pub use csv_profile::write_profile;
pub use csv_recipient::CsvRecipient;
pub use fault::ProfileFault;
pub use options::Options;
pub use profiler::Profiler;
pub use recipient::{Recipient, RecipientFault};
pub use tree_profile::profile;
pub use walk::scan::Scan;
