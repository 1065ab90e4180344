//! What the commands of a folder share: how they end, what they print on standard error (progress, skipped entries, a
//! summary, a fault and its sentence), where the files that they write lie, and the CSV of what was skipped.
//!
//! The texts are proved: `output` of a `Display` is the exact text. That they are printed, when the clock is read, and
//! what is seen at a path has no contract, since the kit promises nothing about it. What is printed, and how often the
//! clock is read, is tested by `profile_progress.py`, `profile_skipped.py` and `profile_arguments.py` of
//! `tests/program/folders`; what is seen in the place of a folder by `profile_arguments.py` and `unfinished_files.py`;
//! in that of an output by `profile_output.py` (the status and the fault's name), and by the cases
//! `folder_in_place_of_the_output` and `missing_folder_of_the_output` of `tests/program`.
#![tactic(auto)]

mod columns;
mod counts;
mod csv_records;
mod ending;
mod escapes;
mod estimate;
mod folder_check;
mod format_counts;
pub mod laws;
mod line;
mod measures;
mod path_text;
mod places;
mod reporter;
mod skipped;
mod table;
mod totals;
mod verbosity;

pub use csv_records::{finish_csv, new_csv, write_record};
pub use ending::about::About;
pub use ending::command_ending::Ending;
pub use ending::detail::Detail;
pub use ending::fault::Fault;
pub use ending::faults;
pub use ending::folder::told_no_folder;
pub use ending::output::told_no_output;
pub use ending::row::Row;
pub use ending::status::Status;
pub use folder_check::is_folder;
pub use path_text::{Shown, cause};
pub use places::{absolute_path, folder_of, is_same_place, lies_in, name_of};
pub use reporter::Reporter;
pub use skipped::recorder::Recorder;
pub use skipped::skipped_entry::SkippedEntry;
pub use skipped::skipped_paths::{SkippedPaths, holds_above, paths_of};
pub use skipped::skipped_text::{entry_line, header_line, skipped_csv};
pub use verbosity::Verbosity;
