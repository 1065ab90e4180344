//! The command `identify`: what files are, and why, in lines, as CSV and in JSON.
//!
//! Contracts hold what a file is, the text that is printed of it, and that it is printed or reported. In `machine`,
//! `output` and `command`, which meet this machine, they hold little: there `tests/program/identify` holds the rest.
#![tactic(auto)]

mod command;
mod ends;
mod file;
mod file_hash;
mod forms;
mod identify_ending;
mod machine;
mod moment;
mod name_reader;
mod named;
mod output;
mod printer;
mod reasons;
mod run_fault;
mod showing;
mod stream_ends;
mod stream_identity;
mod telling;
mod texts;
mod why_text;

pub use command::{IdentifyRegistry, identify_command};
pub use ends::{FileEnds, read_ends};
pub use file::{FileOptions, TreeFile, identify_entry};
pub use file_hash::hash_entry;
pub use forms::sf_document::SfHead;
pub use forms::shown_file::{ShownFile, ShownHash};
pub use forms::shown_format::{Reason, ShownFormat};
pub use identify_ending::IdentifyEnding;
pub use name_reader::NameReader;
pub use named::{Taker, take_each};
pub use printer::Printer;
pub use run_fault::RunFault;
pub use showing::shown_formats;
pub use stream_ends::read_stream;
pub use stream_identity::{StreamIdentity, identify_stream};
pub use telling::{Outcome, Telling, Told, tell_file, tell_identity, tell_unread};
pub use texts::{file_text, head_text, tail_text, unread_text};
