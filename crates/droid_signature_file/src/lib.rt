//! Reads a DROID signature file, and says what it means.
//!
//! [`read`] makes records of the file's XML. It judges nothing and leaves nothing out; a name that it does not know is
//! counted. `specs/` defines when the records' signatures hit a file of bytes, and which signatures of a registry hit
//! the same files.
//!
//! PRONOM publishes its signatures as such a file. The names are those of its elements and attributes.
#![tactic(auto)]

mod fault;
mod file;
mod format;
mod format_elements;
mod from_node;
mod kinds;
pub mod laws;
mod node;
mod numbers;
mod pieces;
mod search_tables;
mod sequence;
mod signature;
mod signatures;
mod subsequence;
mod tally;
mod white_space;
mod whole_file;
mod words;

pub use fault::{FileFault, Wrong};
pub use file::read;
pub use format::FileFormat;
pub use sequence::{Reference, SequenceRecord};
pub use signature::InternalSignature;
pub use subsequence::{Fragment, OffsetRange, SubSequence};
pub use whole_file::{SignatureFile, UnknownName, UnknownPart};
