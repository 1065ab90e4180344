//! Making a journal smaller: all of its records are written anew into another file, those of finished and abandoned
//! files without the bytes of these files.
//!
//! [`rewrite`] first notes which files have ended, and for that reads only the front of each record. Then it reads the
//! whole old journal, checks it, and writes. [`compact`] also replaces the old file: it syncs the new one, gives it the
//! old one's name ([`replace`]), and syncs the folder. So a crash at any moment leaves one or the other.
//! [`is_mostly_ended`] says whether that is worth it.
#![tactic(auto)]

pub mod bare_laws;
mod compaction;
mod ended_files;
mod exchange;
mod fields;
mod folder;
mod frame_writer;
pub mod laws;
mod new_file;
mod numbers;
mod rewrite_fault;
mod rewriter;
mod size;
mod skim;
mod sums;
mod taker;
mod walk;
mod weight;
mod whole;

pub use compaction::compact;
pub use exchange::{Exchange, replace};
pub use folder::Folder;
pub use frame_writer::{BARE_FINISH, BARE_PIECE};
pub use new_file::{Smaller, rewrite};
pub use rewrite_fault::RewriteFault;
pub use size::Size;
pub use weight::is_mostly_ended;
