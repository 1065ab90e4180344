//! Folders of this machine as trees, and output files that are either complete or not there.
//!
//! [`Folder`] reads a tree through the few calls of a [`Disk`]. [`System`] makes these calls to the machine's file
//! system, and so does [`StayingSystem`], for a process that stays in the folder that it reads.
//!
//! Whatever makes a text or a list here may also fail with `Memory`, which is not said again at each function. A call
//! of the machine that lacks memory itself counts as failed like any other.
#![tactic(auto)]

mod disk;
mod entries;
mod file_bytes;
mod file_mark;
mod file_reads;
mod folder;
mod names;
mod open_files;
mod open_folder;
mod output;
mod start_folder;
mod staying_system;
mod system;
mod unfinished_file;

pub use disk::{Disk, FileMetadata};
pub use folder::Folder;
pub use output::{Output, OutputFault};
pub use staying_system::StayingSystem;
pub use system::System;
pub use unfinished_file::FileId;
