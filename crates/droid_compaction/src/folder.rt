//! A name in a folder of this machine, by the calls of the system.
//!
//! Nothing has a contract of its own here, as nothing is assumed of what the system does. The tests in
//! `tests/program/journal` hold it: journal_calls.py which calls are made, in which order, and what comes of each that
//! fails, and journal_compact.py what a kill at any moment leaves.

use crate::exchange::Exchange;
use droid_journal::{FileError, LogFile, sync_folder};
use std::fs::{File, Files};
use std::{fs, io};

/// A file's name in a folder of this machine, and that of the new file beside it.
#[derive(Drop)]
pub struct Folder<'a, R> {
    runtime: &'a R,
    path: &'a str,
    beside: &'a str,
}

impl<'a, R: Files<File = File>> Folder<'a, R> {
    /// Names the file, and the new file. Both must be in one folder, since only that of `path` is synced. Nothing
    /// checks that: `compaction.rt` of `droid_cmd_serve` makes the one name of the other.
    pub fn new(runtime: &'a R, path: &'a str, beside: &'a str) -> Folder<'a, R> {
        Folder {
            runtime,
            path,
            beside,
        }
    }
}

/// Drops the system's reason of a failed call: `RewriteFault` does not name it.
fn file_result(answer: io::Result<()>) -> Result<(), FileError> {
    match answer {
        Ok(()) => Ok(()),
        Err(_) => Err(FileError),
    }
}

// The clauses hold since `leads` and `may_lead` hold of no bytes. That the system renames in one step, and that a
// synced folder keeps its names, is trusted.
impl<'a, F: LogFile, R: Files<File = File>> Exchange<F> for Folder<'a, R> {
    ghost leads = { λ folder bytes. ⊥ };

    ghost may_lead = { λ folder bytes. ⊥ };

    /// Renames by name: the new file must be the one at `beside`, which the caller of `compact` opened there.
    fn rename(&mut self, _new: &F) -> Result<(), FileError> {
        file_result(fs::rename(self.runtime, self.beside, self.path))
    }

    /// Syncs the folder of `path`.
    fn sync_folder(&mut self) -> Result<(), FileError> {
        file_result(sync_folder(self.runtime, self.path))
    }
}
