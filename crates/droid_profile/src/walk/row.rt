//! What is handed out of one entry, when its turn has come.

use droid_frame::{Blob, Record};
use droid_tree::Skipped;

/// What is handed out of one entry, when its turn has come.
#[derive(Drop)]
pub enum Row {
    /// It was skipped.
    Left {
        /// Its path, which may be invalid UTF-8.
        path: Blob,
        /// Why.
        why: Skipped,
    },
    /// It is a folder.
    Folder(Record),
    /// It is the file at this place of the batch.
    File(usize),
}
