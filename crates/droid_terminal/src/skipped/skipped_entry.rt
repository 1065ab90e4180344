//! An entry that was skipped.

use droid_frame::Blob;
use droid_tree::Skipped;

/// An entry that was skipped.
pub struct SkippedEntry {
    /// The path. It may be invalid UTF-8.
    pub path: Blob,
    /// Why it was skipped.
    pub why: Skipped,
}

// Written by hand, so that the crates above do not prove again how each part is dropped.
impl Drop for SkippedEntry {
    fn drop(self) {
        let SkippedEntry {
            path: _path,
            why: _why,
        } = self;
    }
}
