//! A folder or file of a profile.

use droid_frame::Text;
use droid_hash::Finding;
use droid_tree::EntryKind;

/// A folder or file that a submission found in the tree, and that is in the profile now.
#[derive(Drop)]
pub struct Node {
    /// Its number in the profile.
    pub number: u32,
    /// The number of its folder, or 0 at the top.
    pub parent: u32,
    /// The path: `/` and the names from the top joined by `/`.
    pub path: Text,
    /// A folder or a file.
    pub kind: EntryKind,
    /// When it was last changed, in seconds since 1970-01-01T00:00:00 UTC.
    pub modified: i64,
    /// The length in bytes. 0 for a folder.
    pub len: u64,
    /// What the reply that finished it says. Of a folder nothing is said.
    pub found: Finding,
    /// Whether all of a file was read in this run. Of a folder there is nothing to read.
    pub is_read: bool,
}
