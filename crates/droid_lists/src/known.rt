//! What is known of a profile, and how its text differs.

use droid_frame::{Blob, NodeKind, Text};
use droid_hash::Finding;

/// What is known of a folder or file of the profile, from the replies that added and finished it.
#[derive(Drop)]
pub struct Known {
    /// Its number.
    pub number: u32,
    /// The number of the folder above, or 0 at the top.
    pub parent: u32,
    /// Its path.
    pub path: Text,
    /// Whether it is a file or a folder.
    pub kind: NodeKind,
    /// The length of a file in bytes.
    pub size: u64,
    /// When it was modified, in seconds since 1970-01-01T00:00:00 in UTC.
    pub modified: i64,
    /// What the reply that finished a file says.
    pub found: Finding,
}

/// How a profile's text differs from what is known.
#[derive(Drop)]
pub enum Difference {
    /// A column says something else.
    Other {
        /// The place of what is known.
        known: usize,
        /// The first such column, counted from 0.
        column: u8,
        /// The number of the record, counted from 1, which is that of the columns' names.
        record: u64,
    },
    /// The text has no such path.
    Missing {
        /// The place of what is known.
        known: usize,
    },
    /// Nothing is known of a record.
    More {
        /// Its number, counted from 1, which is that of the columns' names.
        record: u64,
        /// Its path.
        path: Blob,
    },
}
