//! A match of a byte sequence.

use droid_pronom::Anchor;

/// Where a byte sequence matches in a file.
#[derive(Clone, Copy)]
pub struct Match {
    /// The end of the file from which the offset counts.
    pub anchor: Anchor,
    /// How many bytes lie between that end and the match.
    pub offset: u32,
    /// How many bytes the match has.
    pub count: u32,
}
