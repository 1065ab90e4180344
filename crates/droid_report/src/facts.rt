//! The facts of a row: its fields as numbers and kinds, read once when the row is read.

use droid_frame::{Method, NodeKind};

/// What a row says beside its texts.
#[derive(Clone, Copy)]
pub struct Facts {
    /// Whether it is about a file or a folder.
    pub kind: NodeKind,
    /// The file's size in bytes; 0 for a folder.
    pub size: u64,
    /// How the file was identified.
    pub method: Method,
    /// Whether its extension is none of its formats'.
    pub is_mismatch: bool,
    /// How many formats were found; 0 for a folder.
    pub formats: u64,
    /// The year of the last change, if it is known.
    pub year: Option<u64>,
    /// The digits of the last change as one number, such as 20260131235959: a later one is greater. 0 if it is not
    /// known.
    pub moment: u64,
    /// How many slashes the path has.
    pub depth: usize,
}
