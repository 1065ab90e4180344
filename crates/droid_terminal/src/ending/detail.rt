//! What the sentence of a fault names in its gap, which `..` marks in the table.

use std::io::ErrorKind;

/// What a sentence names between its two parts.
#[derive(Clone, Copy)]
pub enum Detail<'a> {
    /// Nothing: all is in the first part.
    Nothing,
    /// A number of a line, a record, bytes or seconds.
    Number(u64),
    /// A number, what stands behind it, and words.
    Numbered(u64, &'static str, &'static str),
    /// Words.
    Words(&'static str),
    /// A path.
    Path(&'a [u8]),
    /// The system's reason.
    Cause(ErrorKind),
    /// The system's reason, and a path behind it.
    CauseAt(ErrorKind, &'a str),
}
