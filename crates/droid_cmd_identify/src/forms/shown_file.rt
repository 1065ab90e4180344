//! What is printed of one file.

use crate::forms::shown_format::ShownFormat;
use droid_frame::{HashKind, Method};
use droid_identity::TextKind;

/// The hash of a file.
#[derive(Clone, Copy)]
pub struct ShownHash<'a> {
    /// Which hash it is.
    pub kind: HashKind,
    /// Its hexadecimal digits.
    pub digits: &'a str,
}

/// What is printed of one file.
#[derive(Clone, Copy)]
pub struct ShownFile<'a> {
    /// The path of the file, as it was named.
    pub path: &'a str,
    /// Its size in bytes.
    pub size: u64,
    /// When its bytes were last changed, as text.
    pub modified: &'a str,
    /// How its formats were found.
    pub method: Method,
    /// Whether the extension contradicts them.
    pub mismatch: bool,
    /// How it is written, if it is plain text and has no format.
    pub text: Option<TextKind>,
    /// Its hash, if that is asked for.
    pub hash: Option<ShownHash<'a>>,
    /// Its formats.
    pub formats: &'a [ShownFormat<'a>],
}
