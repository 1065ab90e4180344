//! A format of a file, and why the file has it.

use droid_identity::Match;
use droid_pronom::Format;

/// Why a file has a format.
#[derive(Clone, Copy)]
pub enum Reason<'a> {
    /// The byte sequences of this signature match there.
    Signature { number: usize, matches: &'a [Match] },
    /// No signature hits, and the format lists the extension of the file's name.
    Extension(&'a str),
}

/// A format of a file, and why the file has it.
#[derive(Clone, Copy)]
pub struct ShownFormat<'a> {
    /// The format.
    pub format: &'a Format,
    /// Why the file has it.
    pub reason: Reason<'a>,
    /// Whether the extension of the file's name contradicts the formats.
    pub mismatch: bool,
}
