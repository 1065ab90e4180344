//! Reads facts from the bytes of a row's fields.
//!
//! A row is read here only after [`droid_export::read_profile`] has taken the whole CSV ("judged" below). So TYPE,
//! SIZE, FORMAT_COUNT and LAST_MODIFIED cannot be wrong here; METHOD and EXTENSION_MISMATCH, which it does not look at,
//! can.

ghost use Rattle.std.specs.Prelude.{◌≡◌, ◌==◌, IsTrue, length};
ghost use Rattle.droid_report.specs.Fields as fields;

use droid_export::{kind_of, number_of};
use droid_frame::{Method, NodeKind};

/// Reads METHOD: `Signature`, `Extension`, or nothing, which a folder has too. Returns `None` for any other text.
pub(crate) fn method_of(text: &[u8]) -> Option<Method>
    ensures { result ≡ fields.method_of text.now }
{
    let none: &[u8] = b"";
    let signature: &[u8] = b"Signature";
    let extension: &[u8] = b"Extension";
    if text == none {
        Some(Method::Unidentified)
    } else if text == signature {
        Some(Method::Signature)
    } else if text == extension {
        Some(Method::Extension)
    } else {
        None
    }
}

/// Reads EXTENSION_MISMATCH: `true` or `false`. Returns `None` for any other text, nothing included.
pub(crate) fn truth_of(text: &[u8]) -> Option<bool>
    ensures { result ≡ fields.truth_of text.now }
{
    let yes: &[u8] = b"true";
    let no: &[u8] = b"false";
    if text == yes {
        Some(true)
    } else if text == no {
        Some(false)
    } else {
        None
    }
}

/// Reads TYPE of a judged row, where it is `File` or `Folder`. Any other text counts as `Folder`.
pub(crate) fn kind_in(text: &[u8]) -> NodeKind
    ensures { result ≡ fields.kind_in text.now }
{
    kind_of(text).unwrap_or(NodeKind::Folder)
}

/// Reads SIZE or FORMAT_COUNT of a judged row: decimal digits below 2^64. A folder has neither, which counts as 0.
pub(crate) fn number_in(text: &[u8]) -> u64
    ensures { result ≡ fields.number_in text.now }
{
    number_of(text).unwrap_or(0)
}

/// Reads the year of LAST_MODIFIED of a judged row: its first four bytes, `yyyy`. Returns `None` if it has fewer, which
/// in a judged row means that it is empty, or if these are no digits.
pub(crate) fn year_of(text: &[u8]) -> Option<u64>
    ensures { result ≡ fields.year_of text.now }
{
    if text.len() < 4 {
        None
    } else {
        number_of(&text[..4])
    }
}

/// Returns the digits of a text as one number, or 2^64 - 1 if it is more; 0 if it has none. LAST_MODIFIED has 14
/// digits, the year first, so a later moment has the greater number.
pub(crate) fn digits_of(text: &[u8]) -> u64
    ensures { result ≡ fields.digits_of text.now }
{
    let mut number: u64 = 0;
    for b in text {
        number = with_digit(number, *b);
    }
    number
}

/// Appends the digit `b`, in ASCII, to a decimal number, or returns 2^64 - 1 if that is more. Another byte changes
/// nothing.
fn with_digit(number: u64, b: u8) -> u64
    ensures { result ≡ fields.with_digit number b }
{
    if b.is_ascii_digit() {
        number
            .saturating_mul(10)
            .saturating_add(b.saturating_sub(b'0') as u64)
    } else {
        number
    }
}

/// Counts the slashes of a path. FILE_PATH begins with one, so a file at the top has 1.
pub(crate) fn depth_of(path: &[u8]) -> usize
    ensures { result ≡ fields.depth_of path.now }
{
    path.iter().filter(|b| **b == b'/').count()
}
