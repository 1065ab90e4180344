//! Checks and reads single fields of a registry file's records.
//!
//! The limits stand in `specs/RegistryFields.antt` too, and the prover ties them; docs/REGISTRY.md has them for users.

ghost use Rattle.std.specs.Prelude.{◌≡◌};
ghost use Rattle.std.specs.Char.{is_ascii_digit};
ghost use Rattle.std.specs.List.{list_all};
ghost use Rattle.droid_pronom.specs.RegistryFields as field;

use crate::rows::{Anchor, Offsets};

/// Returns whether the text is a PUID: 1 to 32 ASCII letters, digits, `/` and `-`.
pub fn is_puid(text: &str) -> bool
    ensures { result ≡ field.is_puid text.now }
{
    has_bytes(text, 1, 32) && are_puid_bytes(text)
}

/// Returns whether a text has only ASCII letters, digits, `/` and `-`, as a PUID; the empty text too.
fn are_puid_bytes(text: &str) -> bool
    ensures { result ≡ list_all field.is_puid_byte text.now }
{
    text.bytes()
        .all(|c| c.is_ascii_alphanumeric() || c == b'/' || c == b'-')
}

/// Returns whether a text has `least` to `most` bytes, both included.
fn has_bytes(text: &str, least: usize, most: usize) -> bool
    ensures { result ≡ field.has_bytes least most text.now }
{
    least <= text.len() && text.len() <= most
}

/// Returns whether the text may be a format's name: 1 to 255 bytes.
pub(crate) fn is_name(text: &str) -> bool
    ensures { result ≡ field.is_name text.now }
{
    has_bytes(text, 1, 255)
}

/// Returns whether the text may be a version or a media type: at most 255 bytes, perhaps none.
pub(crate) fn is_note(text: &str) -> bool
    ensures { result ≡ field.is_note text.now }
{
    text.len() <= 255
}

/// Returns whether the text is an extension: 1 to 64 bytes, none of them a dot or a slash.
pub(crate) fn is_extension(text: &str) -> bool
    ensures { result ≡ field.is_extension text.now }
{
    has_bytes(text, 1, 64) && are_extension_bytes(text)
}

/// Returns whether a text has no dot and no slash, as an extension; the empty text too.
fn are_extension_bytes(text: &str) -> bool
    ensures { result ≡ list_all field.is_extension_byte text.now }
{
    text.bytes().all(|c| c != b'.' && c != b'/')
}

/// Reads a number of 1 to 5 decimal digits, at most 65,535. Returns `None` for any other text.
pub(crate) fn number_of(text: &str) -> Option<u16>
    ensures { result ≡ field.number_of text.now }
{
    if has_bytes(text, 1, 5) && are_digits(text) {
        text.parse::<u16>().ok()
    } else {
        None
    }
}

/// Returns whether a text has only ASCII digits; the empty text too.
fn are_digits(text: &str) -> bool
    ensures { result ≡ list_all is_ascii_digit text.now }
{
    text.bytes().all(|c| c.is_ascii_digit())
}

/// Reads the anchor of a byte sequence: `BOF` or `EOF`. Returns `None` for any other text.
pub(crate) fn anchor_of(text: &str) -> Option<Anchor>
    ensures { result ≡ field.anchor_of text.now }
{
    if text == "BOF" {
        Some(Anchor::Bof)
    } else if text == "EOF" {
        Some(Anchor::Eof)
    } else {
        None
    }
}

/// Reads the three fields that say where a byte sequence may match. Returns `None` if one of them is not of its form,
/// or if `min` exceeds `max`.
pub fn offsets_of(anchor: &str, min: &str, max: &str) -> Option<Offsets>
    ensures { result ≡ field.offsets_of anchor.now min.now max.now }
{
    let anchor = anchor_of(anchor)?;
    let min = number_of(min)?;
    let max = number_of(max)?;
    if min <= max {
        Some(Offsets { anchor, min, max })
    } else {
        None
    }
}
