//! Reads TYPE and numbers, for the reader of items here (`reading/fields.rt`) and for `droid_report`.

ghost use Rattle.std.specs.Prelude.{◌≡◌};
ghost use Rattle.std.specs.Char.{is_ascii_digit};
ghost use Rattle.std.specs.List.{list_all};
ghost use Rattle.droid_export.specs.Fields as fields;

use droid_frame::NodeKind;

/// Reads TYPE: `File` or `Folder`, in these letters. Any other text is `None`.
pub fn kind_of(text: &[u8]) -> Option<NodeKind>
    ensures { result ≡ fields.kind_of text.now }
{
    let file: &[u8] = b"File";
    let folder: &[u8] = b"Folder";
    if text == file {
        Some(NodeKind::File)
    } else if text == folder {
        Some(NodeKind::Folder)
    } else {
        None
    }
}

/// Reads a number in decimal digits, below 2^64. Zeros in front are taken; no digit, another byte or a larger number is
/// `None`.
pub fn number_of(text: &[u8]) -> Option<u64>
    ensures { result ≡ fields.number_of text.now }
{
    if !are_digits(text) {
        return None;
    }
    match str::from_utf8(text) {
        Ok(text) => text.parse::<u64>().ok(),
        Err(_) => None,
    }
}

/// Returns whether all bytes are decimal digits, also where there are none: `parse` would take a sign, and refuses an
/// empty text.
fn are_digits(text: &[u8]) -> bool
    ensures { result ≡ list_all is_ascii_digit text.now }
{
    text.iter().all(|c| c.is_ascii_digit())
}
