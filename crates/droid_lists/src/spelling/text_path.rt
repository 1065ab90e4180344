//! Texts in UTF-8 and paths in a profile's rows: the path, its name, and the folder above.

ghost use Rattle.std.specs.Prelude.{◌≡◌};
ghost use Rattle.std.specs.Option.{option_map};
ghost use Rattle.csv.specs.Records.{fields_of};
ghost use Rattle.droid_lists.specs.RowTests as tests;

use crate::spelling::text_row::field;
use csv::ByteRecord;
use droid_export::{has_no_slash, is_last};
use droid_frame::is_file_path;
use std::str;

/// Returns the bytes as text, or `None` if they are not UTF-8.
pub(crate) fn text_of(bytes: &[u8]) -> Option<&str>
    ensures { option_map (λ text. text.now) result ≡ tests.utf8_of bytes.now }
{
    match str::from_utf8(bytes) {
        Ok(text) => Some(text),
        Err(_) => None,
    }
}

/// Returns the path as text, if a profile may have it: `/` and names of at most 255 bytes, in all at most 4,096 bytes
/// of UTF-8. Otherwise `None`.
pub(crate) fn path_of(path: &[u8]) -> Option<&str>
    ensures { option_map (λ text. text.now) result ≡ tests.path_of path.now }
{
    if !is_path(path) {
        return None;
    }
    text_of(path)
}

/// Returns whether bytes, UTF-8 or not, are a path that a profile can have: names of at most 255 bytes, 4,096 bytes in
/// all.
fn is_path(path: &[u8]) -> bool
    ensures { result ≡ tests.is_path path.now }
{
    is_file_path(path) && path.len() <= 4096 && are_short(path)
}

/// Returns whether each name of a path has at most 255 bytes.
fn are_short(path: &[u8]) -> bool
    ensures { result ≡ tests.are_short path.now }
{
    path.split(|byte| *byte == b'/')
        .all(|name| name.len() <= 255)
}

/// Returns how many bytes of FILE_PATH, column 3, stand before the slash and NAME, column 4; 0 if it is shorter than
/// these.
fn above_length(row: &ByteRecord) -> usize
    ensures { result ≡ tests.above_length (fields_of row.now) }
{
    field(row, 3).len().saturating_sub(field(row, 4).len() + 1)
}

/// Returns the path of the folder above, which is empty for the top. It is only right if `is_named` holds.
pub(crate) fn above(row: &ByteRecord) -> &[u8]
    ensures { result.now ≡ tests.above (fields_of row.now) }
{
    let (above, _) = field(row, 3).split_at(above_length(row));
    above
}

/// Returns whether NAME is what stands behind the last slash of FILE_PATH.
pub(crate) fn is_named(row: &ByteRecord) -> bool
    ensures { result ≡ tests.is_named (fields_of row.now) }
{
    let (_, last) = field(row, 3).split_at(above_length(row));
    has_no_slash(field(row, 4)) && is_last(last, field(row, 4))
}
