//! Reads single columns of a row, and tests what they may say. Columns are counted from 0, in the order of `COLUMNS` in
//! `droid_export`.

ghost use Rattle.std.specs.Prelude.{◌≡◌, codes, if◌then◌else◌};
ghost use Rattle.std.specs.List.{list_all};
ghost use Rattle.csv.specs.Records.{fields_of};
ghost use Rattle.droid_lists.specs.RowTests as tests;

use crate::spelling::text_number::{is_count, is_size, plain_number};
use crate::spelling::text_path::text_of;
use crate::spelling::text_row::field;
use csv::ByteRecord;
use droid_export::is_moment;
use droid_frame::{HashKind, NodeKind};

/// Returns whether TYPE, column 8, is `File`.
pub(crate) fn is_file(row: &ByteRecord) -> bool
    ensures { result ≡ tests.is_file (fields_of row.now) }
{
    let file: &[u8] = b"File";
    field(row, 8) == file
}

/// Returns whether TYPE, column 8, is `File` or `Folder`.
pub(crate) fn is_kind(row: &ByteRecord) -> bool
    ensures { result ≡ tests.is_kind (fields_of row.now) }
{
    let folder: &[u8] = b"Folder";
    is_file(row) || field(row, 8) == folder
}

/// Returns what TYPE says: a file, or otherwise a folder. `is_kind` sees whether it is one.
pub(crate) fn kind_in(row: &ByteRecord) -> NodeKind
    ensures { result ≡ tests.kind_in (fields_of row.now) }
{
    if is_file(row) {
        NodeKind::File
    } else {
        NodeKind::Folder
    }
}

/// Returns how many formats a row's record has, by FORMAT_COUNT, column 13: 0 if that is no number, as in a folder's
/// row.
pub(crate) fn formats_in(row: &ByteRecord) -> u64
    ensures { result ≡ tests.formats_in (fields_of row.now) }
{
    match plain_number(field(row, 13)) {
        Some(count) => count,
        None => 0,
    }
}

/// Returns how many rows a row's record has: one for each format, or one without a format.
pub(crate) fn rows_in(row: &ByteRecord) -> u64
    ensures { result ≡ tests.rows_in (fields_of row.now) }
{
    formats_in(row).max(1)
}

/// Returns ID, column 0, of a row, or 0 if that is no number.
pub(crate) fn id_in(row: &ByteRecord) -> u64
    ensures { result ≡ tests.number_at (fields_of row.now) 0 }
{
    match plain_number(field(row, 0)) {
        Some(id) => id,
        None => 0,
    }
}

/// Returns the first wrong column among those that say what an entry is. FORMAT_COUNT is tested before METHOD and
/// EXTENSION_MISMATCH, which depend on it. `None` if all are as they may be.
pub(crate) fn wrong_content(hash: HashKind, row: &ByteRecord) -> Option<u8>
    ensures { result ≡ tests.first_wrong (tests.content_tests hash (fields_of row.now)) }
{
    if !is_done(row) {
        return Some(6);
    }
    if !has_size(row) {
        return Some(7);
    }
    if !is_extension(row) {
        return Some(9);
    }
    if !is_moment_text(field(row, 10)) {
        return Some(10);
    }
    if !has_digest(hash, row) {
        return Some(12);
    }
    if !has_count(row) {
        return Some(13);
    }
    if !is_method(row) {
        return Some(5);
    }
    if !is_mismatch(row) {
        return Some(11);
    }
    None
}

/// Returns whether STATUS, column 6, is `Done`: a profile has no other.
fn is_done(row: &ByteRecord) -> bool
    ensures { result ≡ tests.is_done (fields_of row.now) }
{
    let done: &[u8] = b"Done";
    field(row, 6) == done
}

/// Returns whether SIZE, column 7, is a number up to 2^40 for a file, and empty for a folder.
fn has_size(row: &ByteRecord) -> bool
    ensures { result ≡ tests.has_size (fields_of row.now) }
{
    if is_file(row) {
        is_size(field(row, 7))
    } else {
        field(row, 7).is_empty()
    }
}

/// Returns whether the hash's column, 12, is a digest of this kind for a file, and empty for a folder.
fn has_digest(hash: HashKind, row: &ByteRecord) -> bool
    ensures { result ≡ tests.has_digest hash (fields_of row.now) }
{
    if is_file(row) {
        is_digest(hash, field(row, 12))
    } else {
        field(row, 12).is_empty()
    }
}

/// Returns whether FORMAT_COUNT, column 13, is a number up to 4,096 for a file, and empty for a folder.
fn has_count(row: &ByteRecord) -> bool
    ensures { result ≡ tests.has_count (fields_of row.now) }
{
    if is_file(row) {
        is_count(field(row, 13))
    } else {
        field(row, 13).is_empty()
    }
}

/// Returns whether EXT, column 9, is the extension of NAME, column 4, for a file, and empty for a folder.
fn is_extension(row: &ByteRecord) -> bool
    ensures { result ≡ tests.is_extension (fields_of row.now) }
{
    if is_file(row) {
        is_extension_of(field(row, 4), field(row, 9))
    } else {
        field(row, 9).is_empty()
    }
}

/// Returns whether a text is what stands after the last dot of a name; no text is, if the name is not UTF-8.
fn is_extension_of(name: &[u8], text: &[u8]) -> bool
    ensures { result ≡ tests.is_extension_of name.now text.now }
{
    match text_of(name) {
        Some(name) => text == droid_pronom::extension(name).as_bytes(),
        None => false,
    }
}

/// Returns whether a text is a moment as the export writes it, in 19 bytes.
fn is_moment_text(text: &[u8]) -> bool
    ensures { result ≡ tests.is_moment_text text.now }
{
    match <[u8; 19]>::try_from(text) {
        Ok(moment) => is_moment(&moment),
        Err(_) => false,
    }
}

/// Returns whether a text is a digest of this kind in lower-case digits; the empty text is that of no hash.
fn is_digest(hash: HashKind, text: &[u8]) -> bool
    ensures { result ≡ tests.is_digest hash text.now }
{
    text.len() == digest_length(hash) && are_digest_bytes(text)
}

/// Returns how many digits a digest of this kind has: two for each byte.
fn digest_length(hash: HashKind) -> usize
    ensures { result ≡ tests.digest_length hash }
{
    match hash {
        HashKind::Nothing => 0,
        HashKind::Md5 => 32,
        HashKind::Sha256 => 64,
    }
}

/// Returns whether bytes are all lower-case hexadecimal digits.
fn are_digest_bytes(text: &[u8]) -> bool
    ensures { result ≡ list_all tests.is_digest_byte text.now }
{
    text.iter()
        .all(|c| c.is_ascii_digit() || b'a' <= *c && *c <= b'f')
}

/// Returns whether METHOD, column 5, is `Signature` or `Extension` in a row with a format, and empty in another.
fn is_method(row: &ByteRecord) -> bool
    ensures { result ≡ tests.is_method (fields_of row.now) }
{
    let extension: &[u8] = b"Extension";
    if formats_in(row) == 0 {
        field(row, 5).is_empty()
    } else {
        is_by_signature(row) || field(row, 5) == extension
    }
}

/// Returns whether METHOD, column 5, is `Signature`.
fn is_by_signature(row: &ByteRecord) -> bool
    ensures { result ≡ tests.is_by_signature (fields_of row.now) }
{
    let signature: &[u8] = b"Signature";
    field(row, 5) == signature
}

/// Returns whether EXTENSION_MISMATCH, column 11, is `true` or `false`, and `true` only by signature and with an
/// extension.
fn is_mismatch(row: &ByteRecord) -> bool
    ensures { result ≡ tests.is_mismatch (fields_of row.now) }
{
    let right: &[u8] = b"false";
    let wrong: &[u8] = b"true";
    field(row, 11) == right
        || field(row, 11) == wrong && is_by_signature(row) && !field(row, 9).is_empty()
}

/// Returns the first of the 14 columns before the format's in which a row differs from the first of its record. The
/// definition has them as `shared_columns` of `droid_export`.
pub(crate) fn wrong_shared(first: &ByteRecord, row: &ByteRecord) -> Option<u8>
    ensures { result ≡ tests.first_wrong (tests.shared_tests (fields_of first.now) (fields_of row.now)) }
{
    for column in 0..14u8 {
        if field(row, column as usize) != field(first, column as usize) {
            return Some(column);
        }
    }
    None
}
