//! Reads the fields of a row by which it becomes an item: where the item is, what it is, and its hash. `None` is a
//! malformed field, which makes its column the row's fault; where a field may be empty, that is a value of its own.

ghost use Rattle.std.specs.Prelude.{◌≡◌, ◌∷◌, IsTrue, Ok, Some, bytes_eq, length};
ghost use Rattle.hex.specs.Hex.{decode_sized};
ghost use Rattle.std.specs.Option.{option_map};
ghost use Rattle.droid_export.specs.ReadFields as fields;

use crate::fields::number_of;
use crate::reading::moment::is_moment;
use droid_frame::{HashKind, HashValue, NodeKind, is_file_path};
use hex::FromHex;

/// Reads an ID: a number from 1 to 2^32 - 1.
pub(crate) fn id_of(text: &[u8]) -> Option<u32>
    ensures { result ≡ fields.id_of text.now }
{
    match number_of(text) {
        Some(number) => id_by(number),
        None => None,
    }
}

/// Returns the ID, if the number is from 1 to 2^32 - 1.
fn id_by(number: u64) -> Option<u32>
    ensures { result ≡ fields.id_by (Some number) }
{
    if 0 < number && number < 4_294_967_296 {
        Some(number as u32)
    } else {
        None
    }
}

/// Reads the ID of the folder above. Nothing stands for 0, the top.
pub(crate) fn parent_of(text: &[u8]) -> Option<u32>
    ensures { result ≡ fields.parent_of text.now }
{
    if text.is_empty() {
        return Some(0);
    }
    id_of(text)
}

/// Reads the path of a folder or file: `/` and names, none of which is empty, `.` or `..`.
pub(crate) fn path_of(text: &[u8]) -> Option<&[u8]>
    ensures { option_map (λ path. path.now) result ≡ fields.path_of text.now }
{
    if is_file_path(text) { Some(text) } else { None }
}

/// Returns the path above, if a path ends in `/` and this name, and the name has no slash. It is empty at the top.
pub(crate) fn above_of<'a>(path: &'a [u8], name: &[u8]) -> Option<&'a [u8]>
    ensures { option_map (λ above. above.now) result ≡ fields.above_of path.now name.now }
{
    let (above, last) = path.split_at(path.len().saturating_sub(name.len() + 1));
    let ends = has_no_slash(name) && is_last(last, name);
    if ends { Some(above) } else { None }
}

/// Returns whether a text is `/` and this name. `droid_lists` asks it too.
pub fn is_last(text: &[u8], name: &[u8]) -> bool
    ensures { result ≡ bytes_eq text.now (47 ∷ name.now) }
{
    match text.split_first() {
        Some((first, rest)) => *first == b'/' && rest == name,
        None => false,
    }
}

/// Returns whether a name has no slash, as one step of a path. `droid_lists` asks it too.
pub fn has_no_slash(name: &[u8]) -> bool
    ensures { result ≡ fields.has_no_slash name.now }
{
    name.iter().all(|byte| *byte != b'/')
}

/// Reads SIZE: a number of bytes for a file; an empty field for a folder, which is `Some(None)`.
pub(crate) fn length_of(kind: NodeKind, text: &[u8]) -> Option<Option<u64>>
    ensures { result ≡ fields.length_of kind text.now }
{
    match kind {
        NodeKind::File => match number_of(text) {
            Some(length) => Some(Some(length)),
            None => None,
        },
        NodeKind::Folder => { if text.is_empty() { Some(None) } else { None } }
    }
}

/// Reads LAST_MODIFIED: a moment of 19 bytes, or an empty field, which is `Some(None)`.
pub(crate) fn moment_of(text: &[u8]) -> Option<Option<[u8; 19]>>
    ensures { result ≡ fields.moment_of text.now }
{
    if text.is_empty() {
        return Some(None);
    }
    match <[u8; 19]>::try_from(text) {
        Ok(moment) => {
            if is_moment(&moment) {
                Some(Some(moment))
            } else {
                None
            }
        }
        Err(_) => None,
    }
}

/// Reads FORMAT_COUNT as how many rows an item has: a file one for each format, and one if it has none; an empty field
/// stands for the one row of a folder.
pub(crate) fn rows_of(kind: NodeKind, text: &[u8]) -> Option<u64>
    ensures { result ≡ fields.rows_of kind text.now }
{
    match kind {
        NodeKind::File => match number_of(text) {
            Some(count) => Some(count.max(1)),
            None => None,
        },
        NodeKind::Folder => { if text.is_empty() { Some(1) } else { None } }
    }
}

/// Reads a hash of the list's kind (`digest`): its hexadecimal digits, or an empty field, which is
/// `HashValue::Nothing`. A folder has none.
pub(crate) fn hash_of(digest: HashKind, kind: NodeKind, text: &[u8]) -> Option<HashValue>
    ensures { result ≡ fields.hash_of digest kind text.now }
{
    if text.is_empty() {
        return Some(HashValue::Nothing);
    }
    match kind {
        NodeKind::File => digest_of(digest, text),
        NodeKind::Folder => None,
    }
}

/// Reads the hexadecimal digits of a hash of this kind, in either case of letters. A list without hashes has no digits.
fn digest_of(digest: HashKind, text: &[u8]) -> Option<HashValue>
    ensures { result ≡ fields.digest_of digest text.now }
{
    match digest {
        HashKind::Nothing => None,
        HashKind::Md5 => md5_of(text),
        HashKind::Sha256 => sha256_of(text),
    }
}

/// Reads the 32 digits of an MD5. `is_decoded` comes first for speed alone: `hex` answers the same, and is asked again
/// where the digits are none.
fn md5_of(text: &[u8]) -> Option<HashValue>
    ensures { result ≡ fields.md5_of (decode_sized text.now 16) }
{
    let mut bytes = [0; 16];
    let read = is_decoded(text, &mut bytes);
    if read {
        return Some(HashValue::Md5(bytes));
    }
    match <[u8; 16] as FromHex>::from_hex(text) {
        Ok(bytes) => Some(HashValue::Md5(bytes)),
        Err(_) => None,
    }
}

/// Reads the 64 digits of a SHA-256, in the same way.
fn sha256_of(text: &[u8]) -> Option<HashValue>
    ensures { result ≡ fields.sha256_of (decode_sized text.now 32) }
{
    let mut bytes = [0; 32];
    let read = is_decoded(text, &mut bytes);
    if read {
        return Some(HashValue::Sha256(bytes));
    }
    match <[u8; 32] as FromHex>::from_hex(text) {
        Ok(bytes) => Some(HashValue::Sha256(bytes)),
        Err(_) => None,
    }
}

/// Fills `bytes` from hexadecimal digits; returns whether there were exactly enough digits. Unlike `hex` it looks at no
/// digit before it goes on: which digits a hash has cannot be predicted, and each wrong guess of the processor costs as
/// much as ten. After `false` nothing is promised of `bytes`: `hex` is asked.
fn is_decoded(text: &[u8], bytes: &mut [u8]) -> bool
    ensures { IsTrue result → decode_sized text.now (length bytes.old) ≡ Ok bytes.new }
{
    if text.len() % 2 != 0 || text.len() / 2 != bytes.len() {
        return false;
    }
    let mut most: u8 = 0;
    for place in 0..bytes.len() {
        let high = digit_of(text[2 * place]);
        let low = digit_of(text[2 * place + 1]);
        most = most.max(high).max(low);
        bytes[place] = high.wrapping_mul(16).wrapping_add(low);
    }
    most < 16
}

/// Returns the value of a hexadecimal digit of either case, 0 to 15, and 16 for another byte.
fn digit_of(c: u8) -> u8
    ensures { result ≡ fields.digit_of c }
{
    if b'A' <= c && c <= b'F' {
        c - b'A' + 10
    } else if b'a' <= c && c <= b'f' {
        c - b'a' + 10
    } else if b'0' <= c && c <= b'9' {
        c - b'0'
    } else {
        16
    }
}
