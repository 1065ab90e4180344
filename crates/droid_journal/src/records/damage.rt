//! Whether the end of a journal is torn or damaged.

ghost use Rattle.std.specs.Prelude.{◌≡◌, ◌+◌, ◌<◌, ◌^◌, ◌↔◌, IsTrue, length, true};
ghost use Rattle.droid_journal.specs.Chains.{HasLater, IsLater, IsMark, StandsLater, place_with};

use crate::records::checks::{MARK, is_sealed, turn_mark};
use crate::records::comparison::is_same;
use crate::records::key::{Form, Key};
use crate::records::place::Place;
use crate::records::record_reader::record_of;

/// How many bytes a check value has, in version 3 as in 4.
const CHECK: usize = 16;

/// Returns whether these bytes, which begin at this offset of a file, have, anywhere, the beginning of a later turn. If
/// so, the bytes before it were damaged.
///
/// In version 4 a place costs an MD5 of 24 bytes only where a byte 1 stands. In version 3 each place costs at most one
/// of 28 bytes, and a record is hashed only behind bytes that are sealed like a check value. Only who knows the
/// journal's header can make a mark or a seal.
pub fn has_later(key: Key, at: u64, bytes: &[u8]) -> bool
    requires { at + length bytes.now < 18446744073709551616 }
    ensures { IsTrue result ↔ HasLater key at bytes.now }
{
    for place in 0..bytes.len() {
        if is_later(key, at + place as u64, &bytes[place..]) {
            return true;
        }
    }
    false
}

/// Returns whether the beginning of a later turn is at the front of bytes, which begin at this offset: by the form of
/// the journal, a mark or a sealed check value with a record.
fn is_later(key: Key, at: u64, bytes: &[u8]) -> bool
    ensures { IsTrue result ↔ StandsLater key at bytes.now }
{
    match key.form {
        Form::Before => is_later_before(key, bytes),
        Form::Present => is_mark(key, at, bytes),
    }
}

/// Returns whether bytes, which begin at this offset, begin with the beginning of a turn.
pub fn is_mark(key: Key, at: u64, bytes: &[u8]) -> bool
    ensures { IsTrue result ↔ IsMark key at bytes.now }
{
    if bytes.len() < MARK {
        return false;
    }
    if bytes[0] != 1 {
        return false;
    }
    let (front, _) = bytes.split_at(MARK);
    is_same(front, &turn_mark(key, at))
}

/// Returns the place behind a record with this check value. In version 3 the offset and the number of records do not
/// count, so they are 0.
fn place_behind(check: &[u8]) -> Place
    requires { length check.now ≡ 16 }
    ensures { result ≡ place_with check.now }
{
    let mut own = [0u8; CHECK];
    own.copy_from_slice(check);
    Place {
        at: 0,
        check: own,
        records: 0,
    }
}

/// Returns whether bytes begin with a check value of version 3, and then with a whole record that was written when all
/// before it was on the disk.
fn is_later_before(key: Key, bytes: &[u8]) -> bool
    requires size { length bytes.now < 18446744073709551616 }
    ensures { IsTrue result ↔ IsLater key bytes.now }
{
    if bytes.len() <= CHECK {
        return false;
    }
    if bytes[CHECK] != 1 {
        return false;
    }
    let (check, behind) = bytes.split_at(CHECK);
    if !is_sealed(&key.start, check) {
        return false;
    }
    match record_of(key, place_behind(check), behind) {
        Some(found) => found.first,
        None => false,
    }
}
