//! Writing a record into room that was taken before.

ghost use Rattle.std.specs.Prelude.{◌≡◌, ◌+◌, ◌<◌, ◌≤◌, ◌++◌, length, vec_capacity, vec_len};
ghost use Rattle.droid_journal.specs.Records.{checksum, front_bytes, made, next_check, record_bytes, string};

use crate::records::checks::{check_of, turn_mark};
use crate::records::key::{Form, Key};
use crate::records::place::Place;

/// Appends bytes for which there is room: nothing is allocated, and the `unwrap` never fails.
fn put(out: &mut Vec<u8>, bytes: &[u8])
    requires { vec_len out.old + length bytes.now ≤ vec_capacity out.old }
    ensures items { out.new.items ≡ out.old.items ++ bytes.now }
    ensures len { vec_len out.new ≡ vec_len out.old + length bytes.now }
    ensures capacity { vec_capacity out.old ≤ vec_capacity out.new }
{
    out.extend_from_slice(bytes).unwrap()
}

/// Appends four bytes of length and that many bytes, for which there is room.
fn put_string(out: &mut Vec<u8>, bytes: &[u8])
    requires size { length bytes.now < 4294967296 }
    requires room { vec_len out.old + length bytes.now + 4 ≤ vec_capacity out.old }
    ensures items { out.new.items ≡ out.old.items ++ string bytes.now }
    ensures len { vec_len out.new ≡ vec_len out.old + length bytes.now + 4 }
    ensures capacity { vec_capacity out.old ≤ vec_capacity out.new }
{
    put(out, &(bytes.len() as u32).to_be_bytes());
    put(out, bytes)
}

/// Appends the beginning of a record, for which there is room: a byte 0, or if it is the first of a turn a byte 1 and,
/// in version 4, its mark.
fn put_front(out: &mut Vec<u8>, key: Key, place: Place, first: bool)
    requires room { vec_len out.old + 17 ≤ vec_capacity out.old }
    ensures items { out.new.items ≡ out.old.items ++ front_bytes key place first }
    ensures len { vec_len out.new ≤ vec_len out.old + 17 }
    ensures capacity { vec_capacity out.old ≤ vec_capacity out.new }
{
    if !first {
        return put(out, &[0u8]);
    }
    match key.form {
        Form::Before => put(out, &[1u8]),
        Form::Present => put(out, &turn_mark(key, place.at)),
    }
}

/// Appends a record to bytes that have room for it, and returns its check value. It takes no memory. `place` is where
/// the record is to stand, `first` whether it begins a turn, `sum` the checksum of the request. `request`
/// and `reply` are frames as bytes.
#[tactic(auto, unfolding(crate::specs::Records::record_bytes))]
pub fn put_record(
    out: &mut Vec<u8>,
    key: Key,
    place: Place,
    first: bool,
    request: &[u8],
    sum: &[u8; 16],
    reply: &[u8],
) -> [u8; 16]
    requires header { 18 ≤ length request.now }
    requires sum { sum.now ≡ checksum request.now }
    requires size { length request.now + length reply.now + 41 ≤ 8388608 }
    requires room { vec_len out.old + length request.now + length reply.now + 41 ≤ vec_capacity out.old }
    ensures bytes { out.new.items ≡ out.old.items ++ record_bytes key place (made first request.now reply.now) }
    ensures check { result ≡ next_check key place (made first request.now reply.now) }
    ensures capacity { vec_capacity out.old ≤ vec_capacity out.new }
{
    let next = check_of(key, place, first, request, sum, reply);
    put_front(out, key, place, first);
    put_string(out, request);
    put_string(out, reply);
    put(out, &next);
    next
}
