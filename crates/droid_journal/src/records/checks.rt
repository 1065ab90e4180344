//! The check values of records and the marks of turns, which only who knows a journal's start value can make.

ghost use Rattle.std.specs.Prelude.{◌≡◌, ◌≤◌, ◌++◌, ◌↔◌, IsTrue, [], length, take};
ghost use Rattle.std.specs.Int.{w64, to_be_bytes};
ghost use Rattle.md5.specs.Md5.{md5};
ghost use Rattle.droid_journal.specs.Records as records;
ghost use Rattle.droid_journal.specs.Records.{by_form, checksum, digest, made, mark_at, next_check, sealed};

use crate::records::comparison::is_same;
use crate::records::key::{Form, Key};
use crate::records::place::Place;
use droid_frame::HEADER_LENGTH;
use md5::{Digest, Md5};

/// The bytes of a check value of version 3 in front of its seal, which has the other four of its 16.
const SEALED: usize = 12;

/// The bytes of the beginning of a turn in version 4: a byte 1 and its mark of 16 bytes. Clauses have it as 17, and the
/// prover ties them to it.
pub const MARK: usize = 17;

/// Computes the mark at an offset of a journal: the MD5 of the start value and the offset.
#[tactic(auto, unfolding(crate::specs::Records::mark_at))]
pub(crate) fn mark_of(key: Key, at: u64) -> [u8; 16]
    ensures { result ≡ mark_at key at }
{
    let mut hasher = Md5::new();
    hasher.update(&key.start);
    hasher.update(&at.to_be_bytes());
    hasher.finalize()
}

/// Returns the beginning of a turn at an offset of a journal of version 4: its bytes say that all before them is on the
/// disk.
pub fn turn_mark(key: Key, at: u64) -> [u8; 17]
    ensures { result ≡ records.turn_mark key at }
{
    let mark = mark_of(key, at);
    let mut bytes = [1u8; MARK];
    bytes[1..].copy_from_slice(&mark);
    bytes
}

/// Spells where a record stands, for its check value: its offset, and how many records stand before it, in eight bytes
/// each.
fn bytes_of(place: Place) -> [u8; 16]
    ensures { result ≡ to_be_bytes w64 place.at ++ to_be_bytes w64 place.records }
{
    let mut bytes = [0u8; 16];
    bytes[..8].copy_from_slice(&place.at.to_be_bytes());
    bytes[8..].copy_from_slice(&place.records.to_be_bytes());
    bytes
}

/// Returns these bytes in version 4, none in version 3: what only a check value of version 4 depends on.
fn of_form(form: Form, bytes: &[u8]) -> &[u8]
    ensures { result.now ≡ by_form form [] bytes.now }
{
    match form {
        Form::Before => &bytes[..0],
        Form::Present => bytes,
    }
}

/// Computes the MD5 of a record at a place, from which its check value is made. Of the request only its header and its
/// checksum (`sum`) are hashed, as its body was hashed for that. `first` says whether the record begins a turn.
#[tactic(auto, unfolding(crate::specs::Records::digest))]
fn digest_of(
    key: Key,
    place: Place,
    first: bool,
    request: &[u8],
    sum: &[u8; 16],
    reply: &[u8],
) -> [u8; 16]
    requires header { 18 ≤ length request.now }
    requires sum { sum.now ≡ checksum request.now }
    ensures { result ≡ digest key place (made first request.now reply.now) }
{
    let stands = bytes_of(place);
    let mut hasher = Md5::new();
    hasher.update(&key.start);
    hasher.update(&place.check);
    hasher.update(of_form(key.form, &stands));
    hasher.update(&[u8::from(first)]);
    hasher.update(&request[..HEADER_LENGTH]);
    hasher.update(sum);
    hasher.update(reply);
    hasher.finalize()
}

/// Computes the MD5 whose first four bytes seal these bytes.
fn seal_of(start: &[u8; 16], bytes: &[u8]) -> [u8; 16]
    ensures { result ≡ md5 (start.now ++ bytes.now) }
{
    let mut hasher = Md5::new();
    hasher.update(start);
    hasher.update(bytes);
    hasher.finalize()
}

/// Replaces the last four bytes of a digest by the first four of a seal.
fn with_seal(digest: &[u8; 16], seal: &[u8; 16]) -> [u8; 16]
    ensures { result ≡ take 12 digest.now ++ take 4 seal.now }
{
    let mut check = *digest;
    check[SEALED..].copy_from_slice(&seal[..4]);
    check
}

/// Seals a digest as a check value of version 3.
fn sealed_by(start: &[u8; 16], digest: &[u8; 16]) -> [u8; 16]
    ensures { result ≡ sealed start.now (take 12 digest.now) }
{
    let seal = seal_of(start, &digest[..SEALED]);
    with_seal(digest, &seal)
}

/// Computes the check value of a record at a place from the checksum of its request (`sum`): its MD5, sealed in version
/// 3.
#[tactic(auto, unfolding(crate::specs::Records::next_check))]
pub(crate) fn check_of(
    key: Key,
    place: Place,
    first: bool,
    request: &[u8],
    sum: &[u8; 16],
    reply: &[u8],
) -> [u8; 16]
    requires header { 18 ≤ length request.now }
    requires sum { sum.now ≡ checksum request.now }
    ensures { result ≡ next_check key place (made first request.now reply.now) }
{
    let digest = digest_of(key, place, first, request, sum, reply);
    match key.form {
        Form::Before => sealed_by(&key.start, &digest),
        Form::Present => digest,
    }
}

/// Returns whether 16 bytes are sealed like a check value of a journal of version 3 with this start value.
pub(crate) fn is_sealed(start: &[u8; 16], check: &[u8]) -> bool
    requires { length check.now ≡ 16 }
    ensures { IsTrue result ↔ (check.now ≡ sealed start.now (take 12 check.now)) }
{
    let (bytes, own) = check.split_at(SEALED);
    let seal = seal_of(start, bytes);
    is_same(own, &seal[..4])
}
