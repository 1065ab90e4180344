//! Reading a record from the front of bytes: its beginning, its two frames and its check value, part by part. Functions
//! that return the bytes behind what they read have `None` where too few bytes are there.

ghost use Rattle.std.specs.Prelude.{◌≡◌, ◌+◌, ◌<◌, ◌≤◌, ℕ, List, Some, IfNone, IfSome, length};
ghost use Rattle.droid_journal.specs.Chains.{BeginsNoRecord, BeginsWith};
ghost use Rattle.droid_journal.specs.Reading.{Gives, behind_mark, check_at, fits, front_at, is_right, number_at};
ghost use Rattle.droid_journal.specs.Reading.{record_at, request_in, string_at};
ghost use Rattle.droid_journal.specs.Records.{checksum, made, mark_at};

use crate::records::checks::{MARK, check_of, mark_of};
use crate::records::checksums::checksum_of;
use crate::records::key::{Form, Key};
use crate::records::place::Place;
use droid_frame::HEADER_LENGTH;

/// How many bytes a check value has, and a mark: `MARK` has the byte 1 in front of it too.
const CHECK: usize = 16;

/// The most bytes of a record beside its frames: `MARK`, two lengths of four bytes, and a check value. `room.rt` has it
/// as `AROUND`.
const OVERHEAD: usize = 41;

/// The most bytes of a record, 8 MiB. `STEP` of `file_records.rt` goes by it.
const LIMIT: usize = 8_388_608;

/// A record at the front of bytes.
#[derive(Clone, Copy)]
pub struct Found<'a> {
    /// Whether all records before it were on the disk when it was written.
    pub first: bool,
    /// The request's frame.
    pub request: &'a [u8],
    /// The checksum of the request.
    pub sum: [u8; 16],
    /// The reply's frame.
    pub reply: &'a [u8],
    /// The place behind it.
    pub after: Place,
    /// The bytes behind it.
    pub rest: &'a [u8],
}

/// A record that was read, with its check value.
#[derive(Clone, Copy)]
struct Read<'a> {
    first: bool,
    request: &'a [u8],
    sum: [u8; 16],
    reply: &'a [u8],
    check: [u8; 16],
    rest: &'a [u8],
}

/// Reads the record at the front of bytes, which stand at this place. Returns `None` if no whole record with a right
/// mark and check value is there.
pub fn record_of<'a>(key: Key, place: Place, bytes: &'a [u8]) -> Option<Found<'a>>
    requires at { place.at + length bytes.now < 18446744073709551616 }
    requires records { place.records + length bytes.now < 18446744073709551616 }
    ensures found { IfSome result (λ x.
        BeginsWith key place bytes.now (made x.first x.request.now x.reply.now) x.after x.rest.now) }
    ensures none { IfNone result (BeginsNoRecord key place bytes.now) }
    ensures read { Gives (λ x. (made x.first x.request.now x.reply.now, x.after.check, x.rest.now)) result
        (record_at key place bytes.now) }
    ensures sum { IfSome result (λ x. x.sum ≡ checksum x.request.now) }
{
    record_by(key, place, bytes, None)
}

/// Reads the record at the front as [`record_of`] does. The checksum of its request may have been computed before: that
/// is for speed, and no clause needs it.
pub fn record_by<'a>(
    key: Key,
    place: Place,
    bytes: &'a [u8],
    sum: Option<[u8; 16]>,
) -> Option<Found<'a>>
    requires at { place.at + length bytes.now < 18446744073709551616 }
    requires records { place.records + length bytes.now < 18446744073709551616 }
    requires sum { IfSome sum (λ it.
        (request : List ℕ) → request_in key.form bytes.now ≡ Some request → 18 ≤ length request
        → it ≡ checksum request) }
    ensures found { IfSome result (λ x.
        BeginsWith key place bytes.now (made x.first x.request.now x.reply.now) x.after x.rest.now) }
    ensures none { IfNone result (BeginsNoRecord key place bytes.now) }
    ensures read { Gives (λ x. (made x.first x.request.now x.reply.now, x.after.check, x.rest.now)) result
        (record_at key place bytes.now) }
    ensures sum { IfSome result (λ x. x.sum ≡ checksum x.request.now) }
{
    let Some(read) = read_record(key, place, bytes, sum) else {
        return None;
    };
    let size = bytes.len() - read.rest.len();
    let after = Place {
        at: place.at + size as u64,
        check: read.check,
        records: place.records + 1,
    };
    Some(Found {
        first: read.first,
        request: read.request,
        sum: read.sum,
        reply: read.reply,
        after,
        rest: read.rest,
    })
}

/// Does the work of [`record_by`], but for the place behind the record.
#[tactic(auto, unfolding(crate::specs::Reading::record_at))]
fn read_record<'a>(
    key: Key,
    place: Place,
    bytes: &'a [u8],
    sum: Option<[u8; 16]>,
) -> Option<Read<'a>>
    requires { IfSome sum (λ it.
        (request : List ℕ) → request_in key.form bytes.now ≡ Some request → 18 ≤ length request
        → it ≡ checksum request) }
    ensures read { Gives (λ x. (made x.first x.request.now x.reply.now, x.check, x.rest.now)) result
        (record_at key place bytes.now) }
    ensures sum { IfSome result (λ x. x.sum ≡ checksum x.request.now) }
{
    let (first, behind) = front_of(key.form, bytes)?;
    let (request, behind) = string_of(behind)?;
    let (reply, behind) = string_of(behind)?;
    if !fits(request, reply) {
        return None;
    }
    if !has_right_mark(key, place.at, first, bytes) {
        return None;
    }
    let sum = match sum {
        Some(sum) => sum,
        None => checksum_of(request),
    };
    let next = check_of(key, place, first, request, &sum, reply);
    let rest = behind_check(&next, behind)?;
    Some(Read {
        first,
        request,
        sum,
        reply,
        check: next,
        rest,
    })
}

/// Returns the request of the record at the front, without a look at its mark and its check value. `None` if no whole
/// request is there.
pub fn request_of(form: Form, bytes: &[u8]) -> Option<&[u8]>
    ensures { Gives (λ x. x.now) result (request_in form bytes.now) }
{
    let (_, behind) = front_of(form, bytes)?;
    let (request, _) = string_of(behind)?;
    Some(request)
}

/// Returns whether a record can have this request and this reply: the request has at least the header of a frame, and
/// the record at most 8 MiB.
fn fits(request: &[u8], reply: &[u8]) -> bool
    ensures { result ≡ fits request.now reply.now }
{
    if request.len() < HEADER_LENGTH {
        return false;
    }
    request
        .len()
        .saturating_add(reply.len())
        .saturating_add(OVERHEAD)
        <= LIMIT
}

/// Takes the bytes behind the byte 1 with which a turn's first record begins, and returns those behind its mark. In
/// version 4 a mark has 16 bytes; `None` if they are fewer. Version 3 has no marks: all bytes are returned.
#[tactic(auto, unfolding(crate::specs::Reading::behind_mark))]
fn behind_mark_of(form: Form, bytes: &[u8]) -> Option<&[u8]>
    ensures { Gives (λ x. x.now) result (behind_mark form bytes.now) }
{
    match form {
        Form::Before => return Some(bytes),
        Form::Present => {}
    }
    if bytes.len() < CHECK {
        return None;
    }
    let (_, rest) = bytes.split_at(CHECK);
    Some(rest)
}

/// Returns whether a record is the first of a turn, and the bytes behind its beginning, without a look at the mark.
/// `None` too if its first byte is neither 0 nor 1.
fn front_of(form: Form, bytes: &[u8]) -> Option<(bool, &[u8])>
    ensures { Gives (λ x. (x.0, x.1.now)) result (front_at form bytes.now) }
{
    let [byte, rest @ ..] = bytes else {
        return None;
    };
    if *byte == 0 {
        return Some((false, rest));
    }
    if *byte == 1 {
        let behind = behind_mark_of(form, rest)?;
        return Some((true, behind));
    }
    None
}

/// Returns whether a record that begins these bytes, at this offset, has the right mark, if it is to have one: only the
/// first of a turn (`first`) in version 4 does.
#[tactic(auto, unfolding(crate::specs::Reading::is_right))]
fn has_right_mark(key: Key, at: u64, first: bool, bytes: &[u8]) -> bool
    ensures { result ≡ is_right key.form (mark_at key at) first bytes.now }
{
    if !first {
        return true;
    }
    match key.form {
        Form::Before => return true,
        Form::Present => {}
    }
    if bytes.len() < MARK {
        return false;
    }
    let (_, behind) = bytes.split_at(1);
    let (front, _) = behind.split_at(CHECK);
    let wanted = mark_of(key, at);
    front == wanted.as_slice()
}

/// Reads a big-endian number of four bytes from the front. Returns it, and the bytes behind it.
fn number_of(bytes: &[u8]) -> Option<(u32, &[u8])>
    ensures { Gives (λ x. (x.0, x.1.now)) result (number_at bytes.now) }
{
    if bytes.len() < 4 {
        return None;
    }
    let (front, rest) = bytes.split_at(4);
    Some((
        u32::from_be_bytes([front[0], front[1], front[2], front[3]]),
        rest,
    ))
}

/// Reads a length of four bytes from the front, and that many bytes. Returns these, and the bytes behind them.
#[tactic(auto, unfolding(crate::specs::Reading::string_at))]
fn string_of(bytes: &[u8]) -> Option<(&[u8], &[u8])>
    ensures { Gives (λ x. (x.0.now, x.1.now)) result (string_at bytes.now) }
{
    let (length, rest) = number_of(bytes)?;
    let length = length as usize;
    if rest.len() < length {
        return None;
    }
    Some(rest.split_at(length))
}

/// Returns the bytes behind a check value at their front, if it is the one that is wanted; otherwise `None`.
#[tactic(auto, unfolding(crate::specs::Reading::check_at))]
fn behind_check<'a>(wanted: &[u8; 16], bytes: &'a [u8]) -> Option<&'a [u8]>
    ensures { Gives (λ x. x.now) result (check_at wanted.now bytes.now) }
{
    if bytes.len() < CHECK {
        return None;
    }
    let (check, rest) = bytes.split_at(CHECK);
    if check != wanted.as_slice() {
        return None;
    }
    Some(rest)
}
