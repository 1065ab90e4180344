//! Which files have ended, by a few bytes of each record of a journal: its lengths, and the front of its request.
//!
//! Each `RewriteFault` here is Read, or Memory where something is noted. Read also stands for a number past 64 bits,
//! which no file reaches. In clauses 25 is `AROUND` of `weight.rt`: no record has fewer bytes, and behind the records
//! of a journal stand fewer, nothing or a mark.

ghost use Rattle.std.specs.Prelude.{◌≡◌, ◌≤◌, ◌<◌, ◌+◌, ◌^◌, ◌++◌, ◌∷◌, ℕ, [], None, Some, List, IfErr, IfOk};
ghost use Rattle.std.specs.Prelude.{MatchOption, OnOk, drop, if◌then◌else◌, length, nat_lt, take, true};
ghost use Rattle.std.specs.Int.{from_be_bytes, to_be_bytes, w32};
ghost use Rattle.droid_journal.specs.Chains.{chain_bytes};
ghost use Rattle.droid_journal.specs.Records.{AllFit, Fits, Record, front_bytes, record_bytes};
ghost use Rattle.droid_journal.specs.declared.records.key.Key.{Key};
ghost use Rattle.droid_journal.specs.declared.records.place.Place.{Place};
ghost use Rattle.droid_compaction.specs.Faults.{IsOfReading};
ghost use Rattle.droid_compaction.specs.Noting.{AreNoted};
ghost use Rattle.droid_compaction.specs.Skimming.{IsFrontOf};

use crate::ended_files::Ended;
use crate::fields::{file_of, stamp_of};
use crate::rewrite_fault::RewriteFault;
use droid_journal::{Form, LogFile, MARK};

/// The bytes that are read at the front of a record: more than its beginning (at most `MARK`, 17) and `LEAST`, 59 in
/// all, as the prover sees to. Clauses have it as 80.
const READ: usize = 80;

/// The least bytes of a record behind its beginning: two lengths of four bytes, the header of the request (18), and a
/// check value (16). All fields of a [`Front`] lie within them.
const LEAST: usize = 42;

/// The least bytes of a request: the header of its frame, `HEADER_LENGTH` of `droid_frame`. A larger number the prover
/// refuses, in `can_be`.
const LEAST_REQUEST: u32 = 18;

/// The most bytes of a record, 8 MiB: `LIMIT` of `record_reader.rt` in `droid_journal`. The clause of `can_be` ties it
/// to that of `Fits`: a smaller number the prover refuses.
const LIMIT: u64 = 8_388_608;

/// The fields at the front of a record.
#[derive(Clone, Copy)]
pub(crate) struct Front {
    /// How many bytes stand in front of the request's length.
    pub(crate) ahead: u8,
    /// How many bytes the request has.
    pub(crate) request: u32,
    /// The request's kind.
    pub(crate) kind: u8,
    /// The client and the number of the request.
    pub(crate) stamp: u128,
    /// The profile and the file, if the request is about a file.
    pub(crate) file: u128,
}

/// Reads the big-endian number in the first four bytes; `None` if they are fewer.
pub(crate) fn length_in(bytes: &[u8]) -> Option<u32>
    ensures { result ≡ (if nat_lt (length bytes.now) 4 then None else Some (from_be_bytes w32 (take 4 bytes.now))) }
{
    if bytes.len() < 4 {
        return None;
    }
    let (front, _) = bytes.split_at(4);
    Some(u32::from_be_bytes([front[0], front[1], front[2], front[3]]))
}

/// Reads the number in the four bytes at a place of the file. `None`: the file ends before it is whole.
fn length_at<F: LogFile>(file: &F, at: u64) -> Result<Option<u32>, RewriteFault>
    requires found { F.is_found file.now }
    ensures there { (s rest : List ℕ) (n : ℕ) → F.has file.now s → n < 2 ^ 32 → drop at s ≡ to_be_bytes w32 n ++ rest
        → IfOk result (λ seen. seen ≡ Some n) }
    ensures fault { IfErr result IsOfReading }
{
    let mut bytes = [0u8; 4];
    match file.read_at(at, &mut bytes) {
        Ok(count) => Ok(length_in(&bytes[..count])),
        Err(_) => Err(RewriteFault::Read),
    }
}

/// Returns how many bytes the beginning of a record has: its first byte, and in version 4 its mark if it is the first
/// of a turn; 1 or 17. Also 1 if there is no byte.
pub(crate) fn ahead_in(form: Form, bytes: &[u8]) -> usize
    ensures least { 1 ≤ result }
    ensures bound { result ≤ 17 }
    ensures there { (key : Key) (place : Place) (it : Record) (rest : List ℕ) (n : ℕ) → key.form ≡ form → 1 ≤ n
        → bytes.now ≡ take n (record_bytes key place it ++ rest) → result ≡ length (front_bytes key place it.first) }
{
    match form {
        Form::Before => return 1,
        Form::Present => {}
    }
    if bytes.len() < 1 {
        return 1;
    }
    if bytes[0] == 1 {
        return MARK;
    }
    1
}

/// Returns the fields in the bytes at the front of a record. `None`: they are too few.
fn front_in(form: Form, bytes: &[u8]) -> Option<Front>
    ensures there { (key : Key) (place : Place) (it : Record) (rest : List ℕ) → key.form ≡ form → Fits it
        → bytes.now ≡ take 80 (record_bytes key place it ++ rest)
        → MatchOption result ⊥ (IsFrontOf (length (front_bytes key place it.first)) it.request) }
    ensures none { length bytes.now < 25 → result ≡ None }
{
    let ahead = ahead_in(form, bytes);
    let least = ahead + LEAST;
    if bytes.len() < least {
        return None;
    }
    let (_, rest) = bytes.split_at(ahead);
    let Some(request) = length_in(rest) else {
        return None;
    };
    let (_, front) = rest.split_at(4);
    Some(Front {
        ahead: ahead as u8,
        request,
        kind: front[1],
        stamp: stamp_of(front),
        file: file_of(front),
    })
}

/// Reads the fields at the front of the record at a place. `None`: no record is there.
fn front_at<F: LogFile>(file: &F, form: Form, at: u64) -> Result<Option<Front>, RewriteFault>
    requires found { F.is_found file.now }
    ensures there { (s : List ℕ) (key : Key) (place : Place) (it : Record) (rest : List ℕ) → key.form ≡ form
        → F.has file.now s → Fits it → drop at s ≡ record_bytes key place it ++ rest
        → IfOk result (λ seen. MatchOption seen ⊥ (IsFrontOf (length (front_bytes key place it.first)) it.request)) }
    ensures none { (s : List ℕ) → F.has file.now s → length (drop at s) < 25 → IfOk result (λ seen. seen ≡ None) }
    ensures fault { IfErr result IsOfReading }
{
    let mut bytes = [0u8; READ];
    match file.read_at(at, &mut bytes) {
        Ok(count) => Ok(front_in(form, &bytes[..count])),
        Err(_) => Err(RewriteFault::Read),
    }
}

/// Returns whether a record can have a request and a reply of these lengths. Of those that none has, no clause needs
/// the answer; false ends the reading of a file that is no journal. The 25 bytes beside the frames are those of a
/// record without a mark, so up to 16 bytes more than `Fits` allows, with 41, are let through.
fn can_be(request: u32, reply: u32) -> bool
    ensures { 18 ≤ request → request + reply + 25 ≤ 8388608 → result ≡ true }
{
    if request < LEAST_REQUEST {
        return false;
    }
    u64::from(request) + u64::from(reply) + 25 <= LIMIT
}

/// Notes the record at a place, and returns where the next one begins. `None`: no record is there, or its lengths are
/// none of a record (`can_be`); then nothing is noted.
fn skim_one<F: LogFile>(
    file: &F,
    form: Form,
    ended: &mut Ended,
    at: u64,
) -> Result<Option<u64>, RewriteFault>
    requires found { F.is_found file.now }
    ensures there { (s : List ℕ) (key : Key) (place : Place) (before : List Record) (it : Record) (rest : List ℕ)
        → key.form ≡ form → F.has file.now s → Fits it → drop at s ≡ record_bytes key place it ++ rest
        → AreNoted ended.old.files ended.old.stamps before
        → IfOk result (λ next.
        MatchOption next ⊥ (λ n.
        (n ≡ at + length (record_bytes key place it))
        × AreNoted ended.new.files ended.new.stamps (before ++ it ∷ []))) }
    ensures none { (s : List ℕ) → F.has file.now s → length (drop at s) < 25
        → IfOk result (λ next. (next ≡ None) × (ended.new ≡ ended.old)) }
    ensures fault { IfErr result IsOfReading }
{
    let front = match front_at(file, form, at) {
        Ok(front) => front,
        Err(fault) => return Err(fault),
    };
    let Some(front) = front else {
        return Ok(None);
    };
    // Behind the request stands the length of the reply.
    let Some(place) = at.checked_add(u64::from(front.request) + u64::from(front.ahead) + 4) else {
        return Err(RewriteFault::Read);
    };
    let reply = match length_at(file, place) {
        Ok(reply) => reply,
        Err(fault) => return Err(fault),
    };
    let Some(reply) = reply else {
        return Ok(None);
    };
    if !can_be(front.request, reply) {
        return Ok(None);
    }
    // Behind that length, of four bytes, stand the reply and a check value of 16.
    let Some(next) = place.checked_add(u64::from(reply) + 20) else {
        return Err(RewriteFault::Read);
    };
    match ended.note(front, reply) {
        Ok(()) => Ok(Some(next)),
        Err(fault) => Err(fault),
    }
}

/// Notes the records of a journal from a place on, to the first that is not whole. A file that is no journal is read as
/// if it were one. After a fault nothing is promised of what was noted: `ended_in` drops it.
pub(crate) fn skim<F: LogFile>(
    file: &F,
    form: Form,
    ended: &mut Ended,
    from: u64,
) -> Result<(), RewriteFault>
    requires found { F.is_found file.now }
    ensures noted { (s : List ℕ) (key : Key) (place : Place) (its : List Record) (tail : List ℕ) → key.form ≡ form
        → F.has file.now s → AllFit its → length tail < 25 → drop from s ≡ chain_bytes key place its ++ tail
        → AreNoted ended.old.files ended.old.stamps []
        → OnOk result (AreNoted ended.new.files ended.new.stamps its) }
    ensures fault { IfErr result IsOfReading }
{
    let mut at = from;
    // The bound is never reached. With it the loop ends, whatever the file does.
    for _ in 0..u64::MAX {
        let next = match skim_one(file, form, ended, at) {
            Ok(next) => next,
            Err(fault) => return Err(fault),
        };
        match next {
            Some(place) => at = place,
            None => return Ok(()),
        }
    }
    Err(RewriteFault::Read)
}
