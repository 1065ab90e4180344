//! Writing the records of the smaller journal, one after another, as the old file is read. After a fault nothing is
//! promised of what was spelled or written: `new_file.rt` drops it.

ghost use Rattle.std.specs.Prelude.{◌≡◌, ◌+◌, ◌≤◌, ◌++◌, ℕ, [], List, IfErr, IfOk, IfSome, MatchOption, OnOk, false};
ghost use Rattle.std.specs.Prelude.{length};
ghost use Rattle.droid_compaction.specs.BareFrames.{bare_piece_bytes};
ghost use Rattle.droid_journal.specs.Records.{Fits, checksum, made, next_check, record_bytes};
ghost use Rattle.droid_compaction.specs.Numbers.{has_number};
ghost use Rattle.droid_compaction.specs.Shortening.{smaller_request};

use crate::fields::{file_of, is_about, stamp_of};
use crate::frame_writer::{bare_finish, bare_piece};
use crate::numbers::Numbers;
use crate::rewrite_fault::RewriteFault;
use crate::taker::Taker;
use droid_frame::kinds::{FINISH, PIECE};
use droid_journal::{Key, LogFile, Place, checksum_of, put_record};
use std::alloc::{AllocError, Global};

/// The most bytes of a record beside its two frames, its mark among them: `OVERHEAD` of `record_reader.rt` in
/// `droid_journal`. `put_record` requires so much room, and the prover refuses a smaller number. Clauses have it as 41,
/// beside 8388608, the most bytes of a record (`LIMIT` of `skim.rt`).
const AROUND: usize = 41;

/// The bytes that are collected before they are written: this many or more. For speed; no clause holds it.
const COLLECTED: usize = 1_048_576;

/// Writes the records of the smaller journal into a file.
#[derive(Drop)]
pub(crate) struct Rewriter<N: LogFile> {
    pub(crate) alloc: Global,
    /// The files that have ended.
    pub(crate) ended: Numbers,
    /// The clients and numbers of the requests so far.
    pub(crate) stamps: Numbers,
    pub(crate) file: N,
    /// What is not written yet.
    pub(crate) out: Vec<u8>,
    pub(crate) key: Key,
    /// The place behind the records that were spelled.
    pub(crate) place: Place,
    /// How many bytes were written.
    pub(crate) bytes: u64,
}

/// Returns the bare frame that stands for a piece or a Finish of one of the files in `ended`, or `None` if the request
/// stays as it is. `sum` is the request's checksum, which is its mark. Fails only if memory runs out. By `least` and
/// `most` the bare frame makes a record.
fn bare_of(
    alloc: Global,
    ended: &Numbers,
    request: &[u8],
    sum: [u8; 16],
    reply: &[u8],
) -> Result<Option<Vec<u8>>, AllocError>
    requires header { 18 ≤ length request.now }
    requires sum { sum ≡ checksum request.now }
    ensures bare { IfOk result (λ bare.
        MatchOption bare (smaller_request (has_number ended.now) request.now reply.now ≡ request.now)
        (λ bytes. bytes.items ≡ smaller_request (has_number ended.now) request.now reply.now)) }
    ensures least { IfOk result (λ bare. IfSome bare (λ bytes. 18 ≤ length bytes.items)) }
    ensures most { IfOk result (λ bare. IfSome bare (λ bytes. length bytes.items + length reply.now + 41 ≤ 8388608)) }
{
    if is_about(PIECE, request, reply) {
        let its = file_of(request);
        if !ended.has(its) {
            return Ok(None);
        }
        let bare = bare_piece(alloc, request, sum, reply)?;
        return Ok(Some(bare));
    }
    if !is_about(FINISH, request, reply) {
        return Ok(None);
    }
    let file = file_of(request);
    if !ended.has(file) {
        return Ok(None);
    }
    let bare = bare_finish(alloc, request, reply)?;
    Ok(Some(bare))
}

/// Appends a record that begins no turn to a buffer, as all records of a smaller journal, and returns its check value.
/// Fails only if memory runs out.
fn append_record(
    out: &mut Vec<u8>,
    key: Key,
    place: Place,
    request: &[u8],
    sum: [u8; 16],
    reply: &[u8],
) -> Result<[u8; 16], AllocError>
    requires header { 18 ≤ length request.now }
    requires sum { sum ≡ checksum request.now }
    requires size { length request.now + length reply.now + 41 ≤ 8388608 }
    ensures bytes { OnOk result
        (out.new.items ≡ out.old.items ++ record_bytes key place (made false request.now reply.now)) }
    ensures check { IfOk result (λ next. next ≡ next_check key place (made false request.now reply.now)) }
{
    out.reserve(request.len() + reply.len() + AROUND)?;
    Ok(put_record(out, key, place, false, request, &sum, reply))
}

/// Appends the record of a request to a buffer, bare if its file has ended, and returns its check value. `stands` is
/// the new journal's key, and the place of the record in it; `sum` is the checksum of the request as it was. Fails only
/// if memory runs out.
fn spell(
    alloc: Global,
    ended: &Numbers,
    out: &mut Vec<u8>,
    stands: (Key, Place),
    request: &[u8],
    sum: [u8; 16],
    reply: &[u8],
) -> Result<[u8; 16], AllocError>
    requires header { 18 ≤ length request.now }
    requires sum { sum ≡ checksum request.now }
    requires size { length request.now + length reply.now + 41 ≤ 8388608 }
    ensures bytes { OnOk result
        (out.new.items
        ≡ out.old.items
        ++ record_bytes stands.0 stands.1
        (made false (smaller_request (has_number ended.now) request.now reply.now) reply.now)) }
    ensures check { IfOk result (λ next.
        next
        ≡ next_check stands.0 stands.1
        (made false (smaller_request (has_number ended.now) request.now reply.now) reply.now)) }
    ensures fits { OnOk result
        (Fits (made false (smaller_request (has_number ended.now) request.now reply.now) reply.now)) }
{
    let (key, place) = stands;
    match bare_of(alloc, ended, request, sum, reply)? {
        Some(bare) => {
            let its = checksum_of(&bare);
            append_record(out, key, place, &bare, its, reply)
        }
        None => append_record(out, key, place, request, sum, reply),
    }
}

/// Appends what was collected (`out`) to the file, which has `bytes` bytes, and returns how many it then has. Nothing
/// is collected after that.
pub(crate) fn flush<N: LogFile>(
    file: &mut N,
    out: &mut Vec<u8>,
    bytes: u64,
) -> Result<u64, RewriteFault>
    ensures written { (s : List ℕ) → N.has file.old s → OnOk result (N.has file.new (s ++ out.old.items)) }
    ensures empty { OnOk result (out.new.items ≡ []) }
    ensures bytes { IfOk result (λ now. now ≡ bytes + length out.old.items) }
    ensures fault { IfErr result (λ fault. fault ≡ RewriteFault.Write) }
{
    // No file is so long that this fails.
    let Some(now) = bytes.checked_add(out.len() as u64) else {
        return Err(RewriteFault::Write);
    };
    match file.append(out.as_slice()) {
        Ok(()) => {}
        Err(_) => return Err(RewriteFault::Write),
    }
    out.clear();
    Ok(now)
}

impl<N: LogFile> Taker for Rewriter<N> {
    ghost use Rattle.droid_compaction.specs.Aims.{Aim};
    ghost use Rattle.droid_compaction.specs.Writing.{IsWriting};

    ghost Setting = { Aim };

    ghost took = { λ aim rewriter its. IsWriting N.has aim rewriter its };

    /// Leaves out a request that came again. Writes once enough was collected: when, no clause holds, only that what
    /// was written and what is collected are the smaller journal so far.
    fn take(&mut self, request: &[u8], sum: [u8; 16], reply: &[u8]) -> Result<(), RewriteFault> {
        let stamp = stamp_of(request);
        if self.stamps.has(stamp) {
            return Ok(());
        }
        match self.stamps.add(stamp) {
            Ok(()) => {}
            Err(_) => return Err(RewriteFault::Memory),
        }
        let before = self.out.len();
        let (key, place) = (self.key, self.place);
        let check = match spell(
            self.alloc,
            &self.ended,
            &mut self.out,
            (key, place),
            request,
            sum,
            reply,
        ) {
            Ok(check) => check,
            Err(_) => return Err(RewriteFault::Memory),
        };
        // No file is so long that this fails.
        let Some(next) = place.behind(self.out.len() - before, check) else {
            return Err(RewriteFault::Write);
        };
        self.place = next;
        if self.out.len() < COLLECTED {
            return Ok(());
        }
        match flush(&mut self.file, &mut self.out, self.bytes) {
            Ok(now) => self.bytes = now,
            Err(_) => return Err(RewriteFault::Write),
        }
        Ok(())
    }
}
