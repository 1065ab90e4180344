//! Reads the pieces of a file, and sends those that the service lacks.

ghost use Rattle.std.specs.Prelude.{◌≡◌, ◌≢◌, ◌+◌, ◌≤◌, ◌++◌, [], ◌∷◌, ℕ, List, true, length, drop, IfErr, IfOk};
ghost use Rattle.std.specs.Prelude.{MatchResult, OnErr, OnOk};
ghost use Rattle.droid_frame.specs.Fields.{IsBytes, IsU32};
ghost use Rattle.droid_frame.specs.declared.refusal.Refusal.TheVariants as refusals;
ghost use Rattle.droid_frame.specs.declared.request.Request.TheVariants.{Piece};
ghost use Rattle.droid_frame.specs.RunningHashes.{HoldsAll};
ghost use Rattle.droid_tree.specs.Heard.{TookBytes};
ghost use Rattle.droid_tree.specs.Observation.{GoesOver, Read};
ghost use Rattle.droid_tree.specs.Reading.{IsPastEnd, IsShort, ReadsPiece, StopsAt};
ghost use Rattle.droid_upload.specs.Calls.{Failed, Sent};
ghost use Rattle.droid_upload.specs.Deeds.{Called, Does, Informed};
ghost use Rattle.droid_upload.specs.Faults.{fault_of_client, is_countable};
ghost use Rattle.droid_upload.specs.Fronts.{EndsEarly, Stands};
ghost use Rattle.droid_upload.specs.Steps.{ArePart, ArePassed, PassesPiece, PassesPieces, ReadsFile, Sees, SeesEnd};
ghost use Rattle.droid_upload.specs.Steps.{SendsPiece, FailsPiece, piece_head};
ghost use Rattle.droid_upload.specs.declared.client_fault.ClientFault.TheVariants as client_faults;
ghost use Rattle.droid_upload.specs.declared.file_pieces.Progress.TheVariants as progresses;
ghost use Rattle.droid_upload.specs.declared.submission_fault.SubmissionFault.TheVariants.{Memory};

use crate::client::Client;
use crate::client_fault::ClientFault;
use crate::reports::report_bytes;
use crate::submission_fault::SubmissionFault;
use crate::upload::{Destination, Upload};
use droid_frame::{Blob, Refusal, RunningHash};
use droid_tree::{FolderEntry, Skipped, Tree, Watcher, begin_of, next_len, read_piece, see_end};
use std::alloc::{AllocError, Global};

/// How many bytes stand before the piece's bytes in the body of a Piece request: profile, file and index, four bytes
/// each. `piece_head` of the definitions has them too, and the prover compares both.
const BEFORE_BYTES: usize = 12;

/// A file of a profile, and how it is sent.
#[derive(Clone, Copy)]
pub(crate) struct Target {
    /// The folder that has the file.
    pub into: Destination,
    /// The number of the file.
    pub number: u32,
    /// The first piece that the service lacks.
    pub first: u32,
}

/// The outcome of reading and sending.
#[derive(Clone, Copy)]
pub(crate) enum Progress {
    /// All was read, and sent unless the service has it.
    Done,
    /// The file could not be read any further.
    Stopped(Skipped),
    /// A piece was refused, since the service has other bytes.
    Changed,
}

/// Reads a whole file piece by piece, adds its bytes to the hash `running`, sends the pieces from `to.first` on, and
/// sees that the file has no more bytes. After an error nothing is promised of `running`.
pub(crate) fn read_file<T: Tree, C: Client, W: Watcher>(
    upload: &mut Upload<T, C, W>,
    to: Target,
    path: &str,
    entry: &FolderEntry,
    running: &mut RunningHash,
) -> Result<Progress, SubmissionFault>
    requires { is_countable to.into.piece_size entry.now.len ≡ true }
    ensures read { IfOk result (λ progress.
        ReadsFile to path.now entry.now (Does T.observes C.calls W.hears) progress running.old running.new upload.old
        upload.new) }
    ensures ended { IfErr result (λ fault.
        EndsEarly (Does T.observes C.calls W.hears) (ArePart to path.now entry.now) fault upload.old upload.new) }
{
    match pass_pieces(upload, to, path, entry, running)? {
        Progress::Done => {
            let progress = see_last(upload, path, entry)?;
            Ok(progress)
        }
        Progress::Stopped(why) => Ok(Progress::Stopped(why)),
        Progress::Changed => Ok(Progress::Changed),
    }
}

/// Reads all pieces of a file, and sends those from `to.first` on, until one stops it. Does not see whether the file
/// has more bytes.
fn pass_pieces<T: Tree, C: Client, W: Watcher>(
    upload: &mut Upload<T, C, W>,
    to: Target,
    path: &str,
    entry: &FolderEntry,
    running: &mut RunningHash,
) -> Result<Progress, SubmissionFault>
    requires { is_countable to.into.piece_size entry.now.len ≡ true }
    ensures passed { IfOk result (λ progress.
        PassesPieces to path.now entry.now (Does T.observes C.calls W.hears) progress running.old running.new upload.old
        upload.new) }
    ensures ended { IfErr result (λ fault.
        EndsEarly (Does T.observes C.calls W.hears) (ArePart to path.now entry.now) fault upload.old upload.new) }
{
    for index in 0..u32::MAX {
        if begin_of(to.into.piece_size, entry.len, index) == entry.len {
            return Ok(Progress::Done);
        }
        match pass_piece(upload, to, path, entry, index, running)? {
            Progress::Done => {}
            Progress::Stopped(why) => return Ok(Progress::Stopped(why)),
            Progress::Changed => return Ok(Progress::Changed),
        }
    }
    // No file has more pieces: this one can be counted (`requires`).
    Ok(Progress::Done)
}

/// Reads the piece `index`, adds it to the hash, and sends it unless the service has it. The piece's bytes exist once
/// in memory: in the body of the request.
fn pass_piece<T: Tree, C: Client, W: Watcher>(
    upload: &mut Upload<T, C, W>,
    to: Target,
    path: &str,
    entry: &FolderEntry,
    index: u32,
    running: &mut RunningHash,
) -> Result<Progress, SubmissionFault>
    ensures passed { IfOk result (λ progress.
        PassesPiece to path.now entry.now (Does T.observes C.calls W.hears) index progress running.old running.new
        upload.old upload.new) }
    ensures ended { IfErr result (λ fault.
        EndsEarly (Does T.observes C.calls W.hears) (ArePassed to path.now entry.now index) fault upload.old
        upload.new) }
{
    let from = begin_of(to.into.piece_size, entry.len, index);
    let wanted = next_len(entry.len, from, to.into.piece_size);
    let mut body = begun_body(upload.alloc, to.into.profile, to.number, index, wanted)?;
    match read_next(upload, path, entry, from, wanted, &mut body)? {
        Ok(()) => {
            running.update(bytes_in(body.as_slice()));
            if index < to.first {
                return Ok(Progress::Done);
            }
            let progress = send_piece(upload, to, path, index, wanted, body)?;
            Ok(progress)
        }
        Err(why) => Ok(Progress::Stopped(why)),
    }
}

/// Appends the `wanted` bytes of a file from offset `from` to `body`. The inner error says why they did not come; the
/// outer one is always `Memory`.
fn read_next<T: Tree, C: Client, W: Watcher>(
    upload: &mut Upload<T, C, W>,
    path: &str,
    entry: &FolderEntry,
    from: u64,
    wanted: u32,
    body: &mut Vec<u8>,
) -> Result<Result<(), Skipped>, SubmissionFault>
    ensures read { IfOk result (λ read. MatchResult read
        (λ _.
        ReadsPiece (Sees (Does T.observes C.calls W.hears)) path.now entry.now from wanted body.old.items body.new.items
        upload.old upload.new)
        (λ why.
        StopsAt (Sees (Does T.observes C.calls W.hears)) (IsShort wanted) path.now entry.now from why upload.old
        upload.new)) }
    ensures memory { IfErr result (λ fault. fault ≡ Memory) }
    ensures stands { OnErr result (Stands Memory upload.old upload.new) }
{
    match read_piece(&mut upload.tree, path, entry, from, wanted, body) {
        Ok(read) => Ok(read),
        Err(_memory) => Err(SubmissionFault::Memory),
    }
}

/// Checks that a file has no bytes behind those that its folder lists. Returns `Done` or `Stopped`, never `Changed`:
/// nothing is sent.
pub(crate) fn see_last<T: Tree, C: Client, W: Watcher>(
    upload: &mut Upload<T, C, W>,
    path: &str,
    entry: &FolderEntry,
) -> Result<Progress, SubmissionFault>
    ensures seen { IfOk result (λ progress.
        SeesEnd path.now entry.now (Does T.observes C.calls W.hears) progress upload.old upload.new) }
    ensures memory { IfErr result (λ fault. fault ≡ Memory) }
    ensures stands { OnErr result (Stands Memory upload.old upload.new) }
{
    match see_end(
        upload.alloc,
        &mut upload.tree,
        path,
        entry,
        entry.len,
        entry.len,
    ) {
        Ok(Ok(())) => Ok(Progress::Done),
        Ok(Err(why)) => Ok(Progress::Stopped(why)),
        Err(_memory) => Err(SubmissionFault::Memory),
    }
}

/// Sends the piece `index`, of `wanted` bytes, and reports that to the watcher. `body` is that of the request, with the
/// piece's bytes in it. Returns `Changed` if the client says that a piece, this or an earlier one, was refused since
/// the service has other bytes.
fn send_piece<T: Tree, C: Client, W: Watcher>(
    upload: &mut Upload<T, C, W>,
    to: Target,
    path: &str,
    index: u32,
    wanted: u32,
    body: Vec<u8>,
) -> Result<Progress, SubmissionFault>
    requires counted { length body.items ≡ 12 + wanted }
    requires spelled { IsU32 to.into.profile × IsU32 to.number × IsU32 index }
    ensures sent { IfOk result (λ progress.
        (bytes : List ℕ) → body.items ≡ piece_head to.into.profile to.number index ++ bytes
        → SendsPiece (Does T.observes C.calls W.hears) to index path.now bytes progress upload.old upload.new) }
    ensures failed { IfErr result (λ fault.
        (bytes : List ℕ) → body.items ≡ piece_head to.into.profile to.number index ++ bytes
        → FailsPiece (Does T.observes C.calls W.hears) to index bytes fault upload.old upload.new) }
{
    let body = whole_body(body);
    match upload.client.send(body) {
        Ok(()) => {
            report_bytes(upload, path, wanted);
            Ok(Progress::Done)
        }
        Err(why) => {
            let changed = changed_by(why)?;
            Ok(changed)
        }
    }
}

/// Returns `Changed` if a piece was refused since the service has other bytes. Every other reason ends the submission.
fn changed_by(why: ClientFault) -> Result<Progress, SubmissionFault>
    ensures changed { IfOk result (λ progress.
        (progress ≡ progresses.Changed) × (why ≡ client_faults.Piece refusals.NumberReused)) }
    ensures fault { IfErr result (λ fault.
        (fault ≡ fault_of_client why) × (why ≢ client_faults.Piece refusals.NumberReused)) }
{
    if why == ClientFault::Piece(Refusal::NumberReused) {
        return Ok(Progress::Changed);
    }
    Err(SubmissionFault::from(why))
}

/// Returns the bytes of the piece in the body of its request: all behind the first 12.
fn bytes_in(body: &[u8]) -> &[u8]
    requires { 12 ≤ length body.now }
    ensures { result.now ≡ drop 12 body.now }
{
    &body[BEFORE_BYTES..]
}

/// Returns the body as a `Blob`, which the client sends. The clause `bytes` is what the contract of the client asks.
fn whole_body(body: Vec<u8>) -> Blob
    ensures same { result ≡ body.items }
    ensures bytes { IsBytes result }
{
    let blob = Blob::from(body);
    // The prover learns from this call that they are bytes.
    let _bytes = blob.as_slice();
    blob
}

/// Returns the start of a Piece request's body, with capacity for the `wanted` bytes of the piece. The numbers are
/// written in four bytes each, the highest first.
fn begun_body(
    alloc: Global,
    profile: u32,
    number: u32,
    index: u32,
    wanted: u32,
) -> Result<Vec<u8>, AllocError>
    ensures begun { IfOk result (λ body. body.items ≡ piece_head profile number index) }
    ensures spelled { IsU32 profile × IsU32 number × IsU32 index }
{
    let mut body = Vec::with_capacity(alloc, BEFORE_BYTES + wanted as usize)?;
    body.extend_from_slice(&profile.to_be_bytes())?;
    body.extend_from_slice(&number.to_be_bytes())?;
    body.extend_from_slice(&index.to_be_bytes())?;
    Ok(body)
}
