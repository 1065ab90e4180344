//! Adds a file to a profile, and finds what the service has of it.

ghost use Rattle.std.specs.Prelude.{◌≡◌, ◌≢◌, false, true, IfErr, IfNone, IfOk};
ghost use Rattle.droid_upload.specs.Deeds.{Does};
ghost use Rattle.droid_upload.specs.Faults.{fault_of_reply, is_countable, is_finished, is_open};
ghost use Rattle.droid_upload.specs.FileOutcomes.{file_request};
ghost use Rattle.droid_upload.specs.Fronts.{EndsEarly};
ghost use Rattle.droid_upload.specs.Steps.{AfterAdd, AreOpening, AreOpenings, IsNodeState, OpensFile, OpensNode};

use crate::client::Client;
use crate::held_file::end_held;
use crate::reports::report_skipped;
use crate::submission_fault::{SubmissionFault, fault_of_refusal};
use crate::upload::{Destination, Upload, Uploaded};
use crate::upload_requests::{ask, node_of};
use droid_frame::{Refusal, Reply, Request, Text};
use droid_tree::{FolderEntry, Skipped, Tree, Watcher};

/// How often a file is added at most, under the attempts from 0 on. The last one is 4294967294 in the clauses, and the
/// prover compares both.
const ATTEMPTS: u32 = u32::MAX;

/// What the service has of a file.
#[derive(Clone, Copy)]
pub(crate) enum Opened {
    /// It refused the file, or had finished it before.
    Ended(Uploaded),
    /// It lacks a piece.
    Begun {
        /// The number of the file.
        number: u32,
        /// The first piece that it lacks.
        first: u32,
    },
}

/// What a reply to the first Finish of a file says.
#[derive(Clone, Copy)]
pub(crate) enum NodeState {
    /// The file is finished.
    Finished,
    /// It was abandoned.
    Gone,
    /// It lacks this piece.
    Lacks(u32),
}

/// Adds the file `name` to the folder `into`, and finds what the service has of it. If its node was abandoned before,
/// adds it again, under the next attempt.
pub(crate) fn open_file<T: Tree, C: Client, W: Watcher>(
    upload: &mut Upload<T, C, W>,
    into: Destination,
    path: &str,
    name: &str,
    entry: &FolderEntry,
) -> Result<Opened, SubmissionFault>
    requires { name.now ≡ entry.now.name }
    ensures opened { IfOk result (λ opened.
        OpensFile into path.now entry.now (Does T.observes C.calls W.hears) opened upload.old upload.new) }
    ensures ended { IfErr result (λ fault.
        EndsEarly (Does T.observes C.calls W.hears) (AreOpenings into path.now entry.now) fault upload.old upload.new) }
{
    let request = Request::AddFile {
        profile: into.profile,
        parent: into.folder,
        modified: entry.modified,
        size: entry.len,
        piece_size: into.piece_size,
        name: Text::copy_of(upload.alloc, name)?,
    };
    let opened = add_again(upload, into, path, entry, &request)?;
    Ok(opened)
}

/// Adds a file under one attempt after the other, from 0 on, until its node was not abandoned before. `request` is its
/// AddFile.
fn add_again<T: Tree, C: Client, W: Watcher>(
    upload: &mut Upload<T, C, W>,
    into: Destination,
    path: &str,
    entry: &FolderEntry,
    request: &Request,
) -> Result<Opened, SubmissionFault>
    requires { request.now ≡ file_request into entry.now }
    ensures opened { IfOk result (λ opened.
        OpensFile into path.now entry.now (Does T.observes C.calls W.hears) opened upload.old upload.new) }
    ensures ended { IfErr result (λ fault.
        EndsEarly (Does T.observes C.calls W.hears) (AreOpenings into path.now entry.now) fault upload.old upload.new) }
{
    for attempt in 0..ATTEMPTS {
        match open_node(upload, into, path, entry, attempt, request)? {
            Some(opened) => return Ok(opened),
            None => {}
        }
    }
    Err(SubmissionFault::Refused(Refusal::NoSuchNode))
}

/// Adds a file under one attempt. Returns `None` if its node was abandoned before; at the last attempt that is a fault.
/// A refusal that skips the file is no fault: the watcher is informed.
fn open_node<T: Tree, C: Client, W: Watcher>(
    upload: &mut Upload<T, C, W>,
    into: Destination,
    path: &str,
    entry: &FolderEntry,
    attempt: u32,
    request: &Request,
) -> Result<Option<Opened>, SubmissionFault>
    requires { request.now ≡ file_request into entry.now }
    ensures opened { IfOk result (λ opened.
        OpensNode into path.now entry.now (Does T.observes C.calls W.hears) attempt opened upload.old upload.new) }
    ensures again { IfOk result (λ opened. IfNone opened (attempt ≢ 4294967294)) }
    ensures ended { IfErr result (λ fault.
        EndsEarly (Does T.observes C.calls W.hears) (AreOpening into path.now entry.now attempt) fault upload.old
        upload.new) }
{
    let reply = ask(upload, attempt, request)?;
    match node_of(reply, is_countable(into.piece_size, entry.len))? {
        Ok(number) => {
            let opened = see_node(upload, into, path, entry, attempt, number)?;
            Ok(opened)
        }
        Err(refusal) => {
            report_skipped(upload, path, Skipped::Refused(refusal));
            Ok(Some(Opened::Ended(Uploaded::Skipped)))
        }
    }
}

/// Returns whether the indexes of a file's pieces are below 2^32 - 1, so that the `u32::MAX` of `check_held` is behind
/// them all. A file with more can't be sent, and a service that takes it sent a wrong reply.
fn is_countable(piece_size: u32, size: u64) -> bool
    ensures { result ≡ is_countable piece_size size }
{
    size <= u64::from(u32::MAX) * u64::from(piece_size)
}

/// Sends the first Finish of the file `number`, which was just added under `attempt`: the reply says what the service
/// has of it. Returns `None` if its node was abandoned before. A file that lacks no piece, as an empty one, is finished
/// by it.
fn see_node<T: Tree, C: Client, W: Watcher>(
    upload: &mut Upload<T, C, W>,
    into: Destination,
    path: &str,
    entry: &FolderEntry,
    attempt: u32,
    number: u32,
) -> Result<Option<Opened>, SubmissionFault>
    requires { is_countable into.piece_size entry.now.len ≡ true }
    ensures opened { IfOk result (λ opened. AfterAdd (Does T.observes C.calls W.hears) into entry.now attempt number
        (OpensNode into path.now entry.now (Does T.observes C.calls W.hears) attempt opened) upload.old upload.new) }
    ensures again { IfOk result (λ opened. IfNone opened (attempt ≢ 4294967294)) }
    ensures ended { IfErr result (λ fault. AfterAdd (Does T.observes C.calls W.hears) into entry.now attempt number
        (EndsEarly (Does T.observes C.calls W.hears) (AreOpening into path.now entry.now attempt) fault) upload.old
        upload.new) }
{
    let reply = ask(
        upload,
        0,
        &Request::Finish {
            profile: into.profile,
            file: number,
        },
    )?;
    match state_of(&reply)? {
        NodeState::Finished => {
            let uploaded = end_held(upload, into, path, entry, number, &reply)?;
            Ok(Some(Opened::Ended(uploaded)))
        }
        NodeState::Gone => {
            if attempt == ATTEMPTS - 1 {
                return Err(SubmissionFault::Refused(Refusal::NoSuchNode));
            }
            Ok(None)
        }
        NodeState::Lacks(first) => Ok(Some(Opened::Begun { number, first })),
    }
}

/// Returns what the reply to the first Finish of a file says: Finished, NoSuchNode or Incomplete. Any other one ends
/// the submission with its fault.
fn state_of(reply: &Reply) -> Result<NodeState, SubmissionFault>
    ensures state { IfOk result (λ state. IsNodeState reply.now state) }
    ensures fault { IfErr result (λ fault.
        (fault ≡ fault_of_reply reply.now) × (is_finished reply.now ≡ false) × (is_open reply.now ≡ false)) }
{
    match reply {
        Reply::Finished { .. } => Ok(NodeState::Finished),
        Reply::Refused(Refusal::NoSuchNode) => Ok(NodeState::Gone),
        Reply::Refused(Refusal::Incomplete { missing }) => Ok(NodeState::Lacks(*missing)),
        Reply::Refused(refusal) => Err(fault_of_refusal(*refusal)),
        _ => Err(SubmissionFault::Reply),
    }
}
