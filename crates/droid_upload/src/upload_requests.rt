//! Sends the requests of a submission, and reads the replies that make a profile, a folder or a file.

ghost use Rattle.std.specs.Prelude.{◌≡◌, false, true, IfErr, IfOk};
ghost use Rattle.droid_frame.specs.declared.reply.Reply.TheVariants as replies;
ghost use Rattle.droid_frame.specs.declared.request.Request.TheVariants as requests;
ghost use Rattle.droid_upload.specs.Calls.{Answered};
ghost use Rattle.droid_upload.specs.Deeds.{Called, Does};
ghost use Rattle.droid_upload.specs.Faults.{fault_of_reply, goes_on, is_made, is_node, reply_of_node, skips};
ghost use Rattle.droid_upload.specs.Fronts.{AsksInVain, EndsAsking};

use crate::client::Client;
use crate::submission_fault::{SubmissionFault, fault_of_refusal};
use crate::upload::Upload;
use droid_frame::{Frame, HashKind, Limit, Refusal, Reply, Request, Text, request_frame};
use droid_tree::{Tree, Watcher};

/// The version of the frames: version 2 has all hashes. The contract of `Client` has the number too, and the prover
/// compares both.
const VERSION: u8 = 2;

/// Sends a request and returns its reply, whatever it says. `attempt` says how often the file of an AddFile was added
/// before and found abandoned; it is 0 for other requests. Fails with `TooLong` if the request fits no frame: the
/// client is not called then.
pub fn ask<T: Tree, C: Client, W: Watcher>(
    upload: &mut Upload<T, C, W>,
    attempt: u32,
    request: &Request,
) -> Result<Reply, SubmissionFault>
    ensures answered { IfOk result (λ reply.
        Does T.observes C.calls W.hears upload.old (Called (Answered attempt request.now reply)) upload.new) }
    // No reply came: then the client was not called, or it says why.
    ensures failed { IfErr result (λ fault.
        AsksInVain (Does T.observes C.calls W.hears) attempt request.now fault upload.old upload.new) }
{
    if !request.fits(VERSION) {
        return Err(SubmissionFault::TooLong);
    }
    // The client gives the request its own client and number: only kind and body of this frame are used.
    let frame = request_frame(upload.alloc, VERSION, 0, 0, request)?;
    let Frame { kind, body, .. } = frame;
    let reply = upload.client.ask(attempt, kind, body)?;
    Ok(reply)
}

/// Returns whether a new folder or file that is refused for this reason is skipped: for its name, its path, its length
/// or its time, since another request has its number, or since the profile is full. Every other refusal ends the
/// submission.
pub fn refusal_skips(refusal: Refusal) -> bool
    ensures { result ≡ skips refusal }
{
    match refusal {
        Refusal::BadName => true,
        Refusal::PathTooLong => true,
        Refusal::TooLarge => true,
        Refusal::BadOption => true,
        Refusal::NameTaken => true,
        Refusal::NumberReused => true,
        Refusal::LimitReached(Limit::Nodes) => true,
        _ => false,
    }
}

/// Creates a profile and returns its number. `scan_limit`, `match_all` and `hash` are those of `Options`. Every refusal
/// is a fault.
pub fn create_profile<T: Tree, C: Client, W: Watcher>(
    upload: &mut Upload<T, C, W>,
    scan_limit: u32,
    match_all: bool,
    hash: HashKind,
) -> Result<u32, SubmissionFault>
    ensures made { IfOk result (λ profile. Does T.observes C.calls W.hears upload.old
        (Called (Answered 0 (requests.CreateProfile scan_limit match_all hash) (replies.Made profile))) upload.new) }
    ensures ended { IfErr result (λ fault.
        EndsAsking (Does T.observes C.calls W.hears) 0 (requests.CreateProfile scan_limit match_all hash) fault
        upload.old upload.new) }
{
    let reply = ask(
        upload,
        0,
        &Request::CreateProfile {
            scan_limit,
            match_all,
            hash,
        },
    )?;
    let profile = profile_of(reply)?;
    Ok(profile)
}

/// Returns the number of the profile that was made, or the fault of any other reply.
fn profile_of(reply: Reply) -> Result<u32, SubmissionFault>
    ensures made { IfOk result (λ profile. reply ≡ replies.Made profile) }
    ensures fault { IfErr result (λ fault. (fault ≡ fault_of_reply reply) × (is_made reply ≡ false)) }
{
    match reply {
        Reply::Made { profile } => Ok(profile),
        Reply::Refused(refusal) => Err(fault_of_refusal(refusal)),
        _ => Err(SubmissionFault::Reply),
    }
}

/// Adds a folder to the folder `parent` of a profile, 0 for the top, and returns its number, or the refusal if that
/// skips the folder. The watcher is not informed. `modified` is in seconds since 1970-01-01T00:00:00 UTC.
pub fn add_folder<T: Tree, C: Client, W: Watcher>(
    upload: &mut Upload<T, C, W>,
    profile: u32,
    parent: u32,
    modified: i64,
    name: &str,
) -> Result<Result<u32, Refusal>, SubmissionFault>
    ensures added { IfOk result (λ added. Does T.observes C.calls W.hears upload.old
        (Called (Answered 0 (requests.AddFolder profile parent modified name.now) (reply_of_node added))) upload.new) }
    ensures fits { IfOk result (λ added.
        goes_on (requests.AddFolder profile parent modified name.now) (reply_of_node added) ≡ true) }
    ensures ended { IfErr result (λ fault.
        EndsAsking (Does T.observes C.calls W.hears) 0 (requests.AddFolder profile parent modified name.now) fault
        upload.old upload.new) }
{
    let request = Request::AddFolder {
        profile,
        parent,
        modified,
        name: Text::copy_of(upload.alloc, name)?,
    };
    let reply = ask(upload, 0, &request)?;
    let added = node_of(reply, true)?;
    Ok(added)
}

/// Reads the reply to AddFolder or AddFile: returns the number of the new node, the refusal that skips it, or the
/// fault. `of_use` says whether a number is of use: that of a file with too many pieces is not, and is a wrong reply.
pub(crate) fn node_of(reply: Reply, of_use: bool) -> Result<Result<u32, Refusal>, SubmissionFault>
    ensures node { IfOk result (λ added. (reply ≡ reply_of_node added) × (is_node of_use reply ≡ true)) }
    ensures fault { IfErr result (λ fault. (fault ≡ fault_of_reply reply) × (is_node of_use reply ≡ false)) }
{
    match reply {
        Reply::Node { id } => {
            if of_use {
                return Ok(Ok(id));
            }
            Err(SubmissionFault::Reply)
        }
        Reply::Refused(refusal) => {
            if refusal_skips(refusal) {
                return Ok(Err(refusal));
            }
            Err(fault_of_refusal(refusal))
        }
        _ => Err(SubmissionFault::Reply),
    }
}
