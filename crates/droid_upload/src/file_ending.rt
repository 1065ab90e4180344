//! Ends a file that was begun: finishes it, or abandons it.

ghost use Rattle.std.specs.Prelude.{◌≡◌, ◌≢◌, ◌∷◌, [], false, true, IfErr, IfOk, MatchOption, OnOk};
ghost use Rattle.droid_frame.specs.declared.refusal.Refusal.TheVariants as refusals;
ghost use Rattle.droid_frame.specs.declared.reply.Reply.{Reply};
ghost use Rattle.droid_frame.specs.declared.reply.Reply.TheVariants as replies;
ghost use Rattle.droid_frame.specs.declared.request.Request.TheVariants as requests;
ghost use Rattle.droid_upload.specs.Calls.{Answered, Failed};
ghost use Rattle.droid_upload.specs.Deeds.{Called, Does};
ghost use Rattle.droid_upload.specs.Faults.{IsAfterCall, IsAfterRead, fault_of_reply, is_finished, is_left};
ghost use Rattle.droid_upload.specs.Fronts.{AreJust, EndsEarly};
ghost use Rattle.droid_upload.specs.Steps.{AreChanged, AreDropping, AreFinishing, Drops, EndsAfter, Finishes, Leaves};
ghost use Rattle.droid_upload.specs.declared.client_fault.ClientFault.TheVariants as client_faults;
ghost use Rattle.droid_upload.specs.declared.submission_fault.SubmissionFault.TheVariants as faults;

use crate::client::Client;
use crate::reports::{report_end, report_skipped};
use crate::submission_fault::{SubmissionFault, fault_of_refusal};
use crate::upload::{Upload, Uploaded};
use crate::upload_requests::ask;
use droid_frame::{HashValue, Refusal, Reply, Request};
use droid_tree::{Skipped, Tree, Watcher};

/// Finishes a file of which all was read and sent, and compares its hash with `read`, that of the bytes that were read.
/// If a piece was refused, since the service has other bytes, abandons the file.
pub(crate) fn finish_file<T: Tree, C: Client, W: Watcher>(
    upload: &mut Upload<T, C, W>,
    profile: u32,
    number: u32,
    path: &str,
    read: HashValue,
) -> Result<Uploaded, SubmissionFault>
    ensures finished { IfOk result (λ uploaded.
        Finishes profile number path.now (Does T.observes C.calls W.hears) read uploaded upload.old upload.new) }
    ensures ended { IfErr result (λ fault.
        EndsAfter (Does T.observes C.calls W.hears) IsAfterRead (AreFinishing profile number path.now read) fault
        upload.old upload.new) }
{
    match finish(upload, profile, number)? {
        Some(found) => Ok(report_end(upload, path, number, true, read, &found)),
        None => {
            let uploaded = leave_changed(upload, profile, number, path)?;
            Ok(uploaded)
        }
    }
}

/// Abandons a file whose reading ended early, for the reason `why`, which the watcher gets. It gets NumberReused
/// instead if the service has other bytes.
pub(crate) fn drop_file<T: Tree, C: Client, W: Watcher>(
    upload: &mut Upload<T, C, W>,
    profile: u32,
    number: u32,
    path: &str,
    why: Skipped,
) -> Result<Uploaded, SubmissionFault>
    ensures dropped { IfOk result (λ uploaded.
        Drops profile number path.now (Does T.observes C.calls W.hears) why uploaded upload.old upload.new) }
    ensures ended { IfErr result (λ fault.
        EndsEarly (Does T.observes C.calls W.hears) (AreDropping profile number path.now why) fault upload.old
        upload.new) }
{
    let abandoned = abandon(upload, profile, number)?;
    if abandoned {
        report_skipped(upload, path, why);
        return Ok(Uploaded::Skipped);
    }
    let uploaded = leave_changed(upload, profile, number, path)?;
    Ok(uploaded)
}

/// Abandons a file of which the service has other bytes, after a call that said so, and reports it as refused with
/// NumberReused. A second such refusal ends the submission.
pub(crate) fn leave_changed<T: Tree, C: Client, W: Watcher>(
    upload: &mut Upload<T, C, W>,
    profile: u32,
    number: u32,
    path: &str,
) -> Result<Uploaded, SubmissionFault>
    ensures left { IfOk result (λ uploaded.
        Leaves profile number path.now (Does T.observes C.calls W.hears) uploaded upload.old upload.new) }
    ensures ended { IfErr result (λ fault.
        EndsAfter (Does T.observes C.calls W.hears) IsAfterCall (AreChanged profile number path.now) fault upload.old
        upload.new) }
{
    let reply = ask(
        upload,
        0,
        &Request::Abandon {
            profile,
            file: number,
        },
    )?;
    see_left(reply)?;
    report_skipped(upload, path, Skipped::Refused(Refusal::NumberReused));
    Ok(Uploaded::Skipped)
}

/// Sends Finish behind the last read and returns the reply, which is Finished, or `None` if a piece was refused since
/// the service has other bytes. Any other reply is a fault.
fn finish<T: Tree, C: Client, W: Watcher>(
    upload: &mut Upload<T, C, W>,
    profile: u32,
    number: u32,
) -> Result<Option<Reply>, SubmissionFault>
    ensures finished { IfOk result (λ finished. MatchOption finished
        (Does T.observes C.calls W.hears upload.old
        (Called (Failed 0 (requests.Finish profile number) (client_faults.Piece refusals.NumberReused))) upload.new)
        (λ found.
        (is_finished found ≡ true)
        × Does T.observes C.calls W.hears upload.old (Called (Answered 0 (requests.Finish profile number) found))
        upload.new)) }
    ensures ended { IfErr result (λ fault. (expected : Reply) →
        EndsAfter (Does T.observes C.calls W.hears) IsAfterRead
        (AreJust (Called (Answered 0 (requests.Finish profile number) expected) ∷ [])) fault upload.old upload.new) }
{
    let request = Request::Finish {
        profile,
        file: number,
    };
    match ask(upload, 0, &request) {
        Ok(reply) => {
            let found = see_finished(reply)?;
            Ok(Some(found))
        }
        Err(fault) => {
            see_reused(fault)?;
            Ok(None)
        }
    }
}

/// Sends Abandon behind the last read. Returns `true` if no unfinished file is left, and `false` if a piece was refused
/// since the service has other bytes.
fn abandon<T: Tree, C: Client, W: Watcher>(
    upload: &mut Upload<T, C, W>,
    profile: u32,
    number: u32,
) -> Result<bool, SubmissionFault>
    ensures abandoned { IfOk result (λ abandoned. abandoned ≡ true →
        ((left : Reply) × (is_left left ≡ true)
        × Does T.observes C.calls W.hears upload.old (Called (Answered 0 (requests.Abandon profile number) left))
        upload.new)) }
    ensures changed { IfOk result (λ abandoned. abandoned ≡ false →
        Does T.observes C.calls W.hears upload.old
        (Called (Failed 0 (requests.Abandon profile number) (client_faults.Piece refusals.NumberReused))) upload.new) }
    ensures ended { IfErr result (λ fault. (expected : Reply) →
        EndsEarly (Does T.observes C.calls W.hears)
        (AreJust (Called (Answered 0 (requests.Abandon profile number) expected) ∷ [])) fault upload.old upload.new) }
{
    let request = Request::Abandon {
        profile,
        file: number,
    };
    match ask(upload, 0, &request) {
        Ok(reply) => {
            see_left(reply)?;
            Ok(true)
        }
        Err(fault) => {
            see_reused(fault)?;
            Ok(false)
        }
    }
}

/// Returns the reply if it is Finished. A refusal ends the submission with its fault, any other reply with `Reply`.
fn see_finished(reply: Reply) -> Result<Reply, SubmissionFault>
    ensures finished { IfOk result (λ found. (found ≡ reply) × (is_finished reply ≡ true)) }
    ensures fault { IfErr result (λ fault. (fault ≡ fault_of_reply reply) × (is_finished reply ≡ false)) }
{
    match reply {
        Reply::Finished {
            method,
            mismatch,
            hash,
            puids,
        } => Ok(Reply::Finished {
            method,
            mismatch,
            hash,
            puids,
        }),
        Reply::Refused(refusal) => Err(fault_of_refusal(refusal)),
        _ => Err(SubmissionFault::Reply),
    }
}

/// Checks the reply to Abandon: the file was abandoned, or was so before, or is finished. Any other reply ends the
/// submission.
fn see_left(reply: Reply) -> Result<(), SubmissionFault>
    ensures left { OnOk result (is_left reply ≡ true) }
    ensures fault { IfErr result (λ fault. (fault ≡ fault_of_reply reply) × (is_left reply ≡ false)) }
{
    match reply {
        Reply::Abandoned => Ok(()),
        Reply::Refused(refusal) => {
            if leaves(refusal) {
                return Ok(());
            }
            Err(fault_of_refusal(refusal))
        }
        _ => Err(SubmissionFault::Reply),
    }
}

/// Returns whether an Abandon that is refused for this reason leaves no unfinished file: it was abandoned before, or is
/// finished.
fn leaves(refusal: Refusal) -> bool
    ensures { result ≡ is_left (replies.Refused refusal) }
{
    match refusal {
        Refusal::NoSuchNode => true,
        Refusal::AlreadyFinished => true,
        _ => false,
    }
}

/// Checks that a request failed since a piece was refused with NumberReused. Every other fault is returned, and ends
/// the submission.
fn see_reused(fault: SubmissionFault) -> Result<(), SubmissionFault>
    ensures reused { OnOk result (fault ≡ faults.Refused refusals.NumberReused) }
    ensures other { IfErr result (λ other. (other ≡ fault) × (fault ≢ faults.Refused refusals.NumberReused)) }
{
    if fault == SubmissionFault::Refused(Refusal::NumberReused) {
        return Ok(());
    }
    Err(fault)
}
