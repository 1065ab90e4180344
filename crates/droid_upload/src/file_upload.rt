//! Sends one file: adds it, sends what the service lacks of it, and ends it.

ghost use Rattle.std.specs.Prelude.{◌≡◌, true, IfErr, IfOk, MatchResult, OnErr};
ghost use Rattle.droid_tree.specs.Observation.{GoesOver};
ghost use Rattle.droid_upload.specs.Deeds.{Does};
ghost use Rattle.droid_upload.specs.Faults.{is_countable};
ghost use Rattle.droid_upload.specs.FileOutcomes.{AreOfFile, Uploads, empty_deeds};
ghost use Rattle.droid_upload.specs.Fronts.{EndsEarly, Stands};
ghost use Rattle.droid_upload.specs.Steps.{AreAdded, AreRest, Adds, SendsRest, StopsEmpty};
ghost use Rattle.droid_upload.specs.declared.submission_fault.SubmissionFault.TheVariants.{Memory};

use crate::client::Client;
use crate::file_ending::{drop_file, finish_file, leave_changed};
use crate::file_opening::{Opened, open_file};
use crate::file_pieces::{Progress, Target, read_file, see_last};
use crate::reports::{report_held, report_skipped};
use crate::submission_fault::SubmissionFault;
use crate::upload::{Destination, Upload, Uploaded};
use droid_frame::RunningHash;
use droid_tree::{FolderEntry, Skipped, Tree, Watcher, begin_of};

/// Sends one file of a folder and returns its outcome; if it was skipped, the watcher is informed why. `path` is the
/// file's path, and `entry` the file as its folder listed it, of which `name` is the name.
///
/// A file that was finished in an earlier run is read only if `into.check` asks for it, and nothing of it is sent. Of
/// an unfinished one all bytes are read, for the hash, and the pieces from the first missing one on are sent.
pub fn upload_file<T: Tree, C: Client, W: Watcher>(
    upload: &mut Upload<T, C, W>,
    into: Destination,
    path: &str,
    name: &str,
    entry: &FolderEntry,
) -> Result<Uploaded, SubmissionFault>
    requires { name.now ≡ entry.now.name }
    // What was read, asked and reported is exactly that of the file's outcome.
    ensures came { IfOk result (λ uploaded.
        Uploads (Does T.observes C.calls W.hears) into path.now entry.now uploaded upload.old upload.new) }
    // It is the first part of that if the call ends early, and the fault says why.
    ensures ended { IfErr result (λ fault.
        EndsEarly (Does T.observes C.calls W.hears) (AreOfFile into path.now entry.now) fault upload.old upload.new) }
{
    match see_empty(upload, path, entry)? {
        Ok(()) => {
            let uploaded = add_file(upload, into, path, name, entry)?;
            Ok(uploaded)
        }
        Err(why) => {
            report_skipped(upload, path, why);
            Ok(Uploaded::Skipped)
        }
    }
}

/// Reads the end of an empty file, before it is added: the first Finish would finish it. Does nothing for other files.
/// The inner error says why the end could not be seen.
fn see_empty<T: Tree, C: Client, W: Watcher>(
    upload: &mut Upload<T, C, W>,
    path: &str,
    entry: &FolderEntry,
) -> Result<Result<(), Skipped>, SubmissionFault>
    ensures seen { IfOk result (λ seen. MatchResult seen
        (λ _. GoesOver (Does T.observes C.calls W.hears) upload.old (empty_deeds path.now entry.now) upload.new)
        (λ why. StopsEmpty path.now entry.now (Does T.observes C.calls W.hears) why upload.old upload.new)) }
    ensures memory { IfErr result (λ fault. fault ≡ Memory) }
    ensures stands { OnErr result (Stands Memory upload.old upload.new) }
{
    if entry.len != 0 {
        return Ok(Ok(()));
    }
    match see_last(upload, path, entry)? {
        Progress::Stopped(why) => Ok(Err(why)),
        _ => Ok(Ok(())),
    }
}

/// Adds a file and sends what the service lacks of it. The end of an empty file was seen before.
fn add_file<T: Tree, C: Client, W: Watcher>(
    upload: &mut Upload<T, C, W>,
    into: Destination,
    path: &str,
    name: &str,
    entry: &FolderEntry,
) -> Result<Uploaded, SubmissionFault>
    requires { name.now ≡ entry.now.name }
    ensures added { IfOk result (λ uploaded.
        Adds into path.now entry.now (Does T.observes C.calls W.hears) uploaded upload.old upload.new) }
    ensures ended { IfErr result (λ fault.
        EndsEarly (Does T.observes C.calls W.hears) (AreAdded into path.now entry.now) fault upload.old upload.new) }
{
    match open_file(upload, into, path, name, entry)? {
        Opened::Ended(uploaded) => Ok(uploaded),
        Opened::Begun { number, first } => {
            let to = Target {
                into,
                number,
                first,
            };
            let uploaded = send_rest(upload, to, path, entry)?;
            Ok(uploaded)
        }
    }
}

/// Reads a file of which the service lacks the piece `to.first`, sends its pieces from that one on, and finishes or
/// abandons it.
fn send_rest<T: Tree, C: Client, W: Watcher>(
    upload: &mut Upload<T, C, W>,
    to: Target,
    path: &str,
    entry: &FolderEntry,
) -> Result<Uploaded, SubmissionFault>
    requires { is_countable to.into.piece_size entry.now.len ≡ true }
    ensures sent { IfOk result (λ uploaded.
        SendsRest to.into path.now entry.now to.number to.first (Does T.observes C.calls W.hears) uploaded upload.old
        upload.new) }
    ensures ended { IfErr result (λ fault.
        EndsEarly (Does T.observes C.calls W.hears) (AreRest to.into path.now entry.now to.number to.first) fault
        upload.old upload.new) }
{
    report_held(
        upload,
        path,
        begin_of(to.into.piece_size, entry.len, to.first),
    );
    let mut running = RunningHash::of(to.into.hash);
    match read_file(upload, to, path, entry, &mut running)? {
        Progress::Done => {
            let read = running.finish();
            let uploaded = finish_file(upload, to.into.profile, to.number, path, read)?;
            Ok(uploaded)
        }
        Progress::Stopped(why) => {
            let uploaded = drop_file(upload, to.into.profile, to.number, path, why)?;
            Ok(uploaded)
        }
        Progress::Changed => {
            let uploaded = leave_changed(upload, to.into.profile, to.number, path)?;
            Ok(uploaded)
        }
    }
}
