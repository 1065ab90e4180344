//! Ends a file that was finished before: checks it if that is asked for, and reports it.

ghost use Rattle.std.specs.Prelude.{◌≡◌, true, IfErr, IfOk};
ghost use Rattle.droid_upload.specs.Deeds.{Does};
ghost use Rattle.droid_upload.specs.Faults.{is_countable};
ghost use Rattle.droid_upload.specs.FileOutcomes.{hash_of_held, is_checked};
ghost use Rattle.droid_upload.specs.Fronts.{EndsEarly};
ghost use Rattle.droid_upload.specs.Steps.{AreHeld, EndsHeld};

use crate::client::Client;
use crate::file_pieces::{Progress, Target, read_file};
use crate::reports::{report_end, report_held, report_skipped};
use crate::submission_fault::SubmissionFault;
use crate::upload::{Destination, Upload, Uploaded};
use droid_frame::{HashKind, HashValue, Reply, RunningHash};
use droid_tree::{FolderEntry, Tree, Watcher};

/// Ends a file that was finished before with the reply `found`. Reads it first if it is to be checked. Sends nothing.
/// `is_read` is then true of a file that was read, or is empty.
pub(crate) fn end_held<T: Tree, C: Client, W: Watcher>(
    upload: &mut Upload<T, C, W>,
    into: Destination,
    path: &str,
    entry: &FolderEntry,
    number: u32,
    found: &Reply,
) -> Result<Uploaded, SubmissionFault>
    requires { is_countable into.piece_size entry.now.len ≡ true }
    ensures held { IfOk result (λ uploaded.
        EndsHeld into path.now entry.now number found.now (Does T.observes C.calls W.hears) uploaded upload.old
        upload.new) }
    ensures ended { IfErr result (λ fault.
        EndsEarly (Does T.observes C.calls W.hears) (AreHeld into path.now entry.now number found.now) fault upload.old
        upload.new) }
{
    if is_checked(into, entry) {
        let uploaded = check_held(upload, into, path, entry, number, found)?;
        return Ok(uploaded);
    }
    let read = hash_of_held(into.hash, entry.len);
    Ok(report_end(upload, path, number, entry.len == 0, read, found))
}

/// Reads a file that was finished before, and compares its hash with that of `found`. Skips it if it cannot be read.
fn check_held<T: Tree, C: Client, W: Watcher>(
    upload: &mut Upload<T, C, W>,
    into: Destination,
    path: &str,
    entry: &FolderEntry,
    number: u32,
    found: &Reply,
) -> Result<Uploaded, SubmissionFault>
    requires countable { is_countable into.piece_size entry.now.len ≡ true }
    requires checked { is_checked into entry.now ≡ true }
    ensures held { IfOk result (λ uploaded.
        EndsHeld into path.now entry.now number found.now (Does T.observes C.calls W.hears) uploaded upload.old
        upload.new) }
    ensures ended { IfErr result (λ fault.
        EndsEarly (Does T.observes C.calls W.hears) (AreHeld into path.now entry.now number found.now) fault upload.old
        upload.new) }
{
    report_held(upload, path, entry.len);
    let to = Target {
        into,
        number,
        first: u32::MAX,
    };
    let mut running = RunningHash::of(into.hash);
    match read_file(upload, to, path, entry, &mut running)? {
        Progress::Done => {
            let read = running.finish();
            Ok(report_end(upload, path, number, true, read, found))
        }
        Progress::Stopped(why) => {
            report_skipped(upload, path, why);
            Ok(Uploaded::Skipped)
        }
        // No piece has this index, so none was sent.
        Progress::Changed => unreachable!(),
    }
}

/// Returns whether a file that was finished before is read again: where that is asked for, and it has bytes.
fn is_checked(into: Destination, entry: &FolderEntry) -> bool
    ensures { result ≡ is_checked into entry.now }
{
    into.check && entry.len != 0
}

/// Returns the hash of a file that was not read again: that of no bytes if it is empty, and otherwise `Nothing`, which
/// is compared with no other.
fn hash_of_held(kind: HashKind, size: u64) -> HashValue
    ensures { result ≡ hash_of_held kind size }
{
    if size == 0 {
        return RunningHash::of(kind).finish();
    }
    HashValue::Nothing
}
