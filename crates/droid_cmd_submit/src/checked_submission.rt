//! The whole command over any tree, connection and audience: counts, submits, reads the CSV back, compares. In clauses
//! 1073741824 is `EXPORT_LIMIT` of `droid_remote`, which says where else it stands.

ghost use Rattle.std.specs.Prelude.{◌≡◌, ◌≤◌, [], None, true, IfErr, IfOk, OnOk, length};
ghost use Rattle.droid_remote.specs.Calls.{Wherever};
ghost use Rattle.droid_cmd_submit.specs.CheckedSubmissions.{ChecksTree, EndsCommand};
ghost use Rattle.droid_cmd_submit.specs.ProfileComparisons.{Compares, EndsChecking, ReadsExport};

use crate::audience::Audience;
use crate::profile_comparison::{Compared, ComparisonFault, compare_with, read_export};
use droid_frame::HashKind;
use droid_lists::TextFault;
use droid_remote::{Connection, RemoteFault, Sender, submit};
use droid_terminal::Recorder;
use droid_tree::{Tree, WalkFault, count};
use droid_upload::{Options, Submitted, Upload};

/// Why a tree was not submitted, or its profile not compared with it.
#[derive(Clone, Copy)]
pub enum CommandFault {
    /// The tree could not be counted. Nothing was sent.
    Uncounted(WalkFault),
    /// The submission ended early.
    Unsubmitted(RemoteFault),
    /// Everything was submitted to this profile, but the profile could not be compared.
    Uncompared {
        /// The number of the profile.
        profile: u32,
        /// Why not.
        fault: ComparisonFault,
    },
}

/// Counts what is in a tree, reports that to the watcher, submits the tree, reads the CSV of the profile, and compares
/// it with the tree as it was submitted. `limit` is how many folders and files the tree may have: with more it is
/// `Uncounted`.
pub fn submit_and_check<T: Tree, C: Connection, W: Audience>(
    upload: &mut Upload<T, Sender<C>, Recorder<W>>,
    options: Options,
    limit: u64,
) -> Result<Compared, CommandFault>
    // The tree has no more folders and files than the limit. It was submitted, and then the CSV of its profile was read
    // and compared with exactly what was submitted.
    ensures checked { IfOk result (λ compared.
        ChecksTree T.observes C.does W.expects W.hears options limit compared upload.old upload.new) }
    // After a fault of the counting nothing was sent or reported. After one of the submission it stands as that says.
    // After one of the comparison the tree was submitted.
    ensures ended { IfErr result (λ fault.
        EndsCommand T.observes C.does W.expects W.hears options limit fault upload.old upload.new) }
{
    let counted = match count(upload.alloc, &mut upload.tree, limit) {
        Ok(counted) => counted,
        Err(fault) => return Err(CommandFault::Uncounted(fault)),
    };
    upload.watcher.watcher.hear_count(counted);
    let submitted = match submit(upload, options) {
        Ok(submitted) => submitted,
        Err(fault) => return Err(CommandFault::Unsubmitted(fault)),
    };
    let profile = submitted.profile;
    match check_profile(upload, submitted, options.hash) {
        Ok(compared) => Ok(compared),
        Err(fault) => Err(CommandFault::Uncompared { profile, fault }),
    }
}

/// Reads the CSV of a profile and compares it with what was submitted. `hash` is the kind of the profile's hashes.
/// Fails as [`read_export`], or as [`compare_with`], which is the fault `Unchecked`.
///
/// If the watcher had no memory for all that was skipped, that is `Unchecked` too, as if memory ran out here. It is
/// looked at behind the reading: the clause `ended` (`NotFit`) says of this fault that a CSV was read.
fn check_profile<T: Tree, C: Connection, W: Audience>(
    upload: &mut Upload<T, Sender<C>, Recorder<W>>,
    submitted: Submitted,
    hash: HashKind,
) -> Result<Compared, ComparisonFault>
    ensures only_client { upload.new ≡ record upload.old { client = upload.new.client } }
    ensures kept { OnOk result (upload.old.watcher.has_all ≡ true) }
    ensures reads { IfOk result (λ compared.
        upload.old.client.in_flight.waiting.items ≡ [] → Wherever upload.old.client.in_flight (λ known facts.
        ReadsExport C.does upload.old.client.client upload.old.client.name submitted.profile known facts
        upload.old.client.in_flight upload.new.client.in_flight compared.csv.items)) }
    ensures bound { IfOk result (λ compared. length compared.csv.items ≤ 1073741824) }
    ensures compares { IfOk result (λ compared.
        Compares upload.old.watcher.skipped.items submitted hash compared.csv.items compared) }
    ensures ended { IfErr result (λ fault.
        upload.old.client.stopped ≡ None → upload.old.client.in_flight.waiting.items ≡ []
        → Wherever upload.old.client.in_flight (λ known facts.
        EndsChecking C.does upload.old.client.client upload.old.client.name submitted.profile known hash fault facts
        upload.old.client.in_flight upload.new.client.in_flight)) }
{
    let csv = read_export(upload.alloc, &mut upload.client, submitted.profile)?;
    if !upload.watcher.has_all {
        return Err(ComparisonFault::Unchecked(TextFault::Memory));
    }
    let skipped = upload.watcher.skipped.as_slice();
    match compare_with(upload.alloc, skipped, submitted, hash, csv) {
        Ok(compared) => Ok(compared),
        Err(fault) => Err(ComparisonFault::Unchecked(fault)),
    }
}
