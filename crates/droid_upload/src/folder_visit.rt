//! Visits one folder: lists it and submits its entries one after the other.

ghost use Rattle.std.specs.Prelude.{◌≡◌, ◌&&◌, map, IfErr, IfOk, MatchResult, OnOk};
ghost use Rattle.droid_tree.specs.Observation.{GoesOver, Unlisted};
ghost use Rattle.droid_tree.specs.declared.skip_reason.Skipped.TheVariants as reasons;
ghost use Rattle.droid_upload.specs.FolderVisits.{report_repeated};
ghost use Rattle.droid_upload.specs.SubmissionSteps.{AreOfFirst, AreOfListing, AreOfVisit, ListsFolder, TakesKids};
ghost use Rattle.droid_upload.specs.SubmissionSteps.{TakesListing, TakesVisit};
ghost use Rattle.droid_upload.specs.Deeds.{Does, Observed};
ghost use Rattle.droid_upload.specs.Fronts.{AreJust, EndsEarly};
ghost use Rattle.droid_upload.specs.declared.submission_fault.SubmissionFault.TheVariants as faults;

use crate::client::Client;
use crate::entry_submission::submit_entry;
use crate::findings::Found;
use crate::submission_fault::SubmissionFault;
use crate::upload::{Destination, Upload};
use crate::watcher_reports::{report, report_below};
use droid_tree::{FolderEntry, Listing, PendingFolder, Skipped, Tree, Watcher, read_folder};

/// Lists a folder and submits its entries. An unreadable folder is reported, and is in the profile without entries.
/// Returns whether all are in the profile as they are in the tree.
pub(crate) fn visit_folder<T: Tree, C: Client, W: Watcher>(
    upload: &mut Upload<T, C, W>,
    into: Destination,
    folder: &PendingFolder,
    found: &mut Found,
) -> Result<bool, SubmissionFault>
    ensures visited { IfOk result (λ whole.
        TakesVisit (Does T.observes C.calls W.hears) into folder.now whole upload.old upload.new found.old found.new) }
    ensures ended { IfErr result (λ fault.
        EndsEarly (Does T.observes C.calls W.hears) (AreOfVisit into folder.now) fault upload.old upload.new) }
{
    match list_folder(upload, folder.path.as_str())? {
        Ok(listing) => {
            let whole = submit_listing(upload, into, folder, &listing, found)?;
            Ok(whole)
        }
        Err(why) => {
            report(upload, folder.path.as_str().as_bytes(), why);
            Ok(false)
        }
    }
}

/// Lists a folder. The inner error says that it is unreadable; the outer one is always `Memory`.
fn list_folder<T: Tree, C: Client, W: Watcher>(
    upload: &mut Upload<T, C, W>,
    path: &str,
) -> Result<Result<Listing, Skipped>, SubmissionFault>
    ensures listed { IfOk result (λ read. MatchResult read
        (λ listing.
        ListsFolder (Does T.observes C.calls W.hears) path.now listing.entries.items listing.repeated.items upload.old
        upload.new)
        (λ why.
        (why ≡ reasons.Unreadable)
        × Does T.observes C.calls W.hears upload.old (Observed (Unlisted path.now)) upload.new)) }
    ensures memory { IfErr result (λ fault.
        (fault ≡ faults.Memory) × (upload.new ≡ record upload.old { tree = upload.new.tree })) }
{
    match read_folder(upload.alloc, &mut upload.tree, path) {
        Ok(read) => Ok(read),
        Err(_) => Err(SubmissionFault::Memory),
    }
}

/// Reports the repeated entries of a folder, which are skipped, and submits the others. Returns whether none is
/// repeated and all the others are in the profile as they are in the tree.
fn submit_listing<T: Tree, C: Client, W: Watcher>(
    upload: &mut Upload<T, C, W>,
    into: Destination,
    folder: &PendingFolder,
    listing: &Listing,
    found: &mut Found,
) -> Result<bool, SubmissionFault>
    ensures taken { IfOk result (λ whole.
        TakesListing (Does T.observes C.calls W.hears) into folder.now listing.now.entries.items
        listing.now.repeated.items whole upload.old upload.new found.old found.new) }
    ensures ended { IfErr result (λ fault.
        EndsEarly (Does T.observes C.calls W.hears)
        (AreOfListing into folder.now.path listing.now.entries.items listing.now.repeated.items) fault upload.old
        upload.new) }
{
    let repeated = listing.repeated.as_slice();
    report_all(upload, folder, repeated)?;
    let taken = submit_entries(upload, into, folder, listing.entries.as_slice(), found)?;
    Ok(both(repeated.is_empty(), taken))
}

/// Reports the repeated entries of a folder to the watcher, each as `SameName`.
fn report_all<T: Tree, C: Client, W: Watcher>(
    upload: &mut Upload<T, C, W>,
    folder: &PendingFolder,
    repeated: &[FolderEntry],
) -> Result<(), SubmissionFault>
    ensures reported { OnOk result
        (GoesOver (Does T.observes C.calls W.hears) upload.old (map (report_repeated folder.now.path) repeated.now)
        upload.new) }
    ensures ended { IfErr result (λ fault.
        EndsEarly (Does T.observes C.calls W.hears) (AreJust (map (report_repeated folder.now.path) repeated.now)) fault
        upload.old upload.new) }
{
    for entry in repeated {
        report_below(upload, folder, entry, Skipped::SameName)?;
    }
    Ok(())
}

/// Submits these entries of a folder, in their order. Returns whether all are in the profile as they are in the tree;
/// one that is not stops nothing.
fn submit_entries<T: Tree, C: Client, W: Watcher>(
    upload: &mut Upload<T, C, W>,
    into: Destination,
    folder: &PendingFolder,
    entries: &[FolderEntry],
    found: &mut Found,
) -> Result<bool, SubmissionFault>
    ensures taken { IfOk result (λ taken.
        TakesKids (Does T.observes C.calls W.hears) into folder.now entries.now taken upload.old upload.new found.old
        found.new) }
    ensures ended { IfErr result (λ fault.
        EndsEarly (Does T.observes C.calls W.hears) (AreOfFirst into folder.now.path entries.now) fault upload.old
        upload.new) }
{
    let mut all = true;
    for entry in entries {
        let taken = submit_entry(upload, into, folder, entry, found)?;
        all = both(all, taken);
    }
    Ok(all)
}

/// Returns whether both are true. A function, so that the proofs of its callers, here and in `submit_tree`, do not
/// split.
pub(crate) fn both(first: bool, second: bool) -> bool
    ensures { result ≡ (first && second) }
{
    first && second
}
