//! Submits one entry of a folder: a folder, a file, or something that is skipped.

ghost use Rattle.std.specs.Prelude.{◌≡◌, [], ◌∷◌, IfErr, IfOk};
ghost use Rattle.droid_tree.specs.Paths.{below};
ghost use Rattle.droid_tree.specs.declared.folder_entry.EntryKind.TheVariants as kinds;
ghost use Rattle.droid_tree.specs.declared.pending_folder.PendingFolder.{PendingFolder};
ghost use Rattle.droid_upload.specs.SubmissionSteps.{AreOfFirst, TakesKid};
ghost use Rattle.droid_upload.specs.Deeds.{Does};
ghost use Rattle.droid_upload.specs.Fronts.{EndsEarly};

use crate::client::Client;
use crate::file_upload::upload_file;
use crate::findings::{Found, add_file_node, add_folder_node};
use crate::submission_fault::SubmissionFault;
use crate::upload::{Destination, Upload};
use crate::upload_requests::add_folder;
use crate::watcher_reports::{report, report_below, report_folder};
use droid_frame::{Refusal, Text};
use droid_tree::{
    EntryKind, FolderEntry, PendingFolder, Skipped, Tree, Watcher, name_of, path_below,
};

/// Submits one entry of `folder`, or reports to the watcher why it is skipped. `into` says where it goes, and `found`
/// gets what is then in the profile. Returns whether it is there as it is in the tree. After an error nothing is
/// promised of `found`: `submit_tree` drops it.
pub(crate) fn submit_entry<T: Tree, C: Client, W: Watcher>(
    upload: &mut Upload<T, C, W>,
    into: Destination,
    folder: &PendingFolder,
    entry: &FolderEntry,
    found: &mut Found,
) -> Result<bool, SubmissionFault>
    ensures taken { IfOk result (λ taken.
        TakesKid (Does T.observes C.calls W.hears) into folder.now entry.now taken upload.old upload.new found.old
        found.new) }
    ensures ended { IfErr result (λ fault.
        EndsEarly (Does T.observes C.calls W.hears) (AreOfFirst into folder.now.path (entry.now ∷ [])) fault upload.old
        upload.new) }
{
    let Some(name) = name_of(entry) else {
        report_below(upload, folder, entry, Skipped::Name)?;
        return Ok(false);
    };
    let path = path_below(upload.alloc, folder.path.as_str(), name)?;
    match entry.kind {
        EntryKind::Folder => {
            let taken = submit_folder(upload, into, path, name, entry, found)?;
            Ok(taken)
        }
        EntryKind::File => {
            let taken = submit_file(upload, into, path, name, entry, found)?;
            Ok(taken)
        }
        EntryKind::Link => {
            report(upload, path.as_str().as_bytes(), Skipped::Link);
            Ok(false)
        }
        EntryKind::Other => {
            report(upload, path.as_str().as_bytes(), Skipped::Kind);
            Ok(false)
        }
        EntryKind::TooLong => {
            let why = Skipped::Refused(Refusal::PathTooLong);
            report(upload, path.as_str().as_bytes(), why);
            Ok(false)
        }
    }
}

/// Asks the service for the folder at `path`, informs the watcher, and notes it in `found`, so that its entries are
/// visited later. Returns false if the service refused it for a reason that skips it.
fn submit_folder<T: Tree, C: Client, W: Watcher>(
    upload: &mut Upload<T, C, W>,
    into: Destination,
    path: Text,
    name: &str,
    entry: &FolderEntry,
    found: &mut Found,
) -> Result<bool, SubmissionFault>
    requires named { name.now ≡ entry.now.name }
    requires kind { entry.now.kind ≡ kinds.Folder }
    ensures taken { IfOk result (λ taken. (folder : PendingFolder) → path ≡ below folder.path entry.now.name →
        TakesKid (Does T.observes C.calls W.hears) into folder entry.now taken upload.old upload.new found.old
        found.new) }
    ensures ended { IfErr result (λ fault. (folder : PendingFolder) → path ≡ below folder.path entry.now.name →
        EndsEarly (Does T.observes C.calls W.hears) (AreOfFirst into folder.path (entry.now ∷ [])) fault upload.old
        upload.new) }
{
    match add_folder(upload, into.profile, into.folder, entry.modified, name)? {
        Ok(number) => {
            report_folder(upload, path.as_str());
            add_folder_node(upload.alloc, found, into, path, number, entry)?;
            Ok(true)
        }
        Err(refusal) => {
            let why = Skipped::Refused(refusal);
            report(upload, path.as_str().as_bytes(), why);
            Ok(false)
        }
    }
}

/// Adds the file at `path` to the profile with all its bytes, and its node to `found`. Returns whether it is there as
/// it is in the tree.
fn submit_file<T: Tree, C: Client, W: Watcher>(
    upload: &mut Upload<T, C, W>,
    into: Destination,
    path: Text,
    name: &str,
    entry: &FolderEntry,
    found: &mut Found,
) -> Result<bool, SubmissionFault>
    requires named { name.now ≡ entry.now.name }
    requires kind { entry.now.kind ≡ kinds.File }
    ensures taken { IfOk result (λ taken. (folder : PendingFolder) → path ≡ below folder.path entry.now.name →
        TakesKid (Does T.observes C.calls W.hears) into folder entry.now taken upload.old upload.new found.old
        found.new) }
    ensures ended { IfErr result (λ fault. (folder : PendingFolder) → path ≡ below folder.path entry.now.name →
        EndsEarly (Does T.observes C.calls W.hears) (AreOfFirst into folder.path (entry.now ∷ [])) fault upload.old
        upload.new) }
{
    let uploaded = upload_file(upload, into, path.as_str(), name, entry)?;
    let taken = add_file_node(found, into, path, entry, uploaded)?;
    Ok(taken)
}
