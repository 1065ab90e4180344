//! What the watcher is informed of an entry of a folder: that it was skipped, or that a folder is in the profile.

ghost use Rattle.std.specs.Prelude.{◌≡◌, IfErr, OnErr, OnOk};
ghost use Rattle.droid_tree.specs.Heard.{Left, TookFolder};
ghost use Rattle.droid_tree.specs.Paths.{below};
ghost use Rattle.droid_upload.specs.Deeds.{Does, Informed};
ghost use Rattle.droid_upload.specs.declared.submission_fault.SubmissionFault.TheVariants.{Memory};

use crate::client::Client;
use crate::submission_fault::SubmissionFault;
use crate::upload::Upload;
use droid_tree::{FolderEntry, PendingFolder, Skipped, Tree, Watcher};

/// Reports that the entry at `path` was skipped, and why. The path may be invalid UTF-8.
pub(crate) fn report<T: Tree, C: Client, W: Watcher>(
    upload: &mut Upload<T, C, W>,
    path: &[u8],
    why: Skipped,
)
    ensures { Does T.observes C.calls W.hears upload.old (Informed (Left path.now why)) upload.new }
{
    upload.watcher.skipped(path, why);
}

/// Reports that this entry of `folder` was skipped, and why. Its name may be invalid UTF-8, so its path is put together
/// as bytes. Fails only if out of memory, and reports nothing then.
pub(crate) fn report_below<T: Tree, C: Client, W: Watcher>(
    upload: &mut Upload<T, C, W>,
    folder: &PendingFolder,
    entry: &FolderEntry,
    why: Skipped,
) -> Result<(), SubmissionFault>
    ensures reported { OnOk result
        (Does T.observes C.calls W.hears upload.old (Informed (Left (below folder.now.path entry.now.name) why))
        upload.new) }
    ensures memory { IfErr result (λ fault. fault ≡ Memory) }
    ensures same { OnErr result (upload.new ≡ upload.old) }
{
    let mut path = Vec::from_slice(upload.alloc, folder.path.as_str().as_bytes())?;
    path.extend_from_slice(b"/")?;
    path.extend_from_slice(entry.name.as_slice())?;
    upload.watcher.skipped(path.as_slice(), why);
    Ok(())
}

/// Reports that a folder is in the profile.
pub(crate) fn report_folder<T: Tree, C: Client, W: Watcher>(
    upload: &mut Upload<T, C, W>,
    path: &str,
)
    ensures { Does T.observes C.calls W.hears upload.old (Informed (TookFolder path.now)) upload.new }
{
    upload.watcher.took_folder(path);
}
