//! Lists the next folder, and takes what of it needs no further look: repeated names, or that it is unreadable.

ghost use Rattle.std.specs.Prelude.{◌≡◌, ◌<◌, ◌++◌, [], false, true, map, List, IfErr, IfOk, OnOk};
ghost use Rattle.droid_profile.specs.declared.fault.ProfileFault.TheVariants.{Memory};
ghost use Rattle.droid_profile.specs.declared.lanes.file_row.FileRow.{FileRow};
ghost use Rattle.droid_profile.specs.RowsPushed.{repeated_row};
ghost use Rattle.droid_profile.specs.ScanFits.{AddsFew, EndsTaking, Takes};
ghost use Rattle.droid_profile.specs.StepsTaken.{ListsFolder, scan_left};

use crate::fault::ProfileFault;
use crate::walk::entries::{push_left, push_left_below};
use crate::walk::row::Row;
use crate::walk::scan::Scan;
use droid_tree::{FolderEntry, PendingFolder, Skipped, Tree, read_folder};
use std::alloc::{AllocError, Global};

/// Lists the folder that has waited longest, whose entries are then those of `scan`, and takes its repeated entries.
/// Returns whether there was one. After an error nothing is promised of `scan` and `rows`: the profile ends.
pub(crate) fn list_next<T: Tree>(
    alloc: Global,
    tree: &mut T,
    scan: &mut Scan,
    rows: &mut Vec<Row>,
) -> Result<bool, ProfileFault>
    requires { scan.old.entries.items ≡ [] }
    ensures taken { OnOk result ((files : List FileRow)
        → Takes T.observes scan.old scan.new rows.old.items rows.new.items files files tree.old tree.new) }
    ensures all { IfOk result (λ more. more ≡ false → (scan.new.entries.items ≡ []) × (scan.new.waiting.items ≡ [])) }
    ensures less { IfOk result (λ more. more ≡ true → scan_left scan.new < scan_left scan.old) }
    ensures few { OnOk result (AddsFew 1 scan.old scan.new rows.old.items rows.new.items) }
    ensures ended { IfErr result (λ fault.
        (files : List FileRow) → EndsTaking T.observes fault 0 scan.old rows.old.items files tree.old tree.new) }
{
    let Some(folder) = scan.waiting.pop_front() else {
        return Ok(false);
    };
    list_folder(alloc, tree, scan, rows, &folder)?;
    scan.folder = folder;
    Ok(true)
}

/// Lists this folder, takes its repeated entries, and leaves the others in `scan` in reverse order, since the last one
/// is next. An unreadable folder gets a row of its own, and has no entries.
fn list_folder<T: Tree>(
    alloc: Global,
    tree: &mut T,
    scan: &mut Scan,
    rows: &mut Vec<Row>,
    folder: &PendingFolder,
) -> Result<(), ProfileFault>
    requires { scan.old.entries.items ≡ [] }
    ensures listed { OnOk result
        (ListsFolder T.observes folder.now scan.old scan.new rows.old.items rows.new.items tree.old tree.new) }
    ensures ended { IfErr result (λ fault. fault ≡ Memory) }
{
    match read_folder(alloc, tree, folder.path.as_str()) {
        Ok(Ok(listing)) => {
            push_repeated(alloc, rows, folder, listing.repeated.as_slice())?;
            let mut entries = listing.entries;
            entries.reverse();
            scan.entries = entries;
            Ok(())
        }
        Ok(Err(why)) => {
            push_left(alloc, rows, folder.path.as_str(), why)?;
            Ok(())
        }
        Err(_) => Err(ProfileFault::Memory),
    }
}

/// Appends the rows of entries that have the name of another one, each skipped as `SameName`.
fn push_repeated(
    alloc: Global,
    rows: &mut Vec<Row>,
    folder: &PendingFolder,
    repeated: &[FolderEntry],
) -> Result<(), AllocError>
    ensures { OnOk result (rows.new.items ≡ rows.old.items ++ map (repeated_row folder.now.path) repeated.now) }
{
    for entry in repeated {
        push_left_below(alloc, rows, folder, entry, Skipped::SameName)?;
    }
    Ok(())
}
