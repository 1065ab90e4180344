//! Takes one entry of a folder as a row: a folder, a file, or something that is skipped.

ghost use Rattle.std.specs.Prelude.{◌≡◌, ◌+◌, ◌≤◌, ◌++◌, [], ◌∷◌, IfErr, IfOk, OnOk, length};
ghost use Rattle.droid_tree.specs.Paths.{below};
ghost use Rattle.droid_profile.specs.EarlyEnds.{TreeStands};
ghost use Rattle.droid_profile.specs.declared.fault.ProfileFault.TheVariants.{Numbers};
ghost use Rattle.droid_profile.specs.RowsPushed.{left_row};
ghost use Rattle.droid_profile.specs.ScanFits.{AddsFew, EndsTaking, IsExplained, Takes};
ghost use Rattle.droid_profile.specs.StepsTaken.{IsNext, TakesFile, TakesFolder, scan_left};
ghost use Rattle.droid_profile.specs.declared.walk.row.Row.TheVariants as row_forms;
ghost use Rattle.droid_profile.specs.declared.walk.scan.Scan.{Scan};

use crate::fault::ProfileFault;
use crate::lanes::file_row::{FileRow, FileState};
use crate::walk::refusal::skip_reason;
use crate::walk::row::Row;
use crate::walk::scan::Scan;
use droid_frame::{Blob, HashValue, Method, NodeKind, Record, Text, Texts};
use droid_tree::{
    EntryKind, FolderEntry, PendingFolder, Skipped, Tree, TreeFault, add_pending, name_of,
    path_below,
};
use std::alloc::{AllocError, Global};

/// Takes one entry of the folder that was listed last: appends its row to `rows`, and a file to those of the batch,
/// `files`. After an error nothing is promised of these: `profile` hands out no row of a batch whose taking failed.
pub(crate) fn take_entry<T: Tree>(
    alloc: Global,
    tree: &mut T,
    scan: &mut Scan,
    rows: &mut Vec<Row>,
    files: &mut Vec<FileRow>,
    entry: FolderEntry,
) -> Result<(), ProfileFault>
    ensures taken { OnOk result ((before : Scan) → IsNext before scan.old entry
        → Takes T.observes before scan.new rows.old.items rows.new.items files.old.items files.new.items tree.old
        tree.new) }
    ensures less { OnOk result (scan_left scan.new ≤ scan_left scan.old) }
    ensures few { OnOk result (AddsFew 1 scan.old scan.new rows.old.items rows.new.items) }
    ensures ended { IfErr result (λ fault.
        (before : Scan) → IsNext before scan.old entry
        → EndsTaking T.observes fault 0 before rows.old.items files.old.items tree.old tree.new) }
{
    let kind = entry.kind;
    let Some(name) = name_of(&entry) else {
        push_left_below(alloc, rows, &scan.folder, &entry, Skipped::Name)?;
        return Ok(());
    };
    match skip_reason(scan.folder.path.as_str(), name, &entry) {
        Some(why) => {
            push_left_below(alloc, rows, &scan.folder, &entry, why)?;
            return Ok(());
        }
        None => {}
    }
    let path = path_below(alloc, scan.folder.path.as_str(), name)?;
    let name = Text::copy_of(alloc, name)?;
    match kind {
        EntryKind::File => {
            take_file(alloc, scan, rows, files, path, name, entry)?;
            Ok(())
        }
        _ => {
            take_folder(alloc, tree, scan, rows, path, name, &entry)?;
            Ok(())
        }
    }
}

/// Takes the file at this path: gives it the next number and a place in the batch, where it waits to be read. Fails
/// with `Numbers` if no number is left.
fn take_file(
    alloc: Global,
    scan: &mut Scan,
    rows: &mut Vec<Row>,
    files: &mut Vec<FileRow>,
    path: Text,
    name: Text,
    entry: FolderEntry,
) -> Result<(), ProfileFault>
    requires placed { path ≡ below scan.old.folder.path entry.name }
    requires named { name ≡ entry.name }
    ensures taken { OnOk result
        (TakesFile entry scan.old scan.new rows.old.items rows.new.items files.old.items files.new.items) }
    ensures ended { IfErr result (λ fault. IsExplained fault scan.old.number) }
{
    let number = next_number(scan.number)?;
    let record = Record {
        id: number,
        parent: scan.folder.number,
        path,
        name,
        kind: NodeKind::File,
        size: entry.len,
        modified: entry.modified,
        method: Method::Unidentified,
        mismatch: false,
        hash: HashValue::Nothing,
        puids: Texts::new(alloc),
    };
    push_file(
        rows,
        files,
        FileRow {
            record,
            entry,
            state: FileState::Waits,
        },
    )?;
    scan.number = number;
    Ok(())
}

/// Takes the folder at this path, if it can be listed now: gives it the next number, and lets it wait to be listed.
/// Otherwise it is skipped, and has no number. Fails with `Numbers` if no number is left, even before it is asked
/// whether the folder can be listed.
fn take_folder<T: Tree>(
    alloc: Global,
    tree: &mut T,
    scan: &mut Scan,
    rows: &mut Vec<Row>,
    path: Text,
    name: Text,
    entry: &FolderEntry,
) -> Result<(), ProfileFault>
    requires placed { path ≡ below scan.old.folder.path entry.now.name }
    requires named { name ≡ entry.now.name }
    ensures taken { OnOk result
        (TakesFolder T.observes entry.now scan.old scan.new rows.old.items rows.new.items tree.old tree.new) }
    ensures ended { IfErr result (λ fault. IsExplained fault scan.old.number) }
    ensures stands { IfErr result (λ fault. TreeStands fault tree.old tree.new) }
{
    let number = next_number(scan.number)?;
    match tree.see_folder(alloc, path.as_str()) {
        Ok(()) => {}
        Err(TreeFault::Memory) => return Err(ProfileFault::Memory),
        Err(_) => {
            push_left(alloc, rows, path.as_str(), Skipped::Unreadable)?;
            return Ok(());
        }
    }
    let record = Record {
        id: number,
        parent: scan.folder.number,
        path: path.try_clone(alloc)?,
        name,
        kind: NodeKind::Folder,
        size: 0,
        modified: entry.modified,
        method: Method::Unidentified,
        mismatch: false,
        hash: HashValue::Nothing,
        puids: Texts::new(alloc),
    };
    push_folder(rows, record)?;
    add_pending(&mut scan.waiting, path, number)?;
    scan.number = number;
    Ok(())
}

/// Appends a file to the batch, and its row, which has its place there. After an error there may be a row without its
/// file: nobody hands it out, since `profile` ends.
fn push_file(rows: &mut Vec<Row>, files: &mut Vec<FileRow>, file: FileRow) -> Result<(), AllocError>
    ensures rows { OnOk result (rows.new.items ≡ rows.old.items ++ row_forms.File (length files.old.items) ∷ []) }
    ensures files { OnOk result (files.new.items ≡ files.old.items ++ file ∷ []) }
{
    let place = files.len();
    rows.push(Row::File(place))?;
    files.push(file)?;
    Ok(())
}

/// Appends the row of a folder, whose record is complete: there is nothing to read.
fn push_folder(rows: &mut Vec<Row>, shown: Record) -> Result<(), AllocError>
    ensures { OnOk result (rows.new.items ≡ rows.old.items ++ row_forms.Folder shown ∷ []) }
{
    rows.push(Row::Folder(shown))?;
    Ok(())
}

/// Returns the number after this one, or the fault `Numbers` after 4,294,967,295.
fn next_number(number: u32) -> Result<u32, ProfileFault>
    ensures next { IfOk result (λ next. next ≡ number + 1) }
    ensures few { OnOk result (number + 1 ≤ 4294967295) }
    ensures last { IfErr result (λ fault. (fault ≡ Numbers) × (number ≡ 4294967295)) }
{
    match number.checked_add(1) {
        Some(next) => Ok(next),
        None => Err(ProfileFault::Numbers),
    }
}

/// Appends the row of something that is skipped, for the reason `why`. Its path is text.
pub(crate) fn push_left(
    alloc: Global,
    rows: &mut Vec<Row>,
    path: &str,
    why: Skipped,
) -> Result<(), AllocError>
    ensures { OnOk result (rows.new.items ≡ rows.old.items ++ row_forms.Left path.now why ∷ []) }
{
    let path = Blob::copy_of(alloc, path.as_bytes())?;
    rows.push(Row::Left { path, why })?;
    Ok(())
}

/// Appends the row of an entry of `folder` that is skipped, for the reason `why`. Its name may be invalid UTF-8, so its
/// path is put together as bytes.
pub(crate) fn push_left_below(
    alloc: Global,
    rows: &mut Vec<Row>,
    folder: &PendingFolder,
    entry: &FolderEntry,
    why: Skipped,
) -> Result<(), AllocError>
    ensures { OnOk result (rows.new.items ≡ rows.old.items ++ left_row folder.now.path entry.now why ∷ []) }
{
    let mut path = Vec::from_slice(alloc, folder.path.as_str().as_bytes())?;
    path.extend_from_slice(b"/")?;
    path.extend_from_slice(entry.name.as_slice())?;
    rows.push(Row::Left {
        path: Blob::from(path),
        why,
    })?;
    Ok(())
}
