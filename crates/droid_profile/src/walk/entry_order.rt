//! Takes the entries of a tree in order, folder by folder, as many as one batch has.

ghost use Rattle.std.specs.Prelude.{◌≡◌, ◌<◌, [], false, true, IfErr, IfOk, OnOk};
ghost use Rattle.droid_profile.specs.ScanFits.{AddsFew, EndsTaking, Takes};
ghost use Rattle.droid_profile.specs.StepsTaken.{scan_left};

use crate::fault::ProfileFault;
use crate::lanes::file_row::FileRow;
use crate::walk::entries::take_entry;
use crate::walk::folders::list_next;
use crate::walk::row::Row;
use crate::walk::scan::Scan;
use droid_tree::Tree;
use std::alloc::Global;

/// How many entries and folders are taken for one batch. The clauses of `take_rows` and `few_wait` of `EndsEarly` have
/// the number too, and the prover compares them; docs/DECISIONS.md says why it is this one.
const TAKEN: usize = 8_192;

/// Takes the next entries of a tree, and lists folders on the way, up to 8,192 of both: appends their rows, and the
/// files among them. Returns whether something may be left.
pub fn take_rows<T: Tree>(
    alloc: Global,
    tree: &mut T,
    scan: &mut Scan,
    rows: &mut Vec<Row>,
    files: &mut Vec<FileRow>,
) -> Result<bool, ProfileFault>
    ensures taken { OnOk result
        (Takes T.observes scan.old scan.new rows.old.items rows.new.items files.old.items files.new.items tree.old
        tree.new) }
    ensures all { IfOk result (λ more. more ≡ false → (scan.new.entries.items ≡ []) × (scan.new.waiting.items ≡ [])) }
    // If something is left, it is less than before.
    ensures less { IfOk result (λ more. more ≡ true → scan_left scan.new < scan_left scan.old) }
    ensures few { OnOk result (AddsFew 8192 scan.old scan.new rows.old.items rows.new.items) }
    ensures ended { IfErr result (λ fault.
        EndsTaking T.observes fault 8192 scan.old rows.old.items files.old.items tree.old tree.new) }
{
    for _ in 0..TAKEN {
        let more = take_next(alloc, tree, scan, rows, files)?;
        if !more {
            return Ok(false);
        }
    }
    Ok(true)
}

/// Takes the next entry of the folder that was listed last, or, if none is left, lists the next folder. Returns whether
/// there was one.
fn take_next<T: Tree>(
    alloc: Global,
    tree: &mut T,
    scan: &mut Scan,
    rows: &mut Vec<Row>,
    files: &mut Vec<FileRow>,
) -> Result<bool, ProfileFault>
    ensures taken { OnOk result
        (Takes T.observes scan.old scan.new rows.old.items rows.new.items files.old.items files.new.items tree.old
        tree.new) }
    ensures all { IfOk result (λ more. more ≡ false → (scan.new.entries.items ≡ []) × (scan.new.waiting.items ≡ [])) }
    ensures less { IfOk result (λ more. more ≡ true → scan_left scan.new < scan_left scan.old) }
    ensures few { OnOk result (AddsFew 1 scan.old scan.new rows.old.items rows.new.items) }
    ensures ended { IfErr result (λ fault.
        EndsTaking T.observes fault 0 scan.old rows.old.items files.old.items tree.old tree.new) }
{
    match scan.entries.pop() {
        Some(entry) => {
            take_entry(alloc, tree, scan, rows, files, entry)?;
            Ok(true)
        }
        None => {
            let more = list_next(alloc, tree, scan, rows)?;
            Ok(more)
        }
    }
}
