//! Counts the folders, files and bytes of a tree before it is submitted, and checks the count against a limit.

ghost use Rattle.std.specs.Prelude.{◌≡◌, ◌≢◌, ◌+◌, ◌<◌, ◌≤◌, IfErr, IfOk, OnOk};
ghost use Rattle.droid_tree.specs.Counts.{CountsItem, CountsItems, CountsFolder, CountsTooMany, CountsTree};
ghost use Rattle.droid_tree.specs.declared.fault.WalkFault.TheVariants.{Entries};

use crate::fault::WalkFault;
use crate::folder_entry::{EntryKind, FolderEntry};
use crate::listing::{name_of, read_folder};
use crate::pending_folder::{PendingFolder, TURNS, add_pending, only_the_top, path_below};
use crate::tree::Tree;
use std::alloc::Global;
use std::collections::VecDeque;

/// How much there is in a tree, not counting its top.
#[derive(Clone, Copy)]
pub struct Counted {
    /// How many folders.
    pub folders: u64,
    /// How many files.
    pub files: u64,
    /// The lengths of all files together, in bytes.
    pub bytes: u64,
    /// How many entries and folders a walk skips: entries of other types, entries whose names are not valid UTF-8 or
    /// are the name of another entry, and unreadable folders.
    pub skipped: u64,
}

/// Counts the folders and files of a tree. Fails with `Entries` if there are more than `limit` together, with `Folders`
/// if there are more folders than a walk visits, with `Bytes` if the lengths do not fit 64 bits. Lists each folder
/// once, in the order of a walk, and reads no file.
pub fn count<T: Tree>(alloc: Global, tree: &mut T, limit: u64) -> Result<Counted, WalkFault>
    // The numbers are those of the tree as it was listed.
    ensures counted { IfOk result (λ counted. CountsTree T.observes counted tree.old tree.new) }
    ensures within { IfOk result (λ counted. counted.folders + counted.files ≤ limit) }
    // `Entries` is returned only if more folders and files than the limit were listed.
    ensures too_many { IfErr result (λ fault. fault ≡ Entries → CountsTooMany T.observes limit tree.old tree.new) }
{
    let mut pending = only_the_top(alloc)?;
    let mut counted = Counted {
        folders: 0,
        files: 0,
        bytes: 0,
        skipped: 0,
    };
    for _ in 0..TURNS {
        let Some(folder) = pending.pop_front() else {
            return Ok(counted);
        };
        counted = count_folder(alloc, tree, &folder, counted, &mut pending)?;
        see_room(counted, limit)?;
    }
    Err(WalkFault::Folders)
}

/// Adds what is in one folder to the counts `before`, and appends its subfolders to `pending`. An unreadable folder
/// counts as one that is skipped. After an error nothing is promised of `pending`: `count` ends.
fn count_folder<T: Tree>(
    alloc: Global,
    tree: &mut T,
    folder: &PendingFolder,
    before: Counted,
    pending: &mut VecDeque<PendingFolder>,
) -> Result<Counted, WalkFault>
    ensures counted { IfOk result (λ after.
        CountsFolder T.observes folder.now.path before after tree.old tree.new pending.old.items pending.new.items) }
    ensures other { IfErr result (λ fault. fault ≢ Entries) }
{
    match read_folder(alloc, tree, folder.path.as_str())? {
        Ok(listing) => {
            let repeated = listing.repeated.len() as u64;
            let now = some_skipped(before, repeated)?;
            let entries = listing.entries.as_slice();
            let after = count_entries(alloc, folder, entries, now, pending)?;
            Ok(after)
        }
        Err(_) => {
            let after = some_skipped(before, 1)?;
            Ok(after)
        }
    }
}

/// Adds these entries of a folder to the counts `before`, one of each name. `count_folder` counts the repeated ones as
/// skipped.
fn count_entries(
    alloc: Global,
    folder: &PendingFolder,
    entries: &[FolderEntry],
    before: Counted,
    pending: &mut VecDeque<PendingFolder>,
) -> Result<Counted, WalkFault>
    ensures counted { IfOk result (λ after.
        CountsItems folder.now.path entries.now before after pending.old.items pending.new.items) }
    ensures other { IfErr result (λ fault. fault ≢ Entries) }
{
    let mut counted = before;
    for entry in entries {
        counted = count_entry(alloc, folder, entry, counted, pending)?;
    }
    Ok(counted)
}

/// Adds one entry to the counts `before`, and appends it to `pending` if it is a folder. Its number there is 0: only a
/// walk that submits knows numbers, and no clause of this file speaks of them.
fn count_entry(
    alloc: Global,
    folder: &PendingFolder,
    entry: &FolderEntry,
    before: Counted,
    pending: &mut VecDeque<PendingFolder>,
) -> Result<Counted, WalkFault>
    ensures counted { IfOk result (λ after.
        CountsItem folder.now.path entry.now before after pending.old.items pending.new.items) }
    ensures other { IfErr result (λ fault. fault ≢ Entries) }
{
    let Some(name) = name_of(entry) else {
        let after = some_skipped(before, 1)?;
        return Ok(after);
    };
    match entry.kind {
        EntryKind::Folder => {
            let after = one_folder(before)?;
            let path = path_below(alloc, folder.path.as_str(), name)?;
            add_pending(pending, path, 0)?;
            Ok(after)
        }
        EntryKind::File => {
            let after = one_file(before, entry.len)?;
            Ok(after)
        }
        EntryKind::Link => {
            let after = some_skipped(before, 1)?;
            Ok(after)
        }
        EntryKind::Other => {
            let after = some_skipped(before, 1)?;
            Ok(after)
        }
        EntryKind::TooLong => {
            let after = some_skipped(before, 1)?;
            Ok(after)
        }
    }
}

/// Counts one more folder. Its length counts nothing.
fn one_folder(before: Counted) -> Result<Counted, WalkFault>
    ensures counted { IfOk result (λ after. after ≡ record before { folders = before.folders + 1 }) }
    ensures other { IfErr result (λ fault. fault ≢ Entries) }
{
    Ok(Counted {
        folders: sum_of(before.folders, 1)?,
        files: before.files,
        bytes: before.bytes,
        skipped: before.skipped,
    })
}

/// Counts one more file of `len` bytes. Fails with `Bytes` on overflow.
fn one_file(before: Counted, len: u64) -> Result<Counted, WalkFault>
    ensures counted { IfOk result (λ after.
        after ≡ record before { files = before.files + 1; bytes = before.bytes + len }) }
    ensures other { IfErr result (λ fault. fault ≢ Entries) }
{
    Ok(Counted {
        folders: before.folders,
        files: sum_of(before.files, 1)?,
        bytes: sum_of(before.bytes, len)?,
        skipped: before.skipped,
    })
}

/// Counts `count` more entries or folders that a walk skips.
fn some_skipped(before: Counted, count: u64) -> Result<Counted, WalkFault>
    ensures counted { IfOk result (λ after. after ≡ record before { skipped = before.skipped + count }) }
    ensures other { IfErr result (λ fault. fault ≢ Entries) }
{
    Ok(Counted {
        folders: before.folders,
        files: before.files,
        bytes: before.bytes,
        skipped: sum_of(before.skipped, count)?,
    })
}

/// Checks that there are no more folders and files together than `limit`. Fails with `Entries` if there are.
fn see_room(counted: Counted, limit: u64) -> Result<(), WalkFault>
    ensures within { OnOk result (counted.folders + counted.files ≤ limit) }
    ensures too_many { IfErr result (λ fault. fault ≡ Entries → limit < counted.folders + counted.files) }
{
    let nodes = sum_of(counted.folders, counted.files)?;
    if nodes <= limit {
        Ok(())
    } else {
        Err(WalkFault::Entries)
    }
}

/// Adds two numbers. Fails with `Bytes` on overflow, which only the lengths of files can reach. The clauses ask only
/// that it is not `Entries`, of which `count` promises when it comes.
fn sum_of(first: u64, second: u64) -> Result<u64, WalkFault>
    ensures sum { IfOk result (λ sum. sum ≡ first + second) }
    ensures other { IfErr result (λ fault. fault ≢ Entries) }
{
    match first.checked_add(second) {
        Some(sum) => Ok(sum),
        None => Err(WalkFault::Bytes),
    }
}
