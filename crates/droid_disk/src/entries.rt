//! Lists the entries of a folder with their metadata, and puts together the paths by which they are asked for.

ghost use Rattle.std.specs.Prelude.{◌≡◌, ◌≢◌, ◌++◌, ◌∷◌, [], IfErr, IfOk, OnOk, string_bytes};
ghost use Rattle.droid_tree.specs.Paths.{below};
ghost use Rattle.droid_tree.specs.declared.fault.TreeFault.TheVariants.{Memory};
ghost use Rattle.droid_disk.specs.Said.{NoNames};
ghost use Rattle.droid_disk.specs.FolderObservation.{ListsAll, LooksAt, SaysOfText, Shows, is_too_long, kind_unseen};

use crate::disk::{Disk, FileMetadata};
use droid_frame::Blob;
use droid_tree::{EntryKind, FolderEntry, TreeFault};
use std::alloc::{AllocError, Global};

/// Lists the folder at `path`, in any order. The path of an entry is `folder`, `/` and its name: both name one folder,
/// but `path` may end in `/`. Fails as [`Disk::names`] does, or with `Memory`. At the end, also after an error, the
/// process's working folder is that in which it was started.
pub(crate) fn list<D: Disk>(
    alloc: Global,
    disk: &mut D,
    path: &str,
    folder: &str,
) -> Result<Vec<FolderEntry>, TreeFault>
    ensures listed { IfOk result (λ entries. ListsAll D.says path.now folder.now entries.items disk.old disk.new) }
    ensures failed { IfErr result (λ fault. fault ≢ Memory → D.says disk.old (NoNames path.now) disk.new) }
    ensures left { D.is_inside disk.new → ⊥ }
{
    let listed = list_inside(alloc, disk, path, folder);
    disk.leave();
    listed
}

/// Lists the folder, and fails, as `list` says. The process may then be in it: `list` goes back.
fn list_inside<D: Disk>(
    alloc: Global,
    disk: &mut D,
    path: &str,
    folder: &str,
) -> Result<Vec<FolderEntry>, TreeFault>
    ensures listed { IfOk result (λ entries. ListsAll D.says path.now folder.now entries.items disk.old disk.new) }
    ensures failed { IfErr result (λ fault. fault ≢ Memory → D.says disk.old (NoNames path.now) disk.new) }
{
    let names = disk.names(alloc, path)?;
    let mut entries = room_for(alloc, names.len())?;
    let mut place = String::new(alloc);
    for name in names {
        let entry = entry_of(disk, folder, name, &mut place)?;
        add(&mut entries, entry)?;
    }
    Ok(entries)
}

/// Returns an empty list with room for `count` entries, or the fault `Memory`.
fn room_for(alloc: Global, count: usize) -> Result<Vec<FolderEntry>, TreeFault>
    ensures none { IfOk result (λ entries. entries.items ≡ []) }
    ensures memory { IfErr result (λ fault. fault ≡ Memory) }
{
    match Vec::with_capacity(alloc, count) {
        Ok(entries) => Ok(entries),
        Err(_) => Err(TreeFault::Memory),
    }
}

/// Appends an entry. Fails only with `Memory`; `list_inside` ends then.
fn add(entries: &mut Vec<FolderEntry>, entry: FolderEntry) -> Result<(), TreeFault>
    ensures added { OnOk result (entries.new.items ≡ entries.old.items ++ entry ∷ []) }
    ensures memory { IfErr result (λ fault. fault ≡ Memory) }
{
    match entries.push(entry) {
        Ok(()) => Ok(()),
        Err(_) => Err(TreeFault::Memory),
    }
}

/// Returns the entry of this name. If a path is needed, it is put together in `place`, whatever stood there. A name
/// without metadata is an entry too; it fails only with `Memory`.
fn entry_of<D: Disk>(
    disk: &mut D,
    folder: &str,
    name: Blob,
    place: &mut String,
) -> Result<FolderEntry, TreeFault>
    ensures name { IfOk result (λ entry. entry.name ≡ name) }
    ensures looks { IfOk result (λ entry. LooksAt D.says folder.now disk.old entry disk.new) }
    ensures memory { IfErr result (λ fault. fault ≡ Memory) }
{
    match look_below(disk, folder, &name, place) {
        Ok(found) => Ok(entry_with(folder, name, found)),
        Err(_) => Err(TreeFault::Memory),
    }
}

/// Returns an entry of this folder with its metadata. Without them it is `Other` or `TooLong`, and its numbers, which
/// no clause holds then, are 0.
fn entry_with(folder: &str, name: Blob, found: Option<FileMetadata>) -> FolderEntry
    ensures name { result.name ≡ name }
    ensures shown { Shows folder.now found result }
{
    match found {
        Some(found) => FolderEntry {
            name,
            kind: found.kind,
            modified: found.modified,
            modified_nanos: found.modified_nanos,
            changed: found.changed,
            changed_nanos: found.changed_nanos,
            len: found.len,
            device: found.device,
            inode: found.inode,
        },
        None => {
            let kind = kind_unseen(folder, &name);
            FolderEntry {
                name,
                kind,
                modified: 0,
                modified_nanos: 0,
                changed: 0,
                changed_nanos: 0,
                len: 0,
                device: 0,
                inode: 0,
            }
        }
    }
}

/// Returns the type of an entry of which no metadata were found: `TooLong` if its name is text and its path too long,
/// otherwise `Other`.
#[tactic(auto, using(crate::proofs::UnseenKinds::is_text, crate::proofs::UnseenKinds::is_no_text))]
fn kind_unseen(folder: &str, name: &Blob) -> EntryKind
    ensures { result ≡ kind_unseen folder.now name.now }
{
    let Ok(name) = std::str::from_utf8(name.as_slice()) else {
        return EntryKind::Other;
    };
    if is_too_long(folder, name) {
        EntryKind::TooLong
    } else {
        EntryKind::Other
    }
}

/// Returns whether the path of this name in the folder is longer than the system takes: 4,096 bytes with the zero byte.
/// Two of them are the `/` and the zero byte, so 4,094 are left for folder and name. The definition has the 4,096, and
/// the prover ties them; `cause` of `droid_terminal` and the helps name the 4,095 without the zero byte, as
/// `PATH_LIMIT` of `droid_cmd_identify` has it, and `long_paths.py` of `tests/program/folders` tests it.
fn is_too_long(folder: &str, name: &str) -> bool
    ensures { result ≡ is_too_long folder.now name.now }
{
    name.len() > 4_094_usize.saturating_sub(folder.len()) || folder.len() > 4_094
}

/// Returns the metadata of a name in a folder, or `None` if there are none. Does not ask for names that are not valid
/// UTF-8, or whose paths are longer than the system takes. `place` is where a path is put together. Fails only if
/// memory runs out.
fn look_below<D: Disk>(
    disk: &mut D,
    folder: &str,
    name: &Blob,
    place: &mut String,
) -> Result<Option<FileMetadata>, AllocError>
    ensures { IfOk result (λ found. SaysOfText D.says folder.now name.now found disk.old disk.new) }
{
    let Ok(name) = std::str::from_utf8(name.as_slice()) else {
        return Ok(None);
    };
    if is_too_long(folder, name) {
        return Ok(None);
    }
    let found = disk.look_in(folder, name, place)?;
    Ok(found)
}

/// Puts the path of a name in a folder into `place`, in place of what stood there: the folder's path, `/` and the name.
/// Fails only if memory runs out; nothing is promised of `place` then, and the listing ends.
pub(crate) fn put_path(place: &mut String, folder: &str, name: &str) -> Result<(), AllocError>
    ensures { OnOk result (string_bytes place.new ≡ below folder.now name.now) }
{
    place.clear();
    place.push_str(folder)?;
    place.push_str("/")?;
    place.push_str(name)?;
    Ok(())
}
