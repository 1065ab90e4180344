//! Opens the files of entries and reads on in them; sees that each is still as its folder listed it.

ghost use Rattle.std.specs.Prelude.{◌≡◌, ◌≢◌, ◌↔◌, ◌⊎◌, ◌<◌, ◌++◌, ◌∷◌, [], None, Some, IfErr, IfOk, IsFalse, IsTrue};
ghost use Rattle.std.specs.Prelude.{OnErr, OnOk, length, slice_index_or};
ghost use Rattle.droid_tree.specs.declared.fault.TreeFault.TheVariants.{Memory, Unreadable, Changed};
ghost use Rattle.droid_disk.specs.FolderObservation.{FindsOther, IsNotListed, IsUnopened, OpensAt, OpensNone};
ghost use Rattle.droid_disk.specs.FolderObservation.{OpensOther, Reaches};
ghost use Rattle.droid_disk.specs.Given.{EndsAsOther, IsAsListed, ReadsOn};
ghost use Rattle.droid_disk.specs.OpenFiles.{Unseen, held, shows_end, with_room, without};
ghost use Rattle.droid_disk.specs.Said.{GaveNone};

use crate::disk::{Disk, FileMetadata};
use crate::folder::{kept, place_of};
use crate::open_files::{close, make_room, place_in};
use droid_frame::Text;
use droid_tree::{EntryKind, FolderEntry, TreeFault};

/// Returns the place in `files` of the file of an entry, at the path that `top` and `path` make. Opens it if it is read
/// from its first byte on, that is, if `from` is 0. Fails with `Unreadable` if it can't be opened or is not open, with
/// `Changed` if what is there is not as it was listed.
pub(crate) fn place_for<D: Disk>(
    disk: &mut D,
    files: &mut Vec<D::File>,
    top: &str,
    path: &str,
    entry: &FolderEntry,
    from: u64,
) -> Result<usize, TreeFault>
    ensures within { IfOk result (λ place. place < length files.new.items) }
    ensures reached { IfOk result (λ place. (file : D.File) × (file ≡ slice_index_or files.new.items place file)
        × Reaches D.says D.path_of D.metadata_of (top.now ++ path.now) entry.now from files.old.items files.new.items
        file disk.old disk.new) }
    ensures unread { IfErr result (λ fault.
        fault ≡ Unreadable
        → IsUnopened D.says D.path_of (top.now ++ path.now) entry.now from files.old.items files.new.items disk.old
        disk.new) }
    ensures other { IfErr result (λ fault.
        fault ≡ Changed
        → IsNotListed D.says D.path_of D.metadata_of (top.now ++ path.now) entry.now from files.old.items
        files.new.items disk.old disk.new) }
    ensures left { IfErr result (λ fault. fault ≢ Memory → D.is_inside disk.new → ⊥) }
{
    if from == 0 {
        let place = begin(disk, files, top, path, entry)?;
        return Ok(place);
    }
    let place = find(disk, files.as_slice(), top, path, entry)?;
    Ok(place)
}

/// Opens the file of an entry, in the place of what was open by its path, and returns its place, the last one. If eight
/// files are open, the one that was opened longest ago is closed for it, even if the opening then fails. Fails as
/// `open_at` does, or with `Memory`.
fn begin<D: Disk>(
    disk: &mut D,
    files: &mut Vec<D::File>,
    top: &str,
    path: &str,
    entry: &FolderEntry,
) -> Result<usize, TreeFault>
    ensures within { IfOk result (λ place. place < length files.new.items) }
    ensures opened { IfOk result (λ place. (file : D.File) × (file ≡ slice_index_or files.new.items place file)
        × (D.path_of file ≡ top.now ++ path.now)
        × OpensAt D.says (top.now ++ path.now) entry.now (D.metadata_of file) disk.old disk.new
        × (files.new.items ≡ with_room (without D.path_of (top.now ++ path.now) files.old.items) ++ file ∷ [])) }
    ensures room { IfErr result (λ fault.
        fault ≢ Memory → files.new.items ≡ with_room (without D.path_of (top.now ++ path.now) files.old.items)) }
    ensures failed { IfErr result (λ fault.
        fault ≡ Unreadable → OpensNone D.says (top.now ++ path.now) entry.now disk.old disk.new) }
    ensures other { IfErr result (λ fault.
        fault ≡ Changed
        → FindsOther D.says (top.now ++ path.now) entry.now disk.old disk.new
        ⊎ OpensOther D.says (top.now ++ path.now) entry.now disk.old disk.new) }
    ensures left { IfErr result (λ fault. fault ≢ Memory → D.is_inside disk.new → ⊥) }
{
    let alloc = *files.allocator();
    close::<D>(files, top, path);
    make_room(files);
    let place = kept(place_of(alloc, top, path))?;
    let file = open_at(disk, place, entry)?;
    let last = files.len();
    match files.push(file) {
        Ok(()) => Ok(last),
        Err(_) => Err(TreeFault::Memory),
    }
}

/// Returns the place of the file of an entry, which is to be open. Asks the file system nothing. Fails with
/// `Unreadable` if no file is open by its path, with `Changed` if that was listed as another entry.
fn find<D: Disk>(
    disk: &mut D,
    files: &[D::File],
    top: &str,
    path: &str,
    entry: &FolderEntry,
) -> Result<usize, TreeFault>
    ensures within { IfOk result (λ place. place < length files.now) }
    ensures held { IfOk result (λ place. (file : D.File) × (file ≡ slice_index_or files.now place file)
        × (held D.path_of (top.now ++ path.now) files.now ≡ Some file) × IsAsListed entry.now (D.metadata_of file)) }
    ensures unasked { OnOk result (disk.new ≡ disk.old) }
    ensures none { IfErr result (λ fault. fault ≡ Unreadable → held D.path_of (top.now ++ path.now) files.now ≡ None) }
    ensures other { IfErr result (λ fault.
        fault ≡ Changed
        → (file : D.File) × (held D.path_of (top.now ++ path.now) files.now ≡ Some file)
        × (IsAsListed entry.now (D.metadata_of file) → ⊥)) }
    ensures unseen { OnErr result (Unseen D.says disk.old disk.new) }
    ensures left { OnErr result (D.is_inside disk.new → ⊥) }
{
    let Some(place) = place_in::<D>(files, top, path) else {
        disk.leave();
        return Err(TreeFault::Unreadable);
    };
    if is_as_listed(D::metadata(&files[place]), entry) {
        return Ok(place);
    }
    disk.leave();
    Err(TreeFault::Changed)
}

/// Opens the regular file of an entry. Opens nothing else, such as a pipe or a link: `Unreadable`. Fails with `Changed`
/// if a regular file is at the path that is not as it was listed, or if what was opened is not.
fn open_at<D: Disk>(disk: &mut D, path: Text, entry: &FolderEntry) -> Result<D::File, TreeFault>
    ensures path { IfOk result (λ file. D.path_of file ≡ path) }
    ensures opened { IfOk result (λ file. OpensAt D.says path entry.now (D.metadata_of file) disk.old disk.new) }
    ensures failed { IfErr result (λ fault. fault ≡ Unreadable → OpensNone D.says path entry.now disk.old disk.new) }
    ensures other { IfErr result (λ fault.
        fault ≡ Changed
        → FindsOther D.says path entry.now disk.old disk.new ⊎ OpensOther D.says path entry.now disk.old disk.new) }
    ensures left { D.is_inside disk.new → ⊥ }
{
    let Some(there) = disk.look(path.as_str()) else {
        return Err(TreeFault::Unreadable);
    };
    if !is_file(there) {
        return Err(TreeFault::Unreadable);
    }
    if !is_as_listed(there, entry) {
        return Err(TreeFault::Changed);
    }
    let file = disk.open(path)?;
    if is_as_listed(D::metadata(&file), entry) {
        Ok(file)
    } else {
        Err(TreeFault::Changed)
    }
}

/// Appends up to `wanted` bytes of an open file from offset `from` to `bytes`. If that shows its end, looks at it once
/// more: it returns true if the file is still as it was listed, and fails with `Changed` otherwise, also if it can't be
/// looked at. Fails as `Disk::read_at` does, too. After an error nothing is promised of `bytes`.
pub(crate) fn read_on<D: Disk>(
    disk: &mut D,
    file: &D::File,
    entry: &FolderEntry,
    from: u64,
    wanted: u32,
    bytes: &mut Vec<u8>,
) -> Result<bool, TreeFault>
    ensures read { IfOk result (λ ended.
        ReadsOn D.says (D.path_of file.now) (D.metadata_of file.now) entry.now from wanted bytes.old.items
        bytes.new.items ended disk.old disk.new) }
    ensures failed { IfErr result (λ fault.
        fault ≡ Unreadable
        → D.says disk.old (GaveNone (D.path_of file.now) (D.metadata_of file.now) from wanted) disk.new) }
    ensures other { IfErr result (λ fault.
        fault ≡ Changed
        → EndsAsOther D.says (D.path_of file.now) (D.metadata_of file.now) entry.now from wanted disk.old disk.new) }
    ensures left { D.is_inside disk.new → ⊥ }
{
    let before = bytes.len();
    disk.read_at(file, from, wanted, bytes)?;
    let count = bytes.len().saturating_sub(before);
    if !shows_end(entry.len, from, wanted, count) {
        return Ok(false);
    }
    match disk.look_again(file) {
        Some(now) => {
            if is_as_listed(now, entry) {
                Ok(true)
            } else {
                Err(TreeFault::Changed)
            }
        }
        None => Err(TreeFault::Changed),
    }
}

/// Returns whether a read of `wanted` bytes from this offset, which returned `count` bytes, shows the end of a file
/// that was listed with the length `len`: fewer came than were asked for, or more than were left. A read that ends just
/// at `len` does not show it.
fn shows_end(len: u64, from: u64, wanted: u32, count: usize) -> bool
    ensures { result ≡ shows_end len from wanted count }
{
    count < wanted as usize || len.saturating_sub(from) < count as u64
}

/// Returns whether what has these metadata is a regular file, and as it was listed as this entry: one file, its length
/// and its times.
fn is_as_listed(found: FileMetadata, entry: &FolderEntry) -> bool
    ensures same { IsTrue result → IsAsListed entry.now found }
    ensures other { IsFalse result → IsAsListed entry.now found → ⊥ }
{
    is_file(found) && is_that_file(found, entry) && has_those_times(found, entry)
}

/// Returns whether it is the file that was listed, by device and inode, and as long.
fn is_that_file(found: FileMetadata, entry: &FolderEntry) -> bool
    ensures { IsTrue result
        ↔ (found.device ≡ entry.now.device) × (found.inode ≡ entry.now.inode) × (found.len ≡ entry.now.len) }
{
    if found.device != entry.device {
        return false;
    }
    if found.inode != entry.inode {
        return false;
    }
    found.len == entry.len
}

/// Returns whether its times are those of the listing, to the nanosecond: of its bytes, and of its bytes, name or
/// rights.
fn has_those_times(found: FileMetadata, entry: &FolderEntry) -> bool
    ensures { IsTrue result
        ↔ (found.modified ≡ entry.now.modified) × (found.modified_nanos ≡ entry.now.modified_nanos)
        × (found.changed ≡ entry.now.changed) × (found.changed_nanos ≡ entry.now.changed_nanos) }
{
    if found.modified != entry.modified {
        return false;
    }
    if found.modified_nanos != entry.modified_nanos {
        return false;
    }
    if found.changed != entry.changed {
        return false;
    }
    found.changed_nanos == entry.changed_nanos
}

/// Returns whether these are the metadata of a regular file. A link is none, even if it leads to one.
fn is_file(found: FileMetadata) -> bool
    ensures file { IsTrue result → found.kind ≡ EntryKind.File }
    ensures other { IsFalse result → found.kind ≡ EntryKind.File → ⊥ }
{
    match found.kind {
        EntryKind::File => true,
        EntryKind::Folder => false,
        EntryKind::Link => false,
        EntryKind::Other => false,
        EntryKind::TooLong => false,
    }
}
