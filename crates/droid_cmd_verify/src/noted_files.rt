//! A tree whose files are noted as they are listed, and not read.

ghost use Rattle.std.specs.Prelude.{◌≡◌, ◌++◌, IfOk, IsTrue, OnOk, filter};
ghost use Rattle.std.specs.Str.{is_utf8};
ghost use Rattle.droid_cmd_verify.specs.NotedFiles.{NotesEntries, NotesFiles, is_left, is_noted, is_regular};
ghost use Rattle.droid_cmd_verify.specs.NotedFiles.{items_listed, items_of_entry, noted_item};
ghost use Rattle.droid_core_spec.specs.Conditions.{is_moment};
ghost use Rattle.droid_lists.specs.Nodes.{item_of};
ghost use Rattle.droid_frame.specs.declared.hash_value.HashValue.TheVariants as hashes;
ghost use Rattle.droid_frame.specs.declared.node_kind.NodeKind.TheVariants as nodes;
ghost use Rattle.droid_tree.specs.Paths.{below};

use droid_core_spec::is_moment;
use droid_frame::{Blob, HashValue, Item, NodeKind};
use droid_lists::item_of_node;
use droid_tree::{EntryKind, FolderEntry, Tree, TreeFault, name_of, order_of_names};
use std::alloc::{AllocError, Global};

/// A tree whose files are noted as their folders are listed. A walk sees its folders, and the entries that it skips.
#[derive(Drop)]
pub struct NotedFiles<T> {
    /// The whole tree.
    pub tree: T,
    /// The files that were listed, in the order of the listings, those of one listing by name.
    pub files: Vec<Item>,
}

// The trait says what each call does. Only a listing differs: it notes files, and the walk does not see them.
impl<T: Tree> Tree for NotedFiles<T> {
    ghost observes = { λ old observed new. NotesFiles T.observes old observed new };

    fn entries(&mut self, alloc: Global, path: &str) -> Result<Vec<FolderEntry>, TreeFault> {
        let mut entries = self.tree.entries(alloc, path)?;
        match take_files(alloc, &mut self.files, path, &mut entries) {
            Ok(()) => Ok(entries),
            Err(_) => Err(TreeFault::Memory),
        }
    }

    fn see_folder(&mut self, alloc: Global, path: &str) -> Result<(), TreeFault> {
        self.tree.see_folder(alloc, path)
    }

    fn read(
        &mut self,
        path: &str,
        entry: &FolderEntry,
        from: u64,
        wanted: u32,
        bytes: &mut Vec<u8>,
    ) -> Result<(), TreeFault> {
        self.tree.read(path, entry, from, wanted, bytes)
    }
}

/// Notes the files among these entries of the folder at this path, and removes them.
///
/// They are sorted by name first, for speed alone: the names of one folder take less time than whole paths, and the
/// comparison then meets files in order. No clause needs the order. Fails only if memory runs out, as all here: then no
/// listing is returned.
fn take_files(
    alloc: Global,
    files: &mut Vec<Item>,
    path: &str,
    entries: &mut Vec<FolderEntry>,
) -> Result<(), AllocError>
    ensures { OnOk result (NotesEntries path.now entries.old.items files.old.items files.new.items entries.new.items) }
{
    entries.sort_by(|first, second| order_of_names(first.name.as_slice(), second.name.as_slice()))?;
    note_files(alloc, files, path, entries.as_slice())?;
    keep_left(entries);
    Ok(())
}

/// Removes the entries that are noted, and leaves the others to the walk in their order.
fn keep_left(entries: &mut Vec<FolderEntry>)
    ensures { entries.new.items ≡ filter is_left entries.old.items }
{
    entries.retain(|entry| is_left(entry));
}

/// Returns whether an entry is left to the walk: a folder, or what the walk skips with its reason.
fn is_left(entry: &FolderEntry) -> bool
    ensures { result ≡ is_left entry.now }
{
    !is_noted(entry)
}

/// Appends the items of these entries of the folder at this path.
fn note_files(
    alloc: Global,
    files: &mut Vec<Item>,
    path: &str,
    entries: &[FolderEntry],
) -> Result<(), AllocError>
    ensures { OnOk result (files.new.items ≡ files.old.items ++ items_listed path.now entries.now) }
{
    for entry in entries {
        note_file(alloc, files, path, entry)?;
    }
    Ok(())
}

/// Appends the item of an entry, if it is noted.
fn note_file(
    alloc: Global,
    files: &mut Vec<Item>,
    path: &str,
    entry: &FolderEntry,
) -> Result<(), AllocError>
    ensures { OnOk result (files.new.items ≡ files.old.items ++ items_of_entry path.now entry.now) }
{
    if is_noted(entry) {
        let item = noted_item(alloc, path, entry)?;
        files.push(item)?;
    }
    Ok(())
}

/// Returns the item of a file that is noted.
#[tactic(auto, using(crate::proofs::Noting::written))]
fn noted_item(alloc: Global, path: &str, entry: &FolderEntry) -> Result<Item, AllocError>
    requires { IsTrue (is_noted entry.now) }
    ensures { IfOk result (λ item. item ≡ noted_item path.now entry.now) }
{
    let path = path_in(alloc, path, entry.name.as_slice())?;
    let item = item_at(alloc, path, entry)?;
    Ok(item)
}

/// Returns the path of this name in a folder: the folder's path, `/` and the name.
fn path_in(alloc: Global, folder: &str, name: &[u8]) -> Result<Blob, AllocError>
    ensures { IfOk result (λ path. path ≡ below folder.now name.now) }
{
    let room = folder.len().saturating_add(name.len()).saturating_add(1);
    let mut path = Vec::with_capacity(alloc, room)?;
    path.extend_from_slice(folder.as_bytes())?;
    path.push(b'/')?;
    path.extend_from_slice(name)?;
    Ok(Blob::from(path))
}

/// Returns the item of a file at this path, which it takes over: its length and moment, and no hash. There always is
/// one, since its moment can be written.
#[tactic(auto, using(crate::proofs::Moments::moment_written))]
fn item_at(alloc: Global, path: Blob, entry: &FolderEntry) -> Result<Item, AllocError>
    requires { IsTrue (is_moment entry.now.modified) }
    ensures { IfOk result (λ item. item ≡ item_of path nodes.File entry.now.len entry.now.modified hashes.Nothing) }
{
    let kind = NodeKind::File;
    match item_of_node(
        alloc,
        "",
        kind,
        entry.len,
        entry.modified,
        HashValue::Nothing,
    )? {
        Some(item) => Ok(Item {
            path,
            kind: item.kind,
            length: item.length,
            modified: item.modified,
            hash: item.hash,
        }),
        None => unreachable!(),
    }
}

/// Returns whether an entry is noted: a regular file whose name is text and whose moment can be written.
fn is_noted(entry: &FolderEntry) -> bool
    ensures { result ≡ is_noted entry.now }
{
    is_regular(entry.kind) && has_text(entry) && is_moment(entry.modified)
}

/// Returns whether an entry of this kind is a regular file.
fn is_regular(kind: EntryKind) -> bool
    ensures { result ≡ is_regular kind }
{
    match kind {
        EntryKind::Folder => false,
        EntryKind::File => true,
        EntryKind::Link => false,
        EntryKind::Other => false,
        EntryKind::TooLong => false,
    }
}

/// Returns whether the name of an entry is text: UTF-8.
#[tactic(auto, using(crate::proofs::Noting::is_text, crate::proofs::Noting::is_no_text))]
fn has_text(entry: &FolderEntry) -> bool
    ensures { result ≡ is_utf8 entry.now.name }
{
    match name_of(entry) {
        Some(_) => true,
        None => false,
    }
}
