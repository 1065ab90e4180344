//! The tree of the pages' examples, in memory, and a watcher that notes nothing.

ghost use Rattle.std.specs.Prelude.{◌≡◌, ◌≤◌, IfErr, OnOk, length};
ghost use Rattle.droid_tree.specs.Observation.{BytesCame};
ghost use Rattle.droid_tree.specs.declared.fault.TreeFault.TheVariants as faults;

use droid_frame::{Blob, Reply};
use droid_tree::{EntryKind, FolderEntry, Skipped, Tree, TreeFault, Watcher};
use std::alloc::{AllocError, Global};

/// The files: their names and bytes. The inode of a file is its index.
const FILES: &[(&str, &str)] = &[("a.txt", "Hello"), ("b.txt", "abc")];

#[derive(Drop)]
pub struct PageTree;

impl Tree for PageTree {
    ghost observes = { λ old observed new. Unit {0} };

    fn entries(&mut self, alloc: Global, _path: &str) -> Result<Vec<FolderEntry>, TreeFault> {
        match entries_of(alloc, FILES) {
            Ok(entries) => Ok(entries),
            Err(_) => Err(TreeFault::Memory),
        }
    }

    fn see_folder(&mut self, _alloc: Global, _path: &str) -> Result<(), TreeFault> {
        Ok(())
    }

    fn read(
        &mut self,
        _path: &str,
        entry: &FolderEntry,
        from: u64,
        wanted: u32,
        bytes: &mut Vec<u8>,
    ) -> Result<(), TreeFault>
        ensures came { OnOk result
            (BytesCame (λ old observed new. Unit {0}) self.old _path.now entry.now from wanted bytes.old.items
            bytes.new.items self.new) }
        ensures unread { IfErr result (λ fault. fault ≡ faults.Unreadable → Unit {0}) }
        ensures exchanged { IfErr result (λ fault. fault ≡ faults.Changed → Unit {0}) }
    {
        let Some((_, all)) = FILES.get(entry.inode as usize) else {
            return Err(TreeFault::Unreadable);
        };
        match bytes.extend_from_slice(cut(all.as_bytes(), from, wanted)) {
            Ok(()) => Ok(()),
            Err(_) => Err(TreeFault::Memory),
        }
    }
}

fn cut(all: &[u8], from: u64, wanted: u32) -> &[u8]
    ensures { length result.now ≤ wanted }
{
    let from = (from as usize).min(all.len());
    let rest = &all[from..];
    &rest[..rest.len().min(wanted as usize)]
}

fn entries_of(
    alloc: Global,
    files: &[(&'static str, &'static str)],
) -> Result<Vec<FolderEntry>, AllocError> {
    let mut entries = Vec::new(alloc);
    for (index, (name, bytes)) in files.iter().enumerate() {
        entries.push(entry_of(alloc, name, bytes, index as u64)?)?;
    }
    Ok(entries)
}

/// Makes the entry of a file.
pub fn entry_of(
    alloc: Global,
    name: &str,
    bytes: &str,
    inode: u64,
) -> Result<FolderEntry, AllocError> {
    Ok(FolderEntry {
        name: Blob::copy_of(alloc, name.as_bytes())?,
        kind: EntryKind::File,
        modified: 0,
        modified_nanos: 0,
        changed: 0,
        changed_nanos: 0,
        len: bytes.len() as u64,
        device: 1,
        inode,
    })
}

#[derive(Drop)]
pub struct Unwatched;

impl Watcher for Unwatched {
    fn skipped(&mut self, _path: &[u8], _why: Skipped) {}

    fn held(&mut self, _path: &str, _count: u64) {}

    fn took_bytes(&mut self, _path: &str, _count: u32) {}

    fn took_folder(&mut self, _path: &str) {}

    fn took_file(&mut self, _path: &str, _found: &Reply) {}
}
