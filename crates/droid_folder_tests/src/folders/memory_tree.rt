//! Trees in memory.

ghost use Rattle.std.specs.Prelude.{◌≡◌, ◌≤◌, IfErr, OnOk, length};
ghost use Rattle.droid_tree.specs.Observation.{BytesCame};
ghost use Rattle.droid_tree.specs.declared.fault.TreeFault.TheVariants as faults;

use droid_frame::Blob;
use droid_tree::{EntryKind, FolderEntry, Tree, TreeFault};
use std::alloc::{AllocError, Global};

/// An entry: its folder's path, its name, its type, the length that the folder lists, and its bytes, or `None` if it is
/// unreadable.
pub type Row<'a> = (&'a str, &'a [u8], EntryKind, u64, Option<&'a [u8]>);

/// A tree of such rows. A folder lists its entries in the order of the rows. The inode of an entry is the index of its
/// row.
#[derive(Drop)]
pub struct MemoryTree<'a> {
    rows: &'a [Row<'a>],
}

impl<'a> MemoryTree<'a> {
    pub fn of(rows: &'a [Row<'a>]) -> MemoryTree<'a> {
        MemoryTree { rows }
    }
}

impl Tree for MemoryTree<'_> {
    ghost observes = { λ old observed new. Unit {0} };

    fn entries(&mut self, alloc: Global, path: &str) -> Result<Vec<FolderEntry>, TreeFault> {
        self.see_folder(alloc, path)?;
        match entries_below(alloc, self.rows, path) {
            Ok(entries) => Ok(entries),
            Err(_) => Err(TreeFault::Memory),
        }
    }

    fn see_folder(&mut self, _alloc: Global, path: &str) -> Result<(), TreeFault> {
        if is_sealed(self.rows, path) {
            return Err(TreeFault::Unreadable);
        }
        Ok(())
    }

    fn read(
        &mut self,
        _path: &str,
        entry: &FolderEntry,
        from: u64,
        wanted: u32,
        bytes: &mut Vec<u8>,
    ) -> Result<(), TreeFault>
        ensures came { OnOk result
            (BytesCame (λ old observed new. Unit {0}) self.old _path.now entry.now from wanted bytes.old.items
            bytes.new.items self.new) }
        ensures unread { IfErr result (λ fault. fault ≡ faults.Unreadable → Unit {0}) }
        ensures exchanged { IfErr result (λ fault. fault ≡ faults.Changed → Unit {0}) }
    {
        let Some((_, _, _, _, Some(all))) = self.rows.get(entry.inode as usize) else {
            return Err(TreeFault::Unreadable);
        };
        let part = cut(all, from, wanted);
        match bytes.extend_from_slice(part) {
            Ok(()) => Ok(()),
            Err(_) => Err(TreeFault::Memory),
        }
    }
}

fn cut(all: &[u8], from: u64, wanted: u32) -> &[u8]
    ensures { length result.now ≤ wanted }
{
    let from = (from as usize).min(all.len());
    let rest = &all[from..];
    &rest[..rest.len().min(wanted as usize)]
}

/// Returns whether the folder at this path is unreadable. Only those at the top are.
fn is_sealed(rows: &[Row], path: &str) -> bool {
    let Some(name) = path.strip_prefix('/') else {
        return false;
    };
    for row in rows {
        if row.0.is_empty() && row.1 == name.as_bytes() && row.4.is_none() {
            return true;
        }
    }
    false
}

fn entries_below(alloc: Global, rows: &[Row], path: &str) -> Result<Vec<FolderEntry>, AllocError> {
    let mut entries = Vec::new(alloc);
    for (index, row) in rows.iter().enumerate() {
        if row.0 == path {
            let entry = FolderEntry {
                name: Blob::copy_of(alloc, row.1)?,
                kind: row.2,
                modified: 0,
                modified_nanos: 0,
                changed: 0,
                changed_nanos: 0,
                len: row.3,
                device: 1,
                inode: index as u64,
            };
            entries.push(entry)?;
        }
    }
    Ok(entries)
}
