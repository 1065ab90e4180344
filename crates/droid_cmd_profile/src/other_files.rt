//! A tree without the files that the command itself writes in it.

ghost use Rattle.std.specs.Prelude.{◌≡◌, filter};
ghost use Rattle.droid_cmd_profile.specs.OtherFiles.{ObservesOthers, is_one, is_other};

use droid_disk::FileId;
use droid_tree::{FolderEntry, Tree, TreeFault};
use std::alloc::Global;

/// A tree without some of its files: those that the command writes while it walks.
#[derive(Drop)]
pub struct OtherFiles<T> {
    /// The whole tree.
    pub tree: T,
    /// The files that are not listed.
    pub own: Vec<FileId>,
}

// The trait says what each call does. Only a listing differs; the other calls are those of the whole tree.
impl<T: Tree> Tree for OtherFiles<T> {
    ghost observes = { λ old observed new.
        ObservesOthers T.observes old.own.items old.tree observed new.tree × (new.own ≡ old.own) };

    fn entries(&mut self, alloc: Global, path: &str) -> Result<Vec<FolderEntry>, TreeFault> {
        let mut entries = self.tree.entries(alloc, path)?;
        keep_others(&mut entries, self.own.as_slice());
        Ok(entries)
    }

    fn see_folder(&mut self, alloc: Global, path: &str) -> Result<(), TreeFault> {
        self.tree.see_folder(alloc, path)
    }

    fn read(
        &mut self,
        path: &str,
        entry: &FolderEntry,
        from: u64,
        wanted: u32,
        bytes: &mut Vec<u8>,
    ) -> Result<(), TreeFault> {
        self.tree.read(path, entry, from, wanted, bytes)
    }
}

/// Removes the entries of these files from a listing, and leaves the others in their order.
fn keep_others(entries: &mut Vec<FolderEntry>, own: &[FileId])
    ensures { entries.new.items ≡ filter (is_other own.now) entries.old.items }
{
    entries.retain(|entry| is_other(own, entry));
}

/// Returns whether an entry is none of these files, so that it stays in the listing.
#[tactic(auto, using(crate::proofs::OtherEntries::none_more, crate::proofs::OtherEntries::one_at, crate::proofs::OtherEntries::none_at_all))]
fn is_other(own: &[FileId], entry: &FolderEntry) -> bool
    ensures { result ≡ is_other own.now entry.now }
{
    for file in own {
        if is_one(*file, entry) {
            return false;
        }
    }
    true
}

/// Returns whether an entry is this file, whatever its name: it has the same device and inode.
fn is_one(file: FileId, entry: &FolderEntry) -> bool
    ensures { result ≡ is_one file entry.now }
{
    file.device == entry.device && file.inode == entry.inode
}
