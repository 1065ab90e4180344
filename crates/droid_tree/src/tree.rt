//! The trait for reading a tree.

ghost use Rattle.std.specs.Prelude.{◌≡◌, ◌≢◌, IfErr, IfOk, OnOk};
ghost use Rattle.droid_tree.specs.Observation.{Observation, Listed, Unlisted, Opened, Unopened, Unread, Exchanged};
ghost use Rattle.droid_tree.specs.Observation.{BytesCame};
ghost use Rattle.droid_tree.specs.declared.fault.TreeFault.TheVariants as faults;

use crate::fault::TreeFault;
use crate::folder_entry::FolderEntry;
use std::alloc::Global;

/// A tree of folders and files. The top has the empty path. The path of an entry is its folder's path, `/` and its
/// name.
pub trait Tree {
    /// Relates the state before a call, what the call returned, and the state after it.
    ghost observes: { Self → Observation → Self → Type 0 };

    /// Returns the entries of a folder, in any order. A name may be there twice.
    fn entries(&mut self, alloc: Global, path: &str) -> Result<Vec<FolderEntry>, TreeFault>
        ensures listed { IfOk result (λ entries. observes self.old (Listed path.now entries.items) self.new) }
        ensures unlisted { IfErr result (λ fault.
            fault ≢ faults.Memory → observes self.old (Unlisted path.now) self.new) };

    /// Checks that a folder can be listed now, without listing it.
    fn see_folder(&mut self, alloc: Global, path: &str) -> Result<(), TreeFault>
        ensures opened { OnOk result (observes self.old (Opened path.now) self.new) }
        ensures unopened { IfErr result (λ fault.
            fault ≢ faults.Memory → observes self.old (Unopened path.now) self.new) };

    /// Appends up to `wanted` bytes of a file, starting at offset `from`. A read at offset 0 opens the file, and later
    /// ones go on in it. Appends fewer only if the file ends before; then it was looked at once more. `entry` is the
    /// file as its folder listed it. Fails with `Changed` if another file is at the path, or if it was changed since.
    fn read(
        &mut self,
        path: &str,
        entry: &FolderEntry,
        from: u64,
        wanted: u32,
        bytes: &mut Vec<u8>,
    ) -> Result<(), TreeFault>
        ensures came { OnOk result
            (BytesCame observes self.old path.now entry.now from wanted bytes.old.items bytes.new.items self.new) }
        ensures unread { IfErr result (λ fault.
            fault ≡ faults.Unreadable → observes self.old (Unread path.now entry.now from wanted) self.new) }
        ensures exchanged { IfErr result (λ fault.
            fault ≡ faults.Changed → observes self.old (Exchanged path.now entry.now from wanted) self.new) };
}
