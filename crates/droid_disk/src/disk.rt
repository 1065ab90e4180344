//! The file system calls that reading a tree needs.

ghost use Rattle.std.specs.Prelude.{◌≡◌, ◌≢◌, ◌++◌, ℕ, List, IfErr, IfOk, OnOk};
ghost use Rattle.std.specs.Str.{bytes_eq};

use droid_frame::{Blob, Text};
use droid_tree::{EntryKind, TreeFault};
use std::alloc::{AllocError, Global};

/// What a file system says of a path.
#[derive(Clone, Copy)]
pub struct FileMetadata {
    /// The type of the entry.
    pub kind: EntryKind,
    /// When its bytes were last changed, in seconds since 1970-01-01T00:00:00 UTC. Negative for earlier times.
    pub modified: i64,
    /// The nanoseconds of the second in `modified`.
    pub modified_nanos: u32,
    /// When its bytes, its name or its rights were last changed (ctime), in seconds since 1970-01-01T00:00:00 UTC.
    pub changed: i64,
    /// The nanoseconds of the second in `changed`.
    pub changed_nanos: u32,
    /// The length in bytes.
    pub len: u64,
    /// The device.
    pub device: u64,
    /// The number on that device.
    pub inode: u64,
}

/// A file system.
pub trait Disk {
    ghost use Rattle.droid_disk.specs.Said.{Said, Names, NoNames, FolderOpened, FolderNotOpened, Looked, Opened};
    ghost use Rattle.droid_disk.specs.Said.{NotOpened, GaveNone, Seen};
    ghost use Rattle.droid_disk.specs.Given.{Gives};
    ghost use Rattle.droid_disk.specs.OpenFiles.{Unseen};
    ghost use Rattle.droid_disk.specs.declared.disk.FileMetadata.{FileMetadata};
    ghost use Rattle.droid_tree.specs.Paths.{below};
    ghost use Rattle.droid_tree.specs.declared.fault.TreeFault.TheVariants.{Memory, Unreadable, Changed};

    /// A file that is open for reading.
    type File: Drop;

    /// Relates the state before a call, what the file system said, and the state after it.
    ghost says: { Self → Said → Self → Type 0 };

    /// The process's working folder is the folder that was listed last.
    ghost is_inside: { Self → Type 0 };

    /// The path by which a file was opened.
    ghost path_of: { Self.File → List ℕ };

    /// The metadata of an open file, taken when it was opened.
    ghost metadata_of: { Self.File → FileMetadata };

    /// Returns the names in a folder, in any order, without `.` and `..`. Fails for a link to a folder, unless the path
    /// ends in `/`. That folder may become the process's working folder, until [`Disk::leave`] is called.
    fn names(&mut self, alloc: Global, path: &str) -> Result<Vec<Blob>, TreeFault>
        ensures says { IfOk result (λ names. says self.old (Names path.now names.items) self.new) }
        ensures failed { IfErr result (λ fault. fault ≢ Memory → says self.old (NoNames path.now) self.new) };

    /// Returns the metadata of a name in a folder, or `None` if there are none. Does not follow links. If a path is
    /// needed, it is put together in `place`, whatever stood there.
    fn look_in(
        &mut self,
        folder: &str,
        name: &str,
        place: &mut String,
    ) -> Result<Option<FileMetadata>, AllocError>
        ensures { IfOk result (λ found. says self.old (Looked (below folder.now name.now) found) self.new) };

    /// Makes the folder in which the process was started its working folder again.
    fn leave(&mut self)
        ensures left { is_inside self.new → ⊥ }
        ensures unseen { Unseen says self.old self.new };

    /// Opens a folder for listing, and closes it again. Fails for a link to a folder, unless the path ends in `/`.
    fn see_folder(&mut self, path: &str) -> Result<(), TreeFault>
        ensures opened { OnOk result (says self.old (FolderOpened path.now) self.new) }
        ensures failed { IfErr result (λ fault. fault ≢ Memory → says self.old (FolderNotOpened path.now) self.new) }
        ensures left { is_inside self.new → ⊥ };

    /// Returns the metadata of a path, or `None` if there are none. Does not follow links.
    fn look(&mut self, path: &str) -> Option<FileMetadata>
        ensures says { says self.old (Looked path.now result) self.new }
        ensures left { is_inside self.new → ⊥ };

    /// Opens a file for reading. Takes the path over.
    fn open(&mut self, path: Text) -> Result<Self::File, TreeFault>
        ensures says { IfOk result (λ file. says self.old (Opened path (metadata_of file)) self.new) }
        ensures path { IfOk result (λ file. path_of file ≡ path) }
        ensures failed { IfErr result (λ fault. fault ≡ Unreadable → says self.old (NotOpened path) self.new) }
        ensures known { IfErr result (λ fault. fault ≢ Changed) }
        ensures left { is_inside self.new → ⊥ };

    /// Returns the metadata of an open file, taken when it was opened.
    fn metadata(file: &Self::File) -> FileMetadata
        ensures { result ≡ metadata_of file.now };

    /// Returns whether the file was opened by the path that these two make.
    fn is_at(file: &Self::File, top: &str, path: &str) -> bool
        ensures { result ≡ bytes_eq (path_of file.now) (top.now ++ path.now) };

    /// Appends up to `wanted` bytes of an open file, starting at offset `from`. Appends fewer only if the file ends
    /// before.
    fn read_at(
        &mut self,
        file: &Self::File,
        from: u64,
        wanted: u32,
        bytes: &mut Vec<u8>,
    ) -> Result<(), TreeFault>
        ensures gave { OnOk result
            (Gives says self.old (path_of file.now) (metadata_of file.now) from wanted bytes.old.items bytes.new.items
            self.new) }
        ensures failed { IfErr result (λ fault.
            fault ≡ Unreadable
            → says self.old (GaveNone (path_of file.now) (metadata_of file.now) from wanted) self.new) }
        ensures known { IfErr result (λ fault. fault ≢ Changed) }
        ensures left { is_inside self.new → ⊥ };

    /// Returns the metadata that an open file has now, or `None` if they can't be read.
    fn look_again(&mut self, file: &Self::File) -> Option<FileMetadata>
        ensures says { says self.old (Seen (path_of file.now) (metadata_of file.now) result) self.new }
        ensures left { is_inside self.new → ⊥ };
}
