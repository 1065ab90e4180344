//! An entry of a folder, as the tree returns it.

use droid_frame::Blob;

/// The type of an entry.
#[derive(Clone, Copy, PartialEq, Eq)]
pub enum EntryKind {
    /// A folder.
    Folder,
    /// A regular file.
    File,
    /// A symbolic link.
    Link,
    /// Anything else, such as a socket or a device.
    Other,
    /// What it is can't be asked: its path is longer than the system takes.
    TooLong,
}

/// An entry of a folder.
#[derive(Drop)]
pub struct FolderEntry {
    /// The name without the path. It may be invalid UTF-8.
    pub name: Blob,
    /// The type of the entry.
    pub kind: EntryKind,
    /// When its bytes were last changed, in seconds since 1970-01-01T00:00:00 UTC. Negative for earlier times.
    pub modified: i64,
    /// The nanoseconds of the second in `modified`.
    pub modified_nanos: u32,
    /// When its bytes, its name or its rights were last changed (ctime), in seconds since 1970-01-01T00:00:00 UTC.
    pub changed: i64,
    /// The nanoseconds of the second in `changed`.
    pub changed_nanos: u32,
    /// The length in bytes, if it is a file.
    pub len: u64,
    /// The number of the device that it lies on.
    pub device: u64,
    /// Its number on this device. Device and inode tell a file from every other.
    pub inode: u64,
}
