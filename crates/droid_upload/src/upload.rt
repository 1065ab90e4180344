//! What an upload works with.

use droid_frame::HashKind;
use droid_hash::Finding;
use std::alloc::Global;

/// All that an upload works with: a tree, a client and a watcher.
#[derive(Drop)]
pub struct Upload<T, C, W> {
    /// The allocator.
    pub alloc: Global,
    /// The tree that is read.
    pub tree: T,
    /// The client of the service.
    pub client: C,
    /// Is informed of each step.
    pub watcher: W,
}

/// The folder of a profile that gets a file, and how the file is sent.
#[derive(Clone, Copy)]
pub struct Destination {
    /// The number of the profile.
    pub profile: u32,
    /// The number of the folder, or 0 for the top.
    pub folder: u32,
    /// How many bytes each piece has, except the last.
    pub piece_size: u32,
    /// The kind of the profile's hashes.
    pub hash: HashKind,
    /// Whether a file that was finished before is read again, and its hash compared.
    pub check: bool,
}

/// A file that is in the profile.
#[derive(Clone, Copy)]
pub struct UploadedFile {
    /// The number of the file.
    pub number: u32,
    /// What the reply that finished it says.
    pub found: Finding,
    /// Whether all of it was read in this run.
    pub is_read: bool,
}

/// The outcome of a file.
#[derive(Clone, Copy)]
pub enum Uploaded {
    /// It is in the profile.
    Taken(UploadedFile),
    /// It is in the profile, with another hash than the bytes have that were read.
    Differs(UploadedFile),
    /// It was skipped, and the watcher knows why.
    Skipped,
}
