//! What a service holds, without its caches: all that its history made.

use crate::limits::Limits;
use crate::unfinished::files::UnfinishedFiles;
use droid_pronom::Registry;
use droid_store::Store;
use std::alloc::Global;

/// What a service holds: what it was made with, its rows and its unfinished files.
pub struct Holdings {
    /// The allocator.
    pub alloc: Global,
    /// The limits of the service.
    pub limits: Limits,
    /// The registry by which files are identified.
    pub registry: Registry,
    /// Profiles, nodes and kept replies.
    pub store: Store,
    /// The pieces of unfinished files.
    pub files: UnfinishedFiles,
}

// Frees its five fields, as a derived `Drop` would. Written by hand, so that the crates above do not prove again how
// each part is dropped. No clause says more.
impl Drop for Holdings {
    fn drop(self) {
        let Holdings {
            alloc: _alloc,
            limits: _limits,
            registry: _registry,
            store: _store,
            files: _files,
        } = self;
    }
}
