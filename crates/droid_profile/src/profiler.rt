//! What a profile is made with.

use std::alloc::Global;

/// All that a profile is made with: a tree, a watcher and a recipient.
#[derive(Drop)]
pub struct Profiler<T, W, R> {
    /// The allocator.
    pub alloc: Global,
    /// The tree that is read.
    pub tree: T,
    /// Is informed of what comes of each entry, and of bytes that are read.
    pub watcher: W,
    /// Takes the records.
    pub recipient: R,
}
