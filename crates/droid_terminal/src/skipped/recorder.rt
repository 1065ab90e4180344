//! A watcher that keeps what a walk skips.

ghost use Rattle.std.specs.Prelude.{◌≡◌, ◌++◌, [], ◌∷◌, true, OnOk};
ghost use Rattle.droid_terminal.specs.SkippedPaths.{Records};

use crate::skipped::skipped_entry::SkippedEntry;
use droid_frame::{Blob, Reply};
use droid_tree::{Skipped, Watcher};
use std::alloc::{AllocError, Global};

/// A watcher that hands everything to another one, and keeps each skipped entry.
#[derive(Drop)]
pub struct Recorder<W> {
    /// The allocator.
    pub alloc: Global,
    /// The other watcher.
    pub watcher: W,
    /// The skipped entries, in the order in which they were reported.
    pub skipped: Vec<SkippedEntry>,
    /// Whether all of them are kept. False after memory ran out.
    pub has_all: bool,
}

impl<W> Recorder<W> {
    /// Wraps this watcher, with nothing skipped so far. Takes no memory.
    pub fn new(alloc: Global, watcher: W) -> Recorder<W>
        ensures watcher { result.watcher ≡ watcher }
        ensures none { result.skipped.items ≡ [] }
        ensures all { result.has_all ≡ true }
    {
        Recorder {
            alloc,
            watcher,
            skipped: Vec::new(alloc),
            has_all: true,
        }
    }
}

// `Watcher` says when each is called. `skipped` keeps the entry too, and then passes it on: no clause needs that order.
// The others only pass on what they get.
impl<W: Watcher> Watcher for Recorder<W> {
    ghost hears = { Records W.hears };

    fn skipped(&mut self, path: &[u8], why: Skipped) {
        if keep(self.alloc, &mut self.skipped, path, why).is_err() {
            self.has_all = false;
        }
        self.watcher.skipped(path, why);
    }

    fn held(&mut self, path: &str, count: u64) {
        self.watcher.held(path, count);
    }

    fn took_bytes(&mut self, path: &str, count: u32) {
        self.watcher.took_bytes(path, count);
    }

    fn took_folder(&mut self, path: &str) {
        self.watcher.took_folder(path);
    }

    fn took_file(&mut self, path: &str, found: &Reply) {
        self.watcher.took_file(path, found);
    }
}

/// Appends a skipped entry. Fails only if memory runs out; nothing is promised of the list then, and the recorder notes
/// in `has_all` that it is not whole.
fn keep(
    alloc: Global,
    skipped: &mut Vec<SkippedEntry>,
    path: &[u8],
    why: Skipped,
) -> Result<(), AllocError>
    ensures { OnOk result (skipped.new.items ≡ skipped.old.items ++ record { path = path.now; why = why } ∷ []) }
{
    let path = Blob::copy_of(alloc, path)?;
    skipped.push(SkippedEntry { path, why })?;
    Ok(())
}
