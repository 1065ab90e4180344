//! A watcher that writes what is skipped to a file as it is reported.

ghost use Rattle.droid_tree.specs.Heard.{Left};
ghost use Rattle.droid_cmd_profile.specs.SkippedFiles.{Notes, NotesInSome};

use crate::skipped_file::SkippedFile;
use droid_frame::{Reply, SteadyWrite};
use droid_tree::{Skipped, Watcher};
use std::alloc::Global;

/// A watcher that hands everything to another one, and writes the line of each skipped entry to a file.
#[derive(Drop)]
pub struct SkippedWriter<W, S> {
    /// The allocator.
    pub alloc: Global,
    /// The other watcher.
    pub watcher: W,
    /// The file, if there is one.
    pub file: Option<SkippedFile<S>>,
}

// `Watcher` says when each is called. `skipped` writes a line too, and then passes the entry on: no clause needs that
// order. The others only pass on what they get.
impl<W: Watcher, S: SteadyWrite> Watcher for SkippedWriter<W, S> {
    ghost hears = { Notes S.contents S.seen S.room W.hears };

    fn skipped(&mut self, path: &[u8], why: Skipped) {
        note(self.alloc, &mut self.file, path, why);
        self.watcher.skipped(path, why);
    }

    fn held(&mut self, path: &str, count: u64) {
        self.watcher.held(path, count);
    }

    fn took_bytes(&mut self, path: &str, count: u32) {
        self.watcher.took_bytes(path, count);
    }

    fn took_folder(&mut self, path: &str) {
        self.watcher.took_folder(path);
    }

    fn took_file(&mut self, path: &str, found: &Reply) {
        self.watcher.took_file(path, found);
    }
}

/// Writes the line of a skipped entry, if there is a file for it. A fault is noted in the file.
fn note<S: SteadyWrite>(alloc: Global, file: &mut Option<SkippedFile<S>>, path: &[u8], why: Skipped)
    ensures { NotesInSome S.contents S.seen S.room file.old (Left path.now why) file.new }
{
    match file {
        Some(file) => file.add(alloc, path, why),
        None => {}
    }
}
