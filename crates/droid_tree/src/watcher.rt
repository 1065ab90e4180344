//! The trait for following a walk.

ghost use Rattle.droid_tree.specs.Heard.{Heard, Left, Held, TookBytes, TookFolder, TookFile};

use crate::skip_reason::Skipped;
use droid_frame::Reply;

/// Is informed of what a walk does.
pub trait Watcher {
    /// Relates the state before a call, what the watcher learned, and the state after it. By default it relates
    /// everything.
    ghost hears: { Self → Heard → Self → Type 0 } = { λ old heard new. Unit {0} };

    /// This entry was skipped. Its path may be invalid UTF-8.
    fn skipped(&mut self, path: &[u8], why: Skipped)
        ensures { hears self.old (Left path.now why) self.new };

    /// The first `count` bytes of this file are not read: the service already holds them.
    fn held(&mut self, path: &str, count: u64)
        ensures { hears self.old (Held path.now count) self.new };

    /// The service took `count` more bytes of this file.
    fn took_bytes(&mut self, path: &str, count: u32)
        ensures { hears self.old (TookBytes path.now count) self.new };

    /// This folder is now in the profile.
    fn took_folder(&mut self, path: &str)
        ensures { hears self.old (TookFolder path.now) self.new };

    /// This file is now in the profile. `found` is the reply that finished it.
    fn took_file(&mut self, path: &str, found: &Reply)
        ensures { hears self.old (TookFile path.now found.now) self.new };
}
