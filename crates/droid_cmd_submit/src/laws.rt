//! Laws of what a submission reports. Each is the contract of a function that does nothing.

ghost use Rattle.std.specs.Prelude.{◌≡◌, ◌++◌, List, true};
ghost use Rattle.std.specs.List.{flat_map};
ghost use Rattle.droid_tree.specs.Observation.{GoesOver};
ghost use Rattle.droid_upload.specs.Deeds.{Deed, Does};
ghost use Rattle.droid_upload.specs.declared.upload.Upload.{Upload};
ghost use Rattle.droid_cmd_submit.specs.SkippedEntries.{skipped_by};
ghost use Rattle.droid_terminal.specs.SkippedPaths.{Records};
ghost use Rattle.droid_terminal.specs.declared.skipped.recorder.Recorder.{Recorder};

use droid_tree::{Tree, Watcher};
use droid_upload::Client;

/// States that a recorder that kept all has exactly the entries that were reported as skipped, in order, behind those
/// that it had.
#[tactic(auto, using(crate::proofs::Keeping::all_kept))]
pub fn recorder_keeps_what_was_skipped<T: Tree, C: Client, W: Watcher>()
    ensures { (deeds : List Deed) (old new : Upload T C (Recorder W))
        → GoesOver (Does T.observes C.calls (Records W.hears)) old deeds new → new.watcher.has_all ≡ true
        → (old.watcher.has_all ≡ true)
        × (new.watcher.skipped.items ≡ old.watcher.skipped.items ++ flat_map skipped_by deeds) }
{}
