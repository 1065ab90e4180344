//! The profile of a tree, with what was skipped: over any tree and any writers, so that it can be proved.

ghost use Rattle.std.specs.Prelude.{◌≡◌, ◌≤◌};
ghost use Rattle.droid_cmd_profile.specs.ProfiledFolders.{ProfilesFolder, fault_in};

use crate::profile_ending::ProfileEnding;
use crate::skipped_file::{SkippedFault, SkippedFile};
use crate::skipped_writer::SkippedWriter;
use droid_frame::SteadyWrite;
use droid_profile::{CsvRecipient, Options, Profiler, write_profile};
use droid_tree::{Tree, Watcher};

/// Profiles a tree: writes its records as CSV, the checksums of its files as a list, and the lines of what is skipped.
/// Returns how that ended; a writer is left as far as it came. The limit that it requires is `MOST_SCANNED` of
/// `walk_options.rt`.
pub fn profile_tree<T: Tree, W: Watcher, S: SteadyWrite, O: SteadyWrite, M: SteadyWrite>(
    profiler: &mut Profiler<T, SkippedWriter<W, S>, CsvRecipient<'_, O, M>>,
    options: Options,
) -> ProfileEnding
    requires { options.scan_limit ≤ 65536 }
    // All that `write_profile` promises. The lines of the skipped entries of which the watcher was informed were
    // written, or the file for them has a fault. The ending is that of both.
    ensures { ProfilesFolder T.observes W.hears S.contents S.seen S.room O.contents O.seen O.room M.contents M.seen
        M.room options result profiler.old profiler.new }
{
    let ended = write_profile(profiler, options);
    let unlisted = fault_of(&profiler.watcher.file);
    ProfileEnding::of(ended, unlisted)
}

/// Returns the fault of the file for what was skipped, if there is such a file and it has one.
fn fault_of<S>(file: &Option<SkippedFile<S>>) -> Option<SkippedFault>
    ensures { result ≡ fault_in file.now }
{
    match file {
        Some(file) => file.fault,
        None => None,
    }
}
