//! Profiles a tree into a CSV and a list of checksums, up to the last bytes that are pending.

ghost use Rattle.std.specs.Prelude.{◌≡◌, ◌≤◌, IfErr, IfOk};
ghost use Rattle.droid_frame.specs.Seen.{IsSound};
ghost use Rattle.droid_frame.specs.declared.io.stream_fault.WriteFault.{WriteFault};
ghost use Rattle.droid_profile.specs.declared.fault.ProfileFault.TheVariants as walk_faults;
ghost use Rattle.droid_profile.specs.declared.recipient.RecipientFault.TheVariants as recipient_faults;
ghost use Rattle.droid_profile.specs.Taking.{EndsRest, stopped_writer};
ghost use Rattle.droid_profile.specs.WrittenTrees.{EndsWriting, Explains, ReportsCsv, ReportsList, WritesTree};

use crate::csv_fault::CsvFault;
use crate::csv_recipient::CsvRecipient;
use crate::fault::ProfileFault;
use crate::options::Options;
use crate::profiler::Profiler;
use crate::recipient::RecipientFault;
use crate::tree_profile::profile;
use droid_frame::SteadyWrite;
use droid_tree::{Tree, Watcher};

/// Profiles a tree, and writes its records as CSV and the checksums of its files as a list. Returns whether nothing was
/// skipped, symbolic links aside.
///
/// Rows and lines are written when 64 KiB of them are pending, and at the end. If the walk ends early, those of the
/// records that were taken are written, too: so the output ends with a whole row, unless its writer stopped.
pub fn write_profile<T: Tree, W: Watcher, O: SteadyWrite, M: SteadyWrite>(
    profiler: &mut Profiler<T, W, CsvRecipient<'_, O, M>>,
    options: Options,
) -> Result<bool, CsvFault>
    requires { options.scan_limit ≤ 65536 }
    // The CSV is the definition's export of a profile that has exactly the tree's folders and files that were not
    // skipped, each file with the digest and the formats of its bytes as they were read. The list has the lines of
    // these files. The watcher was informed of each skipped entry, with the reason.
    ensures written { IfOk result (λ whole.
        WritesTree T.observes W.hears M.contents profiler.old.recipient.registry.now options whole
        profiler.old.tree profiler.new.tree profiler.old.watcher profiler.new.watcher
        (O.contents profiler.old.recipient.csv) (O.contents profiler.new.recipient.csv) profiler.old.recipient.manifest
        profiler.new.recipient.manifest) }
    // After an error, what was written is the front of the texts of the records up to there: all of it, unless a writer
    // stopped.
    ensures ended { IfErr result (λ fault.
        EndsWriting T.observes W.hears M.contents profiler.old.recipient.registry.now options fault
        profiler.old.tree profiler.new.tree profiler.old.watcher profiler.new.watcher
        (O.contents profiler.old.recipient.csv) (O.contents profiler.new.recipient.csv) profiler.old.recipient.manifest
        profiler.new.recipient.manifest) }
    // A writer that stopped is reported, and one that did not stop never is.
    ensures csv_stopped { IsSound (O.seen profiler.old.recipient.csv)
        → ReportsCsv (O.seen profiler.old.recipient.csv) (O.seen profiler.new.recipient.csv)
        (O.room profiler.new.recipient.csv) result }
    ensures manifest_stopped { ReportsList M.seen M.room profiler.old.recipient.manifest profiler.new.recipient.manifest
        result }
    ensures registry { profiler.new.recipient.registry.now ≡ profiler.old.recipient.registry.now }
{
    profiler.recipient.begin(profiler.alloc, options.hash)?;
    let registry = profiler.recipient.registry;
    match profile(profiler, registry, options) {
        Ok(whole) => match profiler.recipient.write_rest() {
            Ok(()) => Ok(whole),
            Err(fault) => Err(fault),
        },
        Err(fault) => Err(end_early(&mut profiler.recipient, fault)),
    }
}

/// Returns the fault of a walk that ended early, after the rows and the lines of the records that were taken are
/// written. If a writer stopped, nothing more is written, and its fault is returned in place of the walk's.
fn end_early<O: SteadyWrite, M: SteadyWrite>(
    recipient: &mut CsvRecipient<'_, O, M>,
    fault: ProfileFault,
) -> CsvFault
    ensures explains { Explains fault result }
    ensures writer { (stopped : WriteFault) → fault ≡ walk_faults.Recipient (recipient_faults.Write stopped)
        → (recipient.new ≡ recipient.old) × (result ≡ stopped_writer recipient.old.wrote_list) }
    ensures rest { ((stopped : WriteFault) → ¬ (fault ≡ walk_faults.Recipient (recipient_faults.Write stopped)))
        → EndsRest O.contents O.seen O.room M.contents M.seen M.room result recipient.old recipient.new }
{
    let fault = match fault {
        ProfileFault::Memory => CsvFault::Memory,
        ProfileFault::Numbers => CsvFault::Numbers,
        ProfileFault::Recipient(RecipientFault::Memory) => CsvFault::Memory,
        ProfileFault::Recipient(RecipientFault::Write(_)) => return fault_of(recipient.wrote_list),
    };
    match recipient.write_rest() {
        Ok(()) => fault,
        Err(stopped) => stopped,
    }
}

/// Returns the fault of the writer that was written to last, which is the one that stopped: the list's if `wrote_list`,
/// otherwise the CSV's.
fn fault_of(wrote_list: bool) -> CsvFault
    ensures { result ≡ stopped_writer wrote_list }
{
    if wrote_list {
        CsvFault::Manifest
    } else {
        CsvFault::Csv
    }
}
