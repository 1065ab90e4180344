//! Profiles a tree, batch by batch.

ghost use Rattle.std.specs.Prelude.{◌≡◌, ◌≤◌, ◌&&◌, [], Bool, IfErr, IfOk, OnOk, length};
ghost use Rattle.std.specs.List.{AllByRecursion};
ghost use Rattle.droid_profile.specs.EarlyEnds.{EndsEarly};
ghost use Rattle.droid_profile.specs.Profiles.{ProfilesTree};
ghost use Rattle.droid_profile.specs.FileStates.{AreFresh};
ghost use Rattle.droid_profile.specs.LaneSteps.{IsFor};
ghost use Rattle.droid_profile.specs.RowsTaken.{HasMoment, IsReady};
ghost use Rattle.droid_profile.specs.declared.walk.scan.Scan.{Scan};
ghost use Rattle.droid_profile.specs.Walking.{StandsAt};

use crate::delivery::{both, hand_out};
use crate::fault::ProfileFault;
use crate::lanes::batch::Batch;
use crate::lanes::reader::read_files;
use crate::options::Options;
use crate::profiler::Profiler;
use crate::recipient::Recipient;
use crate::walk::entry_order::take_rows;
use crate::walk::row::Row;
use crate::walk::scan::whole_tree;
use droid_pronom::Registry;
use droid_tree::{Tree, Watcher};

/// Profiles a tree: gives the recipient a record for each folder and file, in order. Returns whether nothing was
/// skipped, symbolic links aside.
///
/// Takes entries in order, reads their files eight at a time, and hands their records out. Holds 8,192 entries, the
/// entries of one folder, the paths of the folders that wait, and 1.5 MiB for lanes.
pub fn profile<T: Tree, W: Watcher, R: Recipient>(
    profiler: &mut Profiler<T, W, R>,
    registry: &Registry,
    options: Options,
) -> Result<bool, ProfileFault>
    requires { options.scan_limit ≤ 65536 }
    // The records are those of the tree as it was read, without what was skipped; the watcher was informed of each
    // entry.
    ensures profiled { IfOk result (λ whole. ProfilesTree T.observes W.hears R.takes registry.now options whole
        profiler.old.tree profiler.new.tree profiler.old.watcher profiler.new.watcher profiler.old.recipient
        profiler.new.recipient) }
    // After an error they are the first of these, and the fault says why there are no more.
    ensures ended { IfErr result (λ fault. EndsEarly T.observes W.hears R.takes R.fails registry.now options fault
        profiler.old.tree profiler.new.tree profiler.old.watcher profiler.new.watcher profiler.old.recipient
        profiler.new.recipient) }
{
    let mut scan = whole_tree(profiler.alloc)?;
    let mut batch = Batch::new(profiler.alloc, options)?;
    let mut rows = Vec::new(profiler.alloc);
    let mut whole = true;
    'batches: loop {
        let more = take_rows(
            profiler.alloc,
            &mut profiler.tree,
            &mut scan,
            &mut rows,
            &mut batch.files,
        )?;
        let kept = settle(profiler, registry, options, &mut rows, &mut batch)?;
        whole = both(whole, kept);
        if !more {
            return Ok(whole);
        }
    }
}

/// Reads the files of a batch, hands its rows out, and leaves both lists empty for the next batch. Returns whether
/// nothing was skipped, symbolic links aside. After an error nothing is promised of `rows` and `batch`.
fn settle<T: Tree, W: Watcher, R: Recipient>(
    profiler: &mut Profiler<T, W, R>,
    registry: &Registry,
    options: Options,
    rows: &mut Vec<Row>,
    batch: &mut Batch,
) -> Result<bool, ProfileFault>
    requires made { IsFor options batch.old }
    requires fresh { AreFresh batch.old.files.items }
    requires moments { AllByRecursion HasMoment batch.old.files.items }
    requires ready { AllByRecursion (IsReady (length batch.old.files.items)) rows.old.items }
    ensures settled { IfOk result (λ kept.
        (whole : Bool) (scan : Scan) (start : T) (begun : W) (first : R)
        → StandsAt T.observes W.hears R.takes registry.now options whole scan rows.old.items batch.old.files.items start
        profiler.old.tree begun profiler.old.watcher first profiler.old.recipient
        → StandsAt T.observes W.hears R.takes registry.now options (whole && kept) scan [] [] start profiler.new.tree
        begun profiler.new.watcher first profiler.new.recipient) }
    ensures empty { OnOk result ((rows.new.items ≡ []) × (batch.new.files.items ≡ [])) }
    ensures made { OnOk result (IsFor options batch.new) }
    ensures ended { IfErr result (λ fault.
        (whole : Bool) (scan : Scan) (start : T) (begun : W) (first : R)
        → StandsAt T.observes W.hears R.takes registry.now options whole scan rows.old.items batch.old.files.items start
        profiler.old.tree begun profiler.old.watcher first profiler.old.recipient
        → EndsEarly T.observes W.hears R.takes R.fails registry.now options fault start profiler.new.tree begun
        profiler.new.watcher first profiler.new.recipient) }
{
    let alloc = profiler.alloc;
    read_files(
        alloc,
        &mut profiler.tree,
        &mut profiler.watcher,
        registry,
        options,
        batch,
    )?;
    let kept = hand_out(
        alloc,
        &mut profiler.watcher,
        &mut profiler.recipient,
        rows.as_slice(),
        batch.files.as_slice(),
    )?;
    rows.clear();
    batch.files.clear();
    Ok(kept)
}
