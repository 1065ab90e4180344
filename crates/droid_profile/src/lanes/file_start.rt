//! Begins a file in a lane.

ghost use Rattle.std.specs.Prelude.{◌<◌, List, length};
ghost use Rattle.droid_pronom.specs.Registry.{Contents};
ghost use Rattle.droid_profile.specs.Calls.{Call};
ghost use Rattle.droid_profile.specs.declared.options.Options.{Options};
ghost use Rattle.droid_profile.specs.BatchFits.{BatchFits};
ghost use Rattle.droid_profile.specs.TurnsLeft.{At, IsServed, Lessens};
ghost use Rattle.droid_profile.specs.declared.lanes.file_row.FileRow.{FileRow};

use crate::lanes::batch::Batch;
use crate::lanes::file_row::{FileState, waits_at};

/// Takes the last of the files that wait, and begins it in the lane with this number, if that is idle. Does nothing if
/// it is busy, or if no file waits.
pub(crate) fn begin_file(batch: &mut Batch, lane: usize)
    requires there { lane < length batch.old.lanes.items }
    requires small { lane < 8 }
    ensures fits { (registry : Contents) (options : Options) (first : List FileRow) (calls : List Call)
        → BatchFits registry options first batch.old calls → BatchFits registry options first batch.new calls }
    ensures lessens { Lessens batch.old batch.new (At batch.old.lanes.items lane (IsServed batch.old.waiting.items)) }
{
    if batch.lanes[lane].busy {
        return;
    }
    let Some(place) = batch.waiting.pop() else {
        return;
    };
    // Always so for a place that waits. The test spares the proof an invariant.
    if !waits_at(batch.files.as_slice(), place) {
        return;
    }
    let size = batch.files[place].entry.len;
    batch.hashes.begin(lane);
    batch.lanes[lane].begin(place, size);
    batch.files[place].state = FileState::InLane(lane);
}
