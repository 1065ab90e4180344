//! Ends the file of a lane: its hash, and what it is identified as.

ghost use Rattle.std.specs.Prelude.{◌≡◌, ◌<◌, ℕ, List, Some, IfOk, IsTrue, OnOk, false, length, slice_get};
ghost use Rattle.droid_hash.specs.Ends.{Came};
ghost use Rattle.droid_profile.specs.Calls.{Call};
ghost use Rattle.droid_profile.specs.Kids.{found_of};
ghost use Rattle.droid_profile.specs.BatchFits.{BatchFits};
ghost use Rattle.droid_profile.specs.FilesRead.{Fits};
ghost use Rattle.droid_profile.specs.LaneEnds.{Completes, HasEnded, HasRead};
ghost use Rattle.droid_profile.specs.TurnsLeft.{At, IsUnfinished, Lessens};
ghost use Rattle.droid_profile.specs.declared.lanes.file_lane.FileLane.{FileLane};
ghost use Rattle.droid_profile.specs.declared.lanes.file_row.FileRow.{FileRow};

use crate::lanes::batch::Batch;
use crate::lanes::file_lane::FileLane;
use crate::lanes::file_row::{FileRow, FileState, is_read_in};
use crate::options::Options;
use droid_frame::HashValue;
use droid_pronom::{Found, Registry};
use std::alloc::{AllocError, Global};

/// Ends the file of a lane if all its bytes are hashed: completes its record, and leaves the lane idle. Otherwise does
/// nothing. After an error nothing is promised of `batch`: the profile ends.
pub(crate) fn end_file(
    alloc: Global,
    registry: &Registry,
    options: Options,
    batch: &mut Batch,
    lane: usize,
) -> Result<(), AllocError>
    requires within { lane < length batch.old.lanes.items }
    requires fits { Fits registry.now options batch.old }
    ensures fits { OnOk result ((first : List FileRow) (calls : List Call)
        → BatchFits registry.now options first batch.old calls → BatchFits registry.now options first batch.new calls) }
    ensures lessens { OnOk result (Lessens batch.old batch.new (At batch.old.lanes.items lane IsUnfinished)) }
{
    if !has_ended(&batch.lanes[lane]) {
        return Ok(());
    }
    let place = batch.lanes[lane].place;
    // Always so for a busy lane. The test spares the proof an invariant.
    if !is_read_in(batch.files.as_slice(), place, lane) {
        batch.lanes[lane].busy = false;
        return Ok(());
    }
    let found = identify_at(alloc, registry, options, batch, lane, place)?;
    let hash = batch.hashes.end(lane);
    complete(&mut batch.files[place], hash, found);
    batch.lanes[lane].busy = false;
    Ok(())
}

/// Returns whether a file is read in the lane, its last read is done, and all its bytes are hashed.
fn has_ended(lane: &FileLane) -> bool
    ensures ended { IsTrue result → HasEnded lane.now }
    ensures unfinished { result ≡ false → IsUnfinished lane.now }
{
    if !lane.busy {
        return false;
    }
    if !lane.at_end {
        return false;
    }
    lane.is_hashed()
}

/// Identifies the file at this place of the batch, which was read in this lane to its end.
fn identify_at(
    alloc: Global,
    registry: &Registry,
    options: Options,
    batch: &Batch,
    lane: usize,
    place: usize,
) -> Result<Found, AllocError>
    requires within { lane < length batch.now.lanes.items }
    requires there { place < length batch.now.files.items }
    requires read { (its : FileLane) (row : FileRow) → slice_get batch.now.lanes.items lane ≡ Some its
        → slice_get batch.now.files.items place ≡ Some row → HasRead options its row }
    ensures { IfOk result (λ found.
        (its : FileLane) (row : FileRow) (bytes : List ℕ) → slice_get batch.now.lanes.items lane ≡ Some its
        → slice_get batch.now.files.items place ≡ Some row
        → Came its.ends bytes → length bytes ≡ row.entry.len → found ≡ found_of registry.now options row.entry bytes) }
{
    identify(
        alloc,
        registry,
        options,
        &batch.lanes[lane],
        &batch.files[place],
    )
}

/// Identifies a file by its first and last bytes, which the lane keeps, its name and its size.
fn identify(
    alloc: Global,
    registry: &Registry,
    options: Options,
    lane: &FileLane,
    row: &FileRow,
) -> Result<Found, AllocError>
    requires { HasRead options lane.now row.now }
    ensures { IfOk result (λ found.
        (bytes : List ℕ) → Came lane.now.ends bytes → length bytes ≡ row.now.entry.len
        → found ≡ found_of registry.now options row.now.entry bytes) }
{
    let first = lane.ends.first();
    let last = lane.ends.last();
    let name = row.record.name.as_str();
    let size = row.entry.len;
    registry.identify(alloc, name, first, last, size, options.match_all)
}

/// Completes the record of a file with its hash and its formats. The file is `Whole` then.
fn complete(row: &mut FileRow, hash: HashValue, found: Found)
    ensures { Completes row.old row.new hash found }
{
    let Found {
        method,
        mismatch,
        puids,
    } = found;
    row.record.hash = hash;
    row.record.method = method;
    row.record.mismatch = mismatch;
    row.record.puids = puids;
    row.state = FileState::Whole;
}
