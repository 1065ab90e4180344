//! Reads on in the file of a lane.

ghost use Rattle.std.specs.Prelude.{◌≡◌, ◌<◌, ◌≤◌, ◌-◌, ◌+◌, [], List, IfErr, IfOk, IsTrue, OnErr, OnOk, false, length};
ghost use Rattle.droid_pronom.specs.Registry.{Contents};
ghost use Rattle.droid_profile.specs.Calls.{Call};
ghost use Rattle.droid_profile.specs.declared.fault.ProfileFault.TheVariants.{Memory};
ghost use Rattle.droid_profile.specs.declared.options.Options.{Options};
ghost use Rattle.droid_profile.specs.BatchFits.{BatchFits};
ghost use Rattle.droid_profile.specs.FilesRead.{ReadsMore};
ghost use Rattle.droid_profile.specs.LaneReads.{IsDue, ReadsOnce, TakesPiece};
ghost use Rattle.droid_profile.specs.TurnsLeft.{At, IsNotDue, LanesLessen, MovesOn};
ghost use Rattle.droid_profile.specs.declared.lanes.batch.Batch.{Batch};
ghost use Rattle.droid_profile.specs.declared.lanes.file_row.FileRow.{FileRow};

use crate::fault::ProfileFault;
use crate::lanes::file_lane::{FileLane, ROOM};
use crate::lanes::file_row::{FileRow, FileState, is_read_in};
use droid_tree::{Skipped, Tree, Watcher, unread};

/// What a read came to.
#[derive(Clone, Copy)]
pub(crate) enum Came {
    /// All that was asked for, and the file goes on.
    Piece,
    /// The last bytes of the file.
    Last,
    /// The file is not as its folder lists it, or could not be read.
    Stopped(Skipped),
}

/// Reads on in the file of a lane if all that was read before is hashed and the file has not ended. A file that cannot
/// be read as its folder lists it is dropped, and the lane is idle then. After an error nothing is promised of `lanes`
/// and `files`: the profile ends.
pub(crate) fn read_on<T: Tree, W: Watcher>(
    tree: &mut T,
    watcher: &mut W,
    lanes: &mut Vec<FileLane>,
    files: &mut Vec<FileRow>,
    lane: usize,
) -> Result<(), ProfileFault>
    requires { lane < length lanes.old.items }
    ensures read { OnOk result ((registry : Contents) (options : Options) (first : List FileRow) (calls : List Call)
        (batch : Batch)
        → BatchFits registry options first (record batch { lanes = lanes.old; files = files.old }) calls
        → ReadsMore T.observes W.hears registry options first (record batch { lanes = lanes.new; files = files.new })
        calls tree.old tree.new watcher.old watcher.new) }
    ensures lessens { OnOk result (LanesLessen lanes.old.items lanes.new.items (At lanes.old.items lane IsNotDue)) }
    ensures memory { IfErr result (λ fault. fault ≡ Memory) }
    ensures unheard { OnErr result (watcher.new ≡ watcher.old) }
{
    if !is_due(&lanes[lane]) {
        return Ok(());
    }
    let place = lanes[lane].place;
    // Always so for a busy lane. The test spares the proof an invariant.
    if !is_read_in(files.as_slice(), place, lane) {
        lanes[lane].busy = false;
        return Ok(());
    }
    match read_piece(tree, watcher, &mut lanes[lane], &files.as_slice()[place])? {
        Came::Stopped(why) => {
            lanes[lane].busy = false;
            files[place].state = FileState::Dropped(why);
            Ok(())
        }
        Came::Piece => Ok(()),
        Came::Last => Ok(()),
    }
}

/// Returns whether the lane has to read on: its file has not ended, and all that was read is hashed.
fn is_due(lane: &FileLane) -> bool
    ensures due { IsTrue result → IsDue lane.now }
    ensures not_due { result ≡ false → IsNotDue lane.now }
{
    if !lane.busy {
        return false;
    }
    if lane.at_end {
        return false;
    }
    lane.is_hashed()
}

/// Reads the next bytes of a file into the lane's buffer, in place of those before, and reports how many came to the
/// watcher. Fails only with `Memory`.
fn read_piece<T: Tree, W: Watcher>(
    tree: &mut T,
    watcher: &mut W,
    lane: &mut FileLane,
    row: &FileRow,
) -> Result<Came, ProfileFault>
    ensures read { IfOk result (λ came.
        lane.old.from ≤ row.now.entry.len
        → ReadsOnce T.observes W.hears row.now.record.path row.now.entry came lane.old lane.new tree.old tree.new
        watcher.old watcher.new) }
    ensures moves { IfOk result (λ came. MovesOn came lane.old lane.new) }
    ensures limit { lane.new.ends.limit ≡ lane.old.ends.limit }
    ensures memory { IfErr result (λ fault. fault ≡ Memory) }
    ensures unheard { OnErr result (watcher.new ≡ watcher.old) }
{
    let wanted = next_wanted(row.entry.len, lane.from);
    lane.buffer.clear();
    lane.hashed = 0;
    let path = row.record.path.as_str();
    match tree.read(path, &row.entry, lane.from, wanted, &mut lane.buffer) {
        Ok(()) => {
            watcher.took_bytes(path, lane.buffer.len() as u32);
            Ok(take_piece(lane, row.entry.len, wanted))
        }
        Err(fault) => match unread(fault) {
            Ok(why) => Ok(Came::Stopped(why)),
            Err(_) => Err(ProfileFault::Memory),
        },
    }
}

/// Returns how many bytes the next read asks for: one more than the file has left from offset `from` on, if that fits
/// the buffer. So the read shows whether the file ends where its folder says.
fn next_wanted(size: u64, from: u64) -> u32
    ensures most { result ≤ 65536 }
    ensures some { 0 < result }
{
    let left = size.saturating_sub(from).saturating_add(1);
    match u32::try_from(left) {
        Ok(left) => left.min(ROOM),
        Err(_) => ROOM,
    }
}

/// Judges the bytes that came into the buffer, where `wanted` were asked for, and keeps them if they are the file's: no
/// more than it has left, and, if fewer came than were asked for, exactly those. `size` is the file's length as its
/// folder lists it.
fn take_piece(lane: &mut FileLane, size: u64, wanted: u32) -> Came
    requires hashed { lane.old.hashed ≡ 0 }
    requires wanted { 0 < wanted }
    ensures takes { TakesPiece lane.old lane.new size wanted result }
    ensures moves { MovesOn result lane.old lane.new }
{
    let count = lane.buffer.len() as u64;
    let left = size.saturating_sub(lane.from);
    if count > left {
        return Came::Stopped(Skipped::Changed);
    }
    let ended = count < u64::from(wanted);
    if ended & (count != left) {
        return Came::Stopped(Skipped::Changed);
    }
    lane.ends.take(lane.buffer.as_slice());
    lane.from = lane.from.saturating_add(count);
    lane.at_end = ended;
    if ended { Came::Last } else { Came::Piece }
}
