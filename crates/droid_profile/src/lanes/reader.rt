//! Reads the files of a batch, turn by turn, until no file is left.

ghost use Rattle.std.specs.Prelude.{◌≡◌, ◌<◌, [], ℕ, IfErr, IfOk, IsTrue, OnErr, OnOk, Contains, false, length, List};
ghost use Rattle.droid_profile.specs.declared.fault.ProfileFault.TheVariants.{Memory};
ghost use Rattle.droid_profile.specs.FileStates.{AreFresh};
ghost use Rattle.droid_profile.specs.FilesRead.{Fits, ReadsAll, ReadsFront, ReadsOn};
ghost use Rattle.droid_profile.specs.LaneSteps.{AreIdle, IsFor};
ghost use Rattle.droid_profile.specs.TurnsLeft.{IsLeft, batch_left};
ghost use Rattle.droid_profile.specs.declared.lanes.file_row.FileRow.{FileRow};

use crate::fault::ProfileFault;
use crate::lanes::batch::Batch;
use crate::lanes::file_end::end_file;
use crate::lanes::file_row::FileRow;
use crate::lanes::file_start::begin_file;
use crate::lanes::lane_hashes::{advance, are_idle};
use crate::lanes::lane_reader::read_on;
use crate::options::Options;
use droid_pronom::Registry;
use droid_tree::{Tree, Watcher};
use std::alloc::{AllocError, Global};

/// Reads the files of a batch, eight at a time, and completes the record of each that can be read as its folder lists
/// it. The longest are read first.
pub fn read_files<T: Tree, W: Watcher>(
    alloc: Global,
    tree: &mut T,
    watcher: &mut W,
    registry: &Registry,
    options: Options,
    batch: &mut Batch,
) -> Result<(), ProfileFault>
    requires made { IsFor options batch.old }
    requires fresh { AreFresh batch.old.files.items }
    // What the tree returned of each file, in order; what the watcher learned; and each file as it was read.
    ensures read { OnOk result
        (ReadsAll T.observes W.hears registry.now options batch.old.files.items batch.new.files.items tree.old tree.new
        watcher.old watcher.new) }
    ensures made { OnOk result (IsFor options batch.new) }
    // After an error: the first reads of each file.
    ensures ended { IfErr result (λ fault.
        ReadsFront T.observes W.hears batch.old.files.items fault tree.old tree.new watcher.old watcher.new) }
{
    batch.waiting = places_of(alloc, batch.files.as_slice())?;
    'turns: while !are_read(batch) {
        read_turn(alloc, tree, watcher, registry, options, batch)?;
    }
    Ok(())
}

/// Returns whether no file of the batch waits and all lanes are idle: so all were read, or dropped.
fn are_read(batch: &Batch) -> bool
    ensures none { IsTrue result → batch.now.waiting.items ≡ [] }
    ensures idle { IsTrue result → AreIdle batch.now.lanes.items }
    ensures left { result ≡ false → IsLeft batch.now }
{
    if !batch.waiting.is_empty() {
        return false;
    }
    are_idle(batch.lanes.as_slice())
}

/// Ends the file of each lane that is read, begins the next one there, reads on in each lane, and hashes the next bytes
/// of all. After an error nothing is promised of `batch`: the profile ends.
fn read_turn<T: Tree, W: Watcher>(
    alloc: Global,
    tree: &mut T,
    watcher: &mut W,
    registry: &Registry,
    options: Options,
    batch: &mut Batch,
) -> Result<(), ProfileFault>
    requires { Fits registry.now options batch.old }
    ensures read { OnOk result ((first : List FileRow) (start : T) (heard : W)
        → ReadsOn T.observes W.hears registry.now options first batch.old start tree.old heard watcher.old
        → ReadsOn T.observes W.hears registry.now options first batch.new start tree.new heard watcher.new) }
    // So the turns come to an end.
    ensures lessens { OnOk result (IsLeft batch.old → batch_left batch.new < batch_left batch.old) }
    ensures memory { IfErr result (λ fault. fault ≡ Memory) }
    ensures ended { OnErr result ((first : List FileRow) (start : T) (heard : W)
        → ReadsOn T.observes W.hears registry.now options first batch.old start tree.old heard watcher.old
        → ReadsFront T.observes W.hears first Memory start tree.new heard watcher.new) }
{
    for lane in 0..batch.lanes.len() {
        end_file(alloc, registry, options, batch, lane)?;
        begin_file(batch, lane);
        read_on(tree, watcher, &mut batch.lanes, &mut batch.files, lane)?;
    }
    advance(&mut batch.lanes, &mut batch.hashes);
    Ok(())
}

/// Returns the places of the files of a batch, those of the longest last, which are read first. That is for speed, so
/// that no long file is read at the end beside idle lanes: no clause needs the order.
fn places_of(alloc: Global, files: &[FileRow]) -> Result<Vec<usize>, AllocError>
    ensures { IfOk result (λ places. (place : ℕ) → place < length files.now → Contains places.items place) }
{
    let mut places = places_below(alloc, files.len())?;
    places.sort_by_key(|place| size_at(files, *place))?;
    Ok(places)
}

/// Returns the places from 0 up to this count, without it.
fn places_below(alloc: Global, count: usize) -> Result<Vec<usize>, AllocError>
    ensures { IfOk result (λ places. (place : ℕ) → place < count → Contains places.items place) }
{
    let mut places = Vec::new(alloc);
    for place in 0..count {
        places.push(place)?;
    }
    Ok(places)
}

/// Returns the size of the file at this place, as its folder lists it, or 0 if there is none. Without a contract, since
/// only the order of reading depends on it.
fn size_at(files: &[FileRow], place: usize) -> u64 {
    match files.get(place) {
        Some(row) => row.entry.len,
        None => 0,
    }
}
