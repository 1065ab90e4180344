//! A file of a tree that has its number, and how far its reading is.

ghost use Rattle.std.specs.Prelude.{◌≡◌, ◌↔◌, IsTrue};
ghost use Rattle.droid_profile.specs.FileStates.{HasState};
ghost use Rattle.droid_profile.specs.declared.lanes.file_row.FileState.TheVariants.{Waits, InLane};

use droid_frame::Record;
use droid_tree::{FolderEntry, Skipped};

/// How far a file is.
#[derive(Clone, Copy, PartialEq, Eq)]
pub enum FileState {
    /// It waits for a lane.
    Waits,
    /// It is read in this lane.
    InLane(usize),
    /// All its bytes were read, and its record is complete.
    Whole,
    /// It could not be read as its folder lists it.
    Dropped(Skipped),
}

/// A file of a tree that has its number.
#[derive(Drop)]
pub struct FileRow {
    /// Its record. The hash and the formats are missing until it is `Whole`.
    pub record: Record,
    /// The file as its folder lists it.
    pub entry: FolderEntry,
    /// How far it is.
    pub state: FileState,
}

/// Returns whether there is a file at this place of the batch that waits for a lane.
pub(crate) fn waits_at(files: &[FileRow], place: usize) -> bool
    ensures { IsTrue result ↔ HasState files.now place Waits }
{
    match files.get(place) {
        Some(row) => row.state == FileState::Waits,
        None => false,
    }
}

/// Returns whether there is a file at this place of the batch that is read in this lane.
pub(crate) fn is_read_in(files: &[FileRow], place: usize, lane: usize) -> bool
    ensures { IsTrue result ↔ HasState files.now place (InLane lane) }
{
    match files.get(place) {
        Some(row) => row.state == FileState::InLane(lane),
        None => false,
    }
}
