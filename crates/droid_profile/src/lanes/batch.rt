//! The files of one batch, and the eight lanes that they are read in.

ghost use Rattle.std.specs.Prelude.{◌≡◌, ◌≤◌, ℕ, [], Some, IfOk, length, slice_get};
ghost use Rattle.droid_profile.specs.LaneSteps.{IsFor};
ghost use Rattle.droid_profile.specs.declared.lanes.file_lane.FileLane.{FileLane};

use crate::lanes::file_lane::FileLane;
use crate::lanes::file_row::FileRow;
use crate::options::Options;
use droid_hash::HashLanes;
use std::alloc::{AllocError, Global};

/// The files that are read next, and the eight lanes that they are read in. The lanes serve batch after batch.
#[derive(Drop)]
pub struct Batch {
    /// The files.
    pub files: Vec<FileRow>,
    /// The places of files that wait for a lane. The last one is next.
    pub(crate) waiting: Vec<usize>,
    /// The lanes.
    pub(crate) lanes: Vec<FileLane>,
    /// The hashes, so far, of the files in the lanes.
    pub(crate) hashes: HashLanes,
}

impl Batch {
    /// Makes an empty batch with eight idle lanes. Takes all memory for the ends of files, twice `options.scan_limit`
    /// bytes for each lane.
    pub fn new(alloc: Global, options: Options) -> Result<Batch, AllocError>
        requires { options.scan_limit ≤ 65536 }
        ensures empty { IfOk result (λ batch. batch.files.items ≡ []) }
        ensures made { IfOk result (λ batch. IsFor options batch) }
    {
        let limit = options.scan_limit as usize;
        let lanes = idle_lanes(alloc, limit)?;
        Ok(Batch {
            files: Vec::new(alloc),
            waiting: Vec::new(alloc),
            lanes,
            hashes: HashLanes::new(options.hash),
        })
    }
}

/// Makes eight idle lanes that keep `limit` bytes of each end of a file. Eight is the number of `HashLanes`, which
/// hashes as many at a time; `IsFor` of the definitions asks for it.
fn idle_lanes(alloc: Global, limit: usize) -> Result<Vec<FileLane>, AllocError>
    ensures eight { IfOk result (λ lanes. length lanes.items ≡ 8) }
    ensures limits { IfOk result (λ lanes.
        (j : ℕ) (lane : FileLane) → slice_get lanes.items j ≡ Some lane → lane.ends.limit ≡ limit) }
{
    let mut lanes = Vec::new(alloc);
    for _ in 0..8_usize {
        let lane = FileLane::new(alloc, limit)?;
        lanes.push(lane)?;
    }
    Ok(lanes)
}
