//! One lane: the file that is read in it, and what of it is not hashed yet.

ghost use Rattle.std.specs.Prelude.{◌≡◌, ◌-◌, ◌<◌, [], drop, length, false, IfOk, IsTrue};
ghost use Rattle.droid_profile.specs.LaneSteps.{Begins, Passes};
ghost use Rattle.droid_profile.specs.TurnsLeft.{HasRest};

use droid_hash::EndBytes;
use std::alloc::{AllocError, Global};

/// How many bytes a lane reads at a time at most: 64 KiB. The clause `most` of `next_wanted` has the number too.
pub(crate) const ROOM: u32 = 65_536;

/// The file that is read in a lane, and what of it is not hashed yet.
#[derive(Drop)]
pub(crate) struct FileLane {
    /// Whether a file is read in the lane.
    pub busy: bool,
    /// The place of the file.
    pub place: usize,
    /// The offset of its next read.
    pub from: u64,
    /// Whether its last read is done.
    pub at_end: bool,
    /// The bytes of the read before.
    pub buffer: Vec<u8>,
    /// How many of these are hashed.
    pub hashed: usize,
    /// The first and the last bytes of the file.
    pub ends: EndBytes,
}

impl FileLane {
    /// Makes an idle lane that keeps `limit` bytes of each end of a file. Takes the memory for these; the buffer gets
    /// its own at the first read.
    pub(crate) fn new(alloc: Global, limit: usize) -> Result<FileLane, AllocError>
        ensures { IfOk result (λ lane. lane.ends.limit ≡ limit) }
    {
        let ends = EndBytes::new(alloc, limit)?;
        Ok(FileLane {
            busy: false,
            place: 0,
            from: 0,
            at_end: false,
            buffer: Vec::new(alloc),
            hashed: 0,
            ends,
        })
    }

    /// Begins the file at this place of the batch, of `size` bytes, whatever was in the lane before.
    pub(crate) fn begin(&mut self, place: usize, size: u64)
        ensures { Begins self.old self.new place size }
    {
        self.busy = true;
        self.place = place;
        self.from = 0;
        self.at_end = false;
        self.buffer.clear();
        self.hashed = 0;
        self.ends.begin(size);
    }

    /// Returns the bytes of the last read that are not hashed yet. None are left if `hashed` is past the buffer.
    pub(crate) fn rest(&self) -> &[u8]
        ensures { result.now ≡ drop self.now.hashed self.now.buffer.items }
    {
        if self.hashed > self.buffer.len() {
            return &[];
        }
        &self.buffer.as_slice()[self.hashed..]
    }

    /// Returns whether all bytes of the last read are hashed. So it is of an idle lane that has read nothing.
    pub(crate) fn is_hashed(&self) -> bool
        ensures all { IsTrue result → drop self.now.hashed self.now.buffer.items ≡ [] }
        ensures rest { result ≡ false → HasRest self.now }
    {
        self.hashed >= self.buffer.len()
    }

    /// Counts `count` more bytes as hashed, or fewer if not so many are left in the buffer.
    pub(crate) fn pass(&mut self, count: usize)
        ensures { Passes self.old self.new count }
    {
        let left = self.buffer.len().saturating_sub(self.hashed);
        self.hashed = self.hashed.saturating_add(left.min(count));
    }
}
