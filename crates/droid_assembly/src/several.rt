//! Several consecutive pieces, as they leave their places, in an array that takes no memory from the allocator.

ghost use Rattle.std.specs.Prelude.{◌≡◌, ◌<◌, ◌++◌, ◌∷◌, [], length};
ghost use Rattle.std.specs.Option.{option_copied};
ghost use Rattle.std.specs.List.{slice_get};

use droid_frame::Blob;
use std::array;
use std::marker::Model;

/// The most pieces. It is `AHEAD` of `places`: as many places can be emptied at once. The prover refuses a smaller one;
/// a larger one would cost memory.
const SEVERAL_LIMIT: usize = 16;

/// Several consecutive pieces, in an array of fixed size. In contracts it is the list of their bytes.
#[derive(Drop)]
pub(crate) struct Several {
    blobs: [Option<Blob>; SEVERAL_LIMIT],
    count: usize,
}

impl Model for Several {
    ghost use Rattle.std.specs.Prelude.{List, ℕ, ◌≤◌, map, take};
    ghost use Rattle.droid_assembly.specs.Kept.{bytes_of, HasPieces};

    ghost Value = { List (List ℕ) };

    ghost view = { λ several. map bytes_of (take several.count several.blobs) };

    ghost invariant = { λ several. (several.count ≤ 16) × HasPieces several.blobs several.count };
}

impl Several {
    /// Makes an empty list.
    pub(crate) fn none() -> Several
        ensures { result ≡ [] }
    {
        Several {
            blobs: array::from_fn(|_| None),
            count: 0,
        }
    }

    /// Appends a piece. There must be room for it; `gather` of `places` appends at most 16.
    pub(crate) fn push(&mut self, bytes: Blob)
        requires { length self.old < 16 }
        ensures { self.new ≡ self.old ++ bytes ∷ [] }
    {
        self.blobs[self.count] = Some(bytes);
        self.count += 1;
    }

    /// Returns the number of pieces.
    pub(crate) fn len(&self) -> usize
        ensures { result ≡ length self.now }
    {
        self.count
    }

    /// Returns the piece at this position in the list, counted from 0, or `None` past the end.
    pub(crate) fn get(&self, place: usize) -> Option<&Blob>
        ensures { option_copied result ≡ slice_get self.now place }
    {
        if place < self.len() {
            self.blobs[place].as_ref()
        } else {
            None
        }
    }
}
