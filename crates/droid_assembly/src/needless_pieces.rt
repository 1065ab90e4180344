//! The pieces that an assembly no longer needs, as `settle` returns them.

ghost use Rattle.std.specs.Prelude.{◌≡◌, ◌↔◌, ◌∷◌, [], IsTrue, length};
ghost use Rattle.std.specs.Option.{option_copied};
ghost use Rattle.std.specs.List.{slice_get};

use crate::several::Several;
use droid_frame::Blob;
use std::marker::Model;

/// The pieces that an assembly no longer needs, in order of index. It allocates nothing. In contracts it is the list of
/// their bytes.
// Usually there is one piece or none. The array of `Several` is a field of its own so that it isn't cleared then.
#[derive(Drop)]
pub struct Spent {
    one: Option<Blob>,
    several: Option<Several>,
}

impl Model for Spent {
    ghost use Rattle.std.specs.Prelude.{List, ℕ};
    ghost use Rattle.droid_assembly.specs.Handed.{pieces_of};

    ghost Value = { List (List ℕ) };

    ghost view = { λ spent. pieces_of spent.one spent.several };
}

impl Spent {
    /// Makes an empty list: no piece has become needless.
    pub(crate) fn none() -> Spent
        ensures { result ≡ [] }
    {
        Spent {
            one: None,
            several: None,
        }
    }

    /// Makes a list of this one piece.
    pub(crate) fn one(bytes: Blob) -> Spent
        ensures { result ≡ bytes ∷ [] }
    {
        Spent {
            one: Some(bytes),
            several: None,
        }
    }

    /// Makes a list of these pieces.
    pub(crate) fn several(several: Several) -> Spent
        ensures { result ≡ several }
    {
        Spent {
            one: None,
            several: Some(several),
        }
    }

    /// Returns the number of pieces, at most 16.
    pub fn len(&self) -> usize
        ensures { result ≡ length self.now }
    {
        match (&self.one, &self.several) {
            (Some(_), _) => 1,
            (None, Some(several)) => several.len(),
            (None, None) => 0,
        }
    }

    /// Returns whether there are no pieces: the assembly needs all that it has.
    pub fn is_empty(&self) -> bool
        ensures { IsTrue result ↔ (self.now ≡ []) }
    {
        self.len() == 0
    }

    /// Returns the piece at this position in the list, counted from 0, or `None` past the end.
    pub fn get(&self, place: usize) -> Option<&Blob>
        ensures { option_copied result ≡ slice_get self.now place }
    {
        match (&self.one, &self.several) {
            (Some(bytes), _) => { if place == 0 { Some(bytes) } else { None } }
            (None, Some(several)) => several.get(place),
            (None, None) => None,
        }
    }
}
