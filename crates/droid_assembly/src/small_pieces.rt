//! Joins the bytes of small pieces in a buffer of fixed size.

ghost use Rattle.std.specs.Prelude.{◌≡◌, ◌+◌, ◌≤◌, ◌++◌, [], length};

use crate::copying::overwrite;
use std::marker::Model;

/// The most bytes that are joined. The clauses have the same number, and the prover ties them. Its choice is for speed
/// alone: more bytes are cheaper to pass without a copy.
pub(crate) const JOINED_LIMIT: usize = 512;

/// The bytes of small pieces, joined in a buffer of fixed size. In contracts it is the list of its bytes.
#[derive(Drop)]
pub(crate) struct Joined {
    bytes: [u8; JOINED_LIMIT],
    count: usize,
}

impl Model for Joined {
    ghost use Rattle.std.specs.Prelude.{List, ℕ, ◌≤◌, take};

    ghost Value = { List ℕ };

    ghost view = { λ joined. take joined.count joined.bytes };

    ghost invariant = { λ joined. joined.count ≤ 512 };
}

impl Joined {
    /// Makes an empty buffer.
    #[inline(always)]
    pub(crate) fn none() -> Joined
        ensures { result ≡ [] }
    {
        Joined {
            bytes: [0; JOINED_LIMIT],
            count: 0,
        }
    }

    /// Appends the bytes of a piece. There must be room for them; `pass_several` of `places` counts them before.
    #[inline(always)]
    pub(crate) fn push(&mut self, bytes: &[u8])
        requires { length self.old + length bytes.now ≤ 512 }
        ensures { self.new ≡ self.old ++ bytes.now }
    {
        overwrite(&mut self.bytes, self.count, bytes);
        self.count += bytes.len();
    }

    /// Returns the bytes of all pieces, one after another.
    pub(crate) fn bytes(&self) -> &[u8]
        ensures { result.now ≡ self.now }
    {
        &self.bytes[..self.count]
    }
}
