//! A few bytes without an allocation: the front of a reply's body, or one format identifier after its length.

ghost use Rattle.std.specs.Prelude.{◌≡◌, ◌+◌, ◌≤◌, ◌++◌, [], length};

use std::marker::Model;

/// The limit on the bytes: the front of a Finished with a SHA-256 has this many (method 1, mismatch 1, kind 1, digest
/// 32, count 2). It goes with the 37 of the clauses in this file; the prover refuses a smaller number.
pub(crate) const SMALL_LIMIT: usize = 37;

/// Up to [`SMALL_LIMIT`] bytes in a buffer of fixed size. In contracts it is the list of its bytes.
#[derive(Drop)]
pub(crate) struct SmallBytes {
    bytes: [u8; SMALL_LIMIT],
    len: usize,
}

impl Model for SmallBytes {
    ghost use Rattle.std.specs.Prelude.{List, ℕ, ◌≤◌, take};

    ghost Value = { List ℕ };

    ghost view = { λ small. take small.len small.bytes };

    ghost invariant = { λ small. small.len ≤ 37 };
}

impl SmallBytes {
    /// Makes an empty buffer.
    pub(crate) fn new() -> SmallBytes
        ensures { result ≡ [] }
    {
        SmallBytes {
            bytes: [0; SMALL_LIMIT],
            len: 0,
        }
    }

    /// Appends bytes. They fit, as `requires` says: the callers count them.
    pub(crate) fn add(&mut self, bytes: &[u8])
        requires { length self.old + length bytes.now ≤ 37 }
        ensures { self.new ≡ self.old ++ bytes.now }
    {
        let end = self.len + bytes.len();
        self.bytes[self.len..end].copy_from_slice(bytes);
        self.len = end;
    }

    /// Returns the bytes.
    pub(crate) fn as_slice(&self) -> &[u8]
        ensures { result.now ≡ self.now }
    {
        &self.bytes[..self.len]
    }
}
