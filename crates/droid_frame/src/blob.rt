//! Owned bytes: `Blob`, the bytes of a body, a path or a piece.

ghost use Rattle.std.specs.Prelude.{◌≡◌, ◌↔◌, [], IfOk, IsTrue, length};
ghost use Rattle.droid_frame.specs.Fields.{IsBytes};

use std::alloc::{AllocError, Global};
use std::marker::Model;

/// Owned bytes, such as a frame's body. In contracts it is the list of its bytes.
#[derive(Debug)]
pub struct Blob {
    bytes: Vec<u8>,
}

// Frees its one field, as a derived `Drop` would. Written by hand, so that the crates above do not prove again how each
// part is dropped. No clause says more.
impl Drop for Blob {
    fn drop(self) {
        let Blob { bytes: _bytes } = self;
    }
}

impl Model for Blob {
    ghost use Rattle.std.specs.Prelude.{List, ℕ};

    ghost Value = { List ℕ };

    ghost view = { λ blob. blob.bytes.items };

    ghost use Rattle.droid_frame.specs.Fields.{IsBytes};

    ghost invariant = { λ blob. IsBytes blob.bytes.items };
}

impl Blob {
    /// Copies the bytes into a new buffer. Fails only when out of memory.
    pub fn copy_of(alloc: Global, bytes: &[u8]) -> Result<Blob, AllocError>
        ensures { IfOk result (λ blob. blob ≡ bytes.now) }
    {
        Ok(Blob {
            bytes: Vec::from_slice(alloc, bytes)?,
        })
    }

    /// Copies the bytes into a new buffer. Fails only when out of memory.
    pub fn try_clone(&self, alloc: Global) -> Result<Blob, AllocError>
        ensures { IfOk result (λ blob. blob ≡ self.now) }
    {
        Blob::copy_of(alloc, self.as_slice())
    }

    /// Returns the bytes.
    pub fn as_slice(&self) -> &[u8]
        ensures value { result.now ≡ self.now }
        // For the proofs of callers: the invariant, that each item is below 256.
        ensures bytes { IsBytes self.now }
    {
        self.bytes.as_slice()
    }

    /// Returns the number of bytes.
    pub fn len(&self) -> usize
        ensures { result ≡ length self.now }
    {
        self.bytes.len()
    }

    /// Returns whether there are no bytes.
    pub fn is_empty(&self) -> bool
        ensures { IsTrue result ↔ (self.now ≡ []) }
    {
        self.bytes.is_empty()
    }

    /// Returns the buffer itself. Allocates nothing.
    pub fn into_vec(self) -> Vec<u8>
        ensures { result.items ≡ self }
    {
        let Blob { bytes } = self;
        bytes
    }
}

impl From<Vec<u8>> for Blob {
    ghost from_gives = { λ bytes blob. blob ≡ bytes.items };

    /// Takes over the buffer. Allocates nothing.
    fn from(bytes: Vec<u8>) -> Blob {
        Blob { bytes }
    }
}
