//! The bytes of which a signature needs one at one offset: a quick test that passes over most signatures.

ghost use Rattle.std.specs.Prelude.{◌↔◌, ◌<◌, IfSome, IsTrue, length, slice_index};
ghost use Rattle.droid_pronom.specs.Heads.{IsHeadOf};
ghost use Rattle.droid_pattern.specs.FirstBytes.{Has};

use crate::rows::{Anchor, ByteSequence};
use droid_pattern::FirstBytes;

/// Bytes, and their offset from the beginning of a file.
#[derive(Clone, Copy)]
pub(crate) struct Head {
    pub(crate) offset: u16,
    pub(crate) bytes: FirstBytes,
}

impl Head {
    /// Returns the bytes with one of which a match of the byte sequence begins.
    ///
    /// There are such if the byte sequence has one offset from the beginning, and its pattern begins with one of them.
    /// `None` is always right, and only makes identification slower.
    pub(crate) fn of(sequence: &ByteSequence) -> Option<Head>
        ensures { IfSome result (λ head. IsHeadOf head sequence.now) }
    {
        let offset = sequence.offsets.min;
        if offset != sequence.offsets.max {
            return None;
        }
        match sequence.offsets.anchor {
            Anchor::Bof => {
                let bytes = sequence.pattern.first_bytes()?;
                Some(Head { offset, bytes })
            }
            Anchor::Eof => None,
        }
    }

    /// Returns whether one of the bytes stands at their offset in `first`, the file's first bytes. If these end before
    /// it, none does.
    pub(crate) fn is_in(self, first: &[u8]) -> bool
        ensures { IsTrue result
            ↔ ((self.offset < length first.now) × Has self.bytes (slice_index first.now self.offset)) }
    {
        let place = self.offset as usize;
        if place < first.len() {
            self.bytes.has(first[place])
        } else {
            false
        }
    }
}
