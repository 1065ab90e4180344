//! The record of a byte sequence of a signature.

ghost use Rattle.std.specs.Prelude.{◌≡◌};

use crate::subsequence::SubSequence;
use std::marker::Model;

/// From where the offsets of a byte sequence count.
#[derive(Clone, Copy)]
pub enum Reference {
    /// `BOFoffset`: the beginning of the file.
    Beginning,
    /// `EOFoffset`: the end of the file.
    End,
    /// Another text, or no such attribute.
    Other,
}

/// The element `ByteSequence`, with its subsequences in the file's order.
pub struct SequenceRecord {
    reference: Reference,
    parts: Vec<SubSequence>,
}

// Written by hand, so that the crates above do not prove again how each part is dropped.
impl Drop for SequenceRecord {
    fn drop(self) {
        let SequenceRecord {
            reference: _reference,
            parts: _parts,
        } = self;
    }
}

impl Model for SequenceRecord {
    ghost use Rattle.droid_signature_file.specs.Records.{ByteSequenceRecord};

    ghost Value = { ByteSequenceRecord };

    ghost view = { λ it. record { reference = it.reference; parts = it.parts.items } };
}

impl SequenceRecord {
    /// Makes a byte sequence of its subsequences, in the file's order. Allocates nothing.
    pub fn new(reference: Reference, parts: Vec<SubSequence>) -> SequenceRecord
        ensures { result ≡ record { reference = reference; parts = parts.items } }
    {
        SequenceRecord { reference, parts }
    }

    /// Returns from where the offsets count: the attribute `Reference`.
    pub fn reference(&self) -> Reference
        ensures { result ≡ self.now.reference }
    {
        self.reference
    }

    /// Returns the subsequences in the file's order.
    pub fn parts(&self) -> &[SubSequence]
        ensures { result.now ≡ self.now.parts }
    {
        self.parts.as_slice()
    }
}
