//! The record of a signature.

ghost use Rattle.std.specs.Prelude.{◌≡◌};

use crate::sequence::SequenceRecord;
use std::marker::Model;

/// The element `InternalSignature`, with its byte sequences in the file's order.
pub struct InternalSignature {
    id: u32,
    sequences: Vec<SequenceRecord>,
}

// Written by hand, so that the crates above do not prove again how each part is dropped.
impl Drop for InternalSignature {
    fn drop(self) {
        let InternalSignature {
            id: _id,
            sequences: _sequences,
        } = self;
    }
}

impl Model for InternalSignature {
    ghost use Rattle.droid_signature_file.specs.Records.{SignatureRecord};

    ghost Value = { SignatureRecord };

    ghost view = { λ it. record { id = it.id; sequences = it.sequences.items } };
}

impl InternalSignature {
    /// Makes a signature of its byte sequences, in the file's order. Allocates nothing.
    pub fn new(id: u32, sequences: Vec<SequenceRecord>) -> InternalSignature
        ensures { result ≡ record { id = id; sequences = sequences.items } }
    {
        InternalSignature { id, sequences }
    }

    /// Returns the attribute `ID`, by which formats name the signature.
    pub fn id(&self) -> u32
        ensures { result ≡ self.now.id }
    {
        self.id
    }

    /// Returns the byte sequences in the file's order.
    pub fn sequences(&self) -> &[SequenceRecord]
        ensures { result.now ≡ self.now.sequences }
    {
        self.sequences.as_slice()
    }
}
