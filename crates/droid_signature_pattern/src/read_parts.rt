//! Subsequences as `sequence_reader` returns them: with offsets that a registry can hold, and terms in place of texts.

ghost use Rattle.std.specs.Prelude.{◌≡◌, map};
ghost use Rattle.droid_signature_pattern.specs.TermValues.{term_of};

use crate::term::TextTerm;
use droid_pronom::Offsets;
use std::marker::Model;

/// A fragment: its position, how far away it lies, and its terms.
#[derive(Drop)]
pub(crate) struct ReadFragment {
    position: u32,
    least: u16,
    most: u16,
    terms: Vec<TextTerm>,
}

impl Model for ReadFragment {
    ghost use Rattle.std.specs.Prelude.{map};
    ghost use Rattle.droid_signature_pattern.specs.TermValues.{term_of};
    ghost use Rattle.droid_signature_pattern.specs.Parts as spec;

    ghost Value = { spec.ReadFragment };

    ghost view = { λ it.
        record { position = it.position; least = it.least; most = it.most; terms = map term_of it.terms.items } };
}

impl ReadFragment {
    /// Makes a fragment. Allocates nothing.
    pub(crate) fn new(position: u32, least: u16, most: u16, terms: Vec<TextTerm>) -> ReadFragment
        ensures { result ≡ record { position = position; least = least; most = most; terms = map term_of terms.items } }
    {
        ReadFragment {
            position,
            least,
            most,
            terms,
        }
    }

    /// Returns the position: 1 lies beside the sequence.
    pub(crate) fn position(&self) -> u32
        ensures { result ≡ self.now.position }
    {
        self.position
    }

    /// Returns the least number of bytes between the fragment and what lies further in.
    pub(crate) fn least(&self) -> u16
        ensures { result ≡ self.now.least }
    {
        self.least
    }

    /// Returns the largest number of bytes between the fragment and what lies further in.
    pub(crate) fn most(&self) -> u16
        ensures { result ≡ self.now.most }
    {
        self.most
    }

    /// Returns the terms.
    pub(crate) fn terms(&self) -> &[TextTerm]
        ensures { map term_of result.now ≡ self.now.terms }
    {
        self.terms.as_slice()
    }
}

/// A subsequence: its lower offset, its terms, and the fragments on both sides in the file's order.
#[derive(Drop)]
pub(crate) struct ReadPart {
    least: u16,
    left: Vec<ReadFragment>,
    terms: Vec<TextTerm>,
    right: Vec<ReadFragment>,
}

impl Model for ReadPart {
    ghost use Rattle.std.specs.Prelude.{map};
    ghost use Rattle.droid_signature_pattern.specs.TermValues.{term_of};
    ghost use Rattle.droid_signature_pattern.specs.Parts as spec;

    ghost Value = { spec.ReadPart };

    ghost view = { λ it.
        record { least = it.least; left = it.left.items; terms = map term_of it.terms.items; right = it.right.items } };
}

impl ReadPart {
    /// Makes a subsequence. Allocates nothing.
    pub(crate) fn new(
        least: u16,
        left: Vec<ReadFragment>,
        terms: Vec<TextTerm>,
        right: Vec<ReadFragment>,
    ) -> ReadPart
        ensures { result
            ≡ record { least = least; left = left.items; terms = map term_of terms.items; right = right.items } }
    {
        ReadPart {
            least,
            left,
            terms,
            right,
        }
    }

    /// Returns the lower offset: of a further subsequence the least number of bytes between it and the one before.
    pub(crate) fn least(&self) -> u16
        ensures { result ≡ self.now.least }
    {
        self.least
    }

    /// Returns the left fragments in the file's order.
    pub(crate) fn left(&self) -> &[ReadFragment]
        ensures { result.now ≡ self.now.left }
    {
        self.left.as_slice()
    }

    /// Returns the terms.
    pub(crate) fn terms(&self) -> &[TextTerm]
        ensures { map term_of result.now ≡ self.now.terms }
    {
        self.terms.as_slice()
    }

    /// Returns the right fragments in the file's order.
    pub(crate) fn right(&self) -> &[ReadFragment]
        ensures { result.now ≡ self.now.right }
    {
        self.right.as_slice()
    }
}

/// A byte sequence: where its first subsequence may lie, and its subsequences.
#[derive(Drop)]
pub(crate) struct ReadSequence {
    pub offsets: Offsets,
    pub first: ReadPart,
    pub further: Vec<ReadPart>,
}
