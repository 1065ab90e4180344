//! The records of subsequences and their fragments.

ghost use Rattle.std.specs.Prelude.{◌≡◌};

use droid_frame::Text;
use std::marker::Model;

/// Two offsets in bytes, as the attributes give them. An attribute that is missing is `None`.
#[derive(Clone, Copy)]
pub struct OffsetRange {
    /// `SubSeqMinOffset` or `MinOffset`.
    pub min: Option<u32>,
    /// `SubSeqMaxOffset` or `MaxOffset`.
    pub max: Option<u32>,
}

/// A fragment: bytes that lie on one side of a subsequence's `Sequence`.
pub struct Fragment {
    /// `Position`: 1 lies beside the `Sequence`, 2 beside 1, and so on.
    pub position: u32,
    /// How far away it lies.
    pub offsets: OffsetRange,
    /// The element's text.
    pub text: Text,
}

// Written by hand, so that the crates above do not prove again how each part is dropped.
impl Drop for Fragment {
    fn drop(self) {
        let Fragment {
            position: _position,
            offsets: _offsets,
            text: _text,
        } = self;
    }
}

/// A subsequence: its `Sequence`, and the fragments on both sides in the file's order.
pub struct SubSequence {
    position: u32,
    offsets: OffsetRange,
    text: Text,
    left: Vec<Fragment>,
    right: Vec<Fragment>,
}

// Written by hand, so that the crates above do not prove again how each part is dropped.
impl Drop for SubSequence {
    fn drop(self) {
        let SubSequence {
            position: _position,
            offsets: _offsets,
            text: _text,
            left: _left,
            right: _right,
        } = self;
    }
}

impl Model for SubSequence {
    ghost use Rattle.droid_signature_file.specs.Records.{SubSequenceRecord};

    ghost Value = { SubSequenceRecord };

    ghost view = { λ it.
        record {
          position = it.position;
          offsets = it.offsets;
          text = it.text;
          left = it.left.items;
          right = it.right.items;
        } };
}

impl SubSequence {
    /// Makes a subsequence of its attributes, the text of its `Sequence`, and its fragments in the file's order.
    /// Allocates nothing.
    pub fn new(
        position: u32,
        offsets: OffsetRange,
        text: Text,
        left: Vec<Fragment>,
        right: Vec<Fragment>,
    ) -> SubSequence
        ensures { result
            ≡ record { position = position; offsets = offsets; text = text; left = left.items; right = right.items } }
    {
        SubSequence {
            position,
            offsets,
            text,
            left,
            right,
        }
    }

    /// Returns the attribute `Position`: which of the byte sequence's subsequences it is, counted from 1.
    pub fn position(&self) -> u32
        ensures { result ≡ self.now.position }
    {
        self.position
    }

    /// Returns `SubSeqMinOffset` and `SubSeqMaxOffset`, each if it is there.
    pub fn offsets(&self) -> OffsetRange
        ensures { result ≡ self.now.offsets }
    {
        self.offsets
    }

    /// Returns the text of the `Sequence`, without white space at both ends. What it says is not checked.
    pub fn text(&self) -> &str
        ensures { result.now ≡ self.now.text }
    {
        self.text.as_str()
    }

    /// Returns the left fragments in the file's order.
    pub fn left(&self) -> &[Fragment]
        ensures { result.now ≡ self.now.left }
    {
        self.left.as_slice()
    }

    /// Returns the right fragments in the file's order.
    pub fn right(&self) -> &[Fragment]
        ensures { result.now ≡ self.now.right }
    {
        self.right.as_slice()
    }
}
