//! The rows of a registry's tables: extensions, priorities, and signatures with their byte sequences. A row names a
//! format by its place in the registry, counted from 0.

ghost use Rattle.std.specs.Prelude.{◌≡◌, ◌++◌, ◌∷◌, [], ℕ, List, IsTrue, IfOk, OnOk, OnErr};
ghost use Rattle.std.specs.List.{AllByRecursion};
ghost use Rattle.droid_pronom.specs.FoundWindows.{HitsWindows};

use crate::head::Head;
use droid_frame::Text;
use droid_pattern::Pattern;
use std::alloc::{AllocError, Global};
use std::marker::Model;

/// An extension that a format lists, in lower case.
#[derive(Drop)]
pub struct ListedExtension {
    pub place: u32,
    pub extension: Text,
}

/// The format at `place` has priority over the one at `over`.
#[derive(Clone, Copy)]
pub struct Priority {
    pub place: u32,
    pub over: u32,
}

/// The end of a file from which the offsets of a byte sequence count.
#[derive(Clone, Copy)]
pub enum Anchor {
    /// The beginning: the offset is the number of bytes before the match.
    Bof,
    /// The end: the offset is the number of bytes after the match.
    Eof,
}

/// The offsets at which a byte sequence may match: from `min` to `max`, both included.
#[derive(Clone, Copy)]
pub struct Offsets {
    pub anchor: Anchor,
    pub min: u16,
    pub max: u16,
}

/// A byte sequence: a pattern and the offsets at which it may match.
#[derive(Drop)]
pub struct ByteSequence {
    pub offsets: Offsets,
    pub pattern: Pattern,
}

/// A signature of a format. It hits if all of its byte sequences hit.
#[derive(Drop)]
pub struct Signature {
    place: u32,
    // The bytes with one of which a match of the first byte sequence begins, if that is known.
    head: Option<Head>,
    sequences: Vec<ByteSequence>,
}

impl Model for Signature {
    ghost use Rattle.droid_pronom.specs.Registry.{Signed};

    ghost Value = { Signed };

    ghost view = { λ signature. record { place = signature.place; sequences = signature.sequences.items } };

    ghost use Rattle.droid_pronom.specs.Heads.{KeepsHead};

    ghost invariant = { λ signature. KeepsHead signature.head signature.sequences.items };
}

impl Signature {
    /// Makes a signature of the format at `place` with its first byte sequence. Fails only if memory runs out.
    pub fn new(alloc: Global, place: u32, first: ByteSequence) -> Result<Signature, AllocError>
        ensures { IfOk result (λ signature. signature ≡ record { place = place; sequences = first ∷ [] }) }
    {
        let head = Head::of(&first);
        let mut sequences = Vec::new(alloc);
        sequences.push(first)?;
        Ok(Signature {
            place,
            head,
            sequences,
        })
    }

    /// Adds a byte sequence, after the others; all have to hit. Fails only if memory runs out, and then leaves the
    /// signature as it was.
    pub fn push(&mut self, sequence: ByteSequence) -> Result<(), AllocError>
        ensures ok { OnOk result (self.new ≡ record self.old { sequences = self.old.sequences ++ sequence ∷ [] }) }
        ensures err { OnErr result (self.new ≡ self.old) }
    {
        self.sequences.push(sequence)?;
        Ok(())
    }

    /// Returns the place of the signature's format.
    pub fn place(&self) -> u32
        ensures { result ≡ self.now.place }
    {
        self.place
    }

    /// Returns whether a byte among `first`, the file's first bytes, shows that not all byte sequences hit. Only `true`
    /// promises anything: it spares the search for matches.
    pub(crate) fn is_ruled_out(&self, first: &[u8]) -> bool
        ensures { IsTrue result → (last : List ℕ) → AllByRecursion (HitsWindows first.now last) self.now.sequences → ⊥ }
    {
        match self.head {
            Some(head) => !head.is_in(first),
            None => false,
        }
    }

    /// Returns the byte sequences, all of which have to hit.
    pub fn sequences(&self) -> &[ByteSequence]
        ensures { result.now ≡ self.now.sequences }
    {
        self.sequences.as_slice()
    }
}
