//! Why a signature file is not read; and how one kind of fault becomes another.

ghost use Rattle.std.specs.Prelude.{◌≡◌};
ghost use Rattle.droid_signature_file.specs.declared.fault.Stop.TheVariants as stops;

use droid_xml::Problem;
use std::alloc::{AllocError, AllocFailed};

/// What is wrong with a document that is no signature file.
#[derive(Clone, Copy)]
pub enum Wrong {
    /// Its root is not `FFSignatureFile`.
    Root,
    /// A number is missing, is not written in decimal digits, or is 4,294,967,296 or more.
    Number,
    /// A `SubSequence` has no `Sequence` or several.
    Sequence,
}

/// Why a signature file is not read.
#[derive(Clone, Copy)]
pub enum FileFault {
    /// Out of memory.
    Memory,
    /// The document has this problem, in a piece that begins in this line. Lines count from 1.
    Document { problem: Problem, line: usize },
    /// The document is no signature file.
    NotASignatureFile(Wrong),
}

/// Why the reading of a document stopped: as [`FileFault`], once the document itself has no problem.
#[derive(Clone, Copy)]
pub(crate) enum Stop {
    Memory,
    Wrong(Wrong),
}

impl From<AllocError> for Stop {
    ghost from_gives = { λ _ e. e ≡ stops.Memory };

    /// Memory ran out.
    fn from(_: AllocError) -> Self {
        Stop::Memory
    }
}

impl<T: Drop> From<AllocFailed<T>> for Stop {
    ghost from_gives = { λ _ e. e ≡ stops.Memory };

    /// Memory ran out. Drops what it ran out for.
    fn from(_: AllocFailed<T>) -> Self {
        Stop::Memory
    }
}

impl From<Wrong> for Stop {
    ghost from_gives = { λ wrong e. e ≡ stops.Wrong wrong };

    /// Lets `?` return what is wrong.
    fn from(wrong: Wrong) -> Self {
        Stop::Wrong(wrong)
    }
}
