//! Why a document is not read: a problem of its own, or memory; and how one kind of fault becomes another.

ghost use Rattle.std.specs.Prelude.{◌≡◌};
ghost use Rattle.droid_xml.specs.declared.problem.Fault.TheVariants as faults;
ghost use Rattle.droid_xml.specs.declared.problem.Stop.TheVariants as stops;

use std::alloc::{AllocError, AllocFailed};

/// Why a document is not read.
#[derive(Clone, Copy)]
pub enum Problem {
    /// It is not well-formed.
    NotWellFormed,
    /// It has a document type declaration.
    Doctype,
    /// More than 16 elements are open at once.
    TooDeep,
    /// An element has more than 64 attributes.
    TooManyAttributes,
    /// It is declared to be in an encoding other than UTF-8 and US-ASCII, or in US-ASCII with other bytes in it.
    Encoding,
}

/// Why reading stopped.
#[derive(Clone, Copy)]
pub enum Fault {
    /// Memory ran out.
    Memory,
    /// The document has this problem, in a piece that begins in this line. Lines count from 1.
    Problem { problem: Problem, line: usize },
}

/// As [`Fault`], without a line: inner functions do not know where in the document they read.
#[derive(Clone, Copy)]
pub(crate) enum Stop {
    Memory,
    Problem(Problem),
}

impl<T: Drop> From<AllocFailed<T>> for Fault {
    ghost from_gives = { λ _ e. e ≡ faults.Memory };

    /// Drops what there was no memory for.
    fn from(_: AllocFailed<T>) -> Self {
        Fault::Memory
    }
}

impl From<AllocError> for Stop {
    ghost from_gives = { λ _ e. e ≡ stops.Memory };

    /// Memory ran out.
    fn from(_: AllocError) -> Self {
        Stop::Memory
    }
}

impl<T: Drop> From<AllocFailed<T>> for Stop {
    ghost from_gives = { λ _ e. e ≡ stops.Memory };

    /// Drops what there was no memory for.
    fn from(_: AllocFailed<T>) -> Self {
        Stop::Memory
    }
}

impl From<Problem> for Stop {
    ghost from_gives = { λ problem e. e ≡ stops.Problem problem };

    /// Lets `?` return a problem of the document.
    fn from(problem: Problem) -> Self {
        Stop::Problem(problem)
    }
}
