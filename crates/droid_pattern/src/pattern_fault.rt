//! The errors of reading a pattern, and how errors of allocation become one.

ghost use Rattle.std.specs.Prelude.{◌≡◌};
ghost use Rattle.droid_pattern.specs.declared.pattern_fault.PatternFault.TheVariants.{Memory};

use std::alloc::{AllocError, AllocFailed};
use thiserror::Error;

/// Why a pattern could not be read.
#[derive(Clone, Copy, Debug, Error)]
pub enum PatternFault {
    /// The text is not a pattern of the grammar.
    #[error("the text is no pattern")]
    BadPattern,
    /// Out of memory.
    #[error("out of memory")]
    Memory,
}

impl From<AllocError> for PatternFault {
    ghost from_gives = { λ _ fault. fault ≡ Memory };

    fn from(_error: AllocError) -> PatternFault {
        PatternFault::Memory
    }
}

impl<T: Drop> From<AllocFailed<T>> for PatternFault {
    ghost from_gives = { λ _ fault. fault ≡ Memory };

    fn from(_error: AllocFailed<T>) -> PatternFault {
        PatternFault::Memory
    }
}
