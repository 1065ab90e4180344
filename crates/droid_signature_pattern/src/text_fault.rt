//! The errors of reading a text, before they are reasons for leaving a signature out.

ghost use Rattle.std.specs.Prelude.{◌≡◌};
ghost use Rattle.droid_signature_pattern.specs.declared.text_fault.TextFault.TheVariants.{Memory};

use std::alloc::{AllocError, AllocFailed};

/// Why a text could not be read.
#[derive(Clone, Copy)]
pub enum TextFault {
    /// The text does not follow the grammar.
    BadText,
    /// Out of memory.
    Memory,
}

impl From<AllocError> for TextFault {
    ghost from_gives = { λ _ fault. fault ≡ Memory };

    /// Memory ran out.
    fn from(_error: AllocError) -> TextFault {
        TextFault::Memory
    }
}

impl<T: Drop> From<AllocFailed<T>> for TextFault {
    ghost from_gives = { λ _ fault. fault ≡ Memory };

    /// Memory ran out. Drops what it ran out for.
    fn from(_error: AllocFailed<T>) -> TextFault {
        TextFault::Memory
    }
}
