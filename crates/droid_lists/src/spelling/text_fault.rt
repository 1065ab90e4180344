//! Why a profile's text cannot be compared.

use std::alloc::AllocError;

/// Why the CSV of a profile cannot be compared with what is known.
#[derive(Clone, Copy, Drop)]
pub enum TextFault {
    /// Out of memory.
    Memory,
    /// No profile has this CSV.
    Wrong {
        /// The first wrong record, counted from 1, which is that of the columns' names.
        record: u64,
        /// Its first wrong column, counted from 0.
        column: u8,
    },
}

// A call that runs out of memory ends the check with `Memory`, by `?` alone.
impl From<AllocError> for TextFault {
    ghost use Rattle.std.specs.Prelude.{◌≡◌};
    ghost use Rattle.droid_lists.specs.declared.spelling.text_fault.TextFault.TheVariants.{Memory};

    ghost from_gives = { λ _ fault. fault ≡ Memory };

    fn from(_error: AllocError) -> TextFault {
        TextFault::Memory
    }
}
