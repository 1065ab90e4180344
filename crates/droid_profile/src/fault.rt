//! Why the profiling of a tree ended early.

use crate::recipient::RecipientFault;
use std::alloc::AllocError;

/// Why the profiling of a tree ended early.
#[derive(Clone, Copy)]
pub enum ProfileFault {
    /// Out of memory.
    Memory,
    /// There are more than 4,294,967,295 folders and files.
    Numbers,
    /// The recipient did not take a record.
    Recipient(RecipientFault),
}

// A call that runs out of memory ends the profiling with `Memory`, by `?` alone.
impl From<AllocError> for ProfileFault {
    ghost use Rattle.std.specs.Prelude.{◌≡◌};
    ghost use Rattle.droid_profile.specs.declared.fault.ProfileFault.TheVariants.{Memory};

    ghost from_gives = { λ _ fault. fault ≡ Memory };

    fn from(_error: AllocError) -> ProfileFault {
        ProfileFault::Memory
    }
}
