//! Faults of reading a request or reply from its frame.

ghost use Rattle.std.specs.Prelude.{◌≡◌};

use std::alloc::AllocError;

/// Why no request or reply could be read from a frame.
#[derive(Clone, Copy, PartialEq, Eq)]
pub enum BodyFault {
    /// The version or kind is unknown, the body is not valid for them, or the number of a request is too large.
    Malformed,
    /// Out of memory.
    Memory,
}

impl From<AllocError> for BodyFault {
    ghost use Rattle.droid_frame.specs.declared.body_fault.BodyFault.{BodyFault};

    ghost from_gives = { λ error fault. fault ≡ BodyFault.Memory };

    /// Reports out of memory as `Memory`, so that `?` can be used on an allocation.
    fn from(_: AllocError) -> BodyFault {
        BodyFault::Memory
    }
}
