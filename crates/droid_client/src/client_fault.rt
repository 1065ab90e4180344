//! The faults of the client's calls: of submitting a request, and of taking a reply.

ghost use Rattle.std.specs.Prelude.{◌≡◌};

use std::alloc::AllocError;
use thiserror::Error;

/// Why a request was not submitted. The client is unchanged.
#[derive(Clone, Copy, Debug, Error)]
pub enum SubmitFault {
    /// The next number would be 2^63.
    #[error("all numbers are used up")]
    NumbersUsedUp,
    /// Out of memory.
    #[error("out of memory")]
    Memory,
}

impl From<AllocError> for SubmitFault {
    ghost use Rattle.droid_client.specs.declared.client_fault.SubmitFault.{SubmitFault};

    ghost from_gives = { λ error fault. fault ≡ SubmitFault.Memory };

    /// Reports out of memory as `Memory`.
    fn from(_: AllocError) -> SubmitFault {
        SubmitFault::Memory
    }
}

/// Why a reply was not taken. The client is unchanged.
#[derive(Clone, Copy, Debug, Error)]
pub enum HearFault {
    /// The frame holds no reply.
    #[error("the frame holds no reply")]
    Malformed,
    /// Out of memory.
    #[error("out of memory")]
    Memory,
}
