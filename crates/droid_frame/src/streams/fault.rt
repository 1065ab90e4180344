//! Faults of reading a frame.

ghost use Rattle.std.specs.Prelude.{◌≡◌};

use crate::io::stream_fault::ReadFault;
use std::alloc::AllocError;
use thiserror::Error;

/// Why no frame could be read. The bytes that were read of the frame are lost, so the stream is of no further use.
#[derive(Clone, Copy, Debug, PartialEq, Eq, Error)]
pub enum FrameFault {
    /// The stream ends inside a frame: in the header, or in the body that the header announces.
    #[error("the stream ends within a frame")]
    Truncated,
    /// The header's version is neither 1 nor 2.
    #[error("the version of a frame is neither 1 nor 2")]
    BadVersion,
    /// The header announces a body of more than 1,048,640 bytes in version 1, or 4,194,368 in version 2.
    #[error("the body of a frame is longer than its version allows")]
    TooLong,
    /// Out of memory for the body.
    #[error("out of memory")]
    Memory,
    /// The reader failed, or was interrupted for the 65th time in this frame.
    #[error("the stream could not be read")]
    Read,
}

impl From<AllocError> for FrameFault {
    ghost use Rattle.droid_frame.specs.declared.streams.fault.FrameFault.TheVariants.{Memory};

    ghost from_gives = { λ _ fault. fault ≡ Memory };

    /// Reports out of memory as `Memory`.
    fn from(_error: AllocError) -> FrameFault {
        FrameFault::Memory
    }
}

impl From<ReadFault> for FrameFault {
    ghost use Rattle.droid_frame.specs.declared.streams.fault.FrameFault.TheVariants.{Read};

    ghost from_gives = { λ _ fault. fault ≡ Read };

    /// Reports that the reader failed, or was interrupted too often, as `Read`.
    fn from(_fault: ReadFault) -> FrameFault {
        FrameFault::Read
    }
}
