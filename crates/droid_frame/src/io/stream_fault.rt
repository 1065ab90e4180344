//! The faults of reading and writing.

ghost use Rattle.std.specs.Prelude.{◌≡◌};

use std::alloc::AllocError;
use thiserror::Error;

/// The reader failed, or was interrupted more than 64 times.
#[derive(Clone, Copy, PartialEq, Eq)]
pub struct ReadFault;

/// Why an input could not be read to its end.
#[derive(Clone, Copy, PartialEq, Eq)]
pub enum InputFault {
    /// It has more bytes than the limit.
    TooLong,
    /// Out of memory.
    Memory,
    /// The reader failed, or was interrupted more than 64 times.
    Read,
}

impl From<ReadFault> for InputFault {
    ghost use Rattle.droid_frame.specs.declared.io.stream_fault.InputFault.TheVariants.{Read};

    ghost from_gives = { λ _ fault. fault ≡ Read };

    /// Reports that the reader failed, or was interrupted too often, as `Read`.
    fn from(_fault: ReadFault) -> InputFault {
        InputFault::Read
    }
}

impl From<AllocError> for InputFault {
    ghost use Rattle.droid_frame.specs.declared.io.stream_fault.InputFault.TheVariants.{Memory};

    ghost from_gives = { λ _ fault. fault ≡ Memory };

    /// Reports out of memory as `Memory`.
    fn from(_error: AllocError) -> InputFault {
        InputFault::Memory
    }
}

/// The writer failed, was interrupted more than 64 times, or took no byte.
#[derive(Clone, Copy, Debug, PartialEq, Eq, Error)]
#[error("the output could not be written past its first {written} bytes")]
pub struct WriteFault {
    /// The number of bytes written: exactly the first ones.
    pub written: usize,
}
