//! The errors of writing an export.

ghost use Rattle.std.specs.Prelude.{◌≡◌};

use droid_frame::WriteFault;
use std::alloc::AllocError;
use thiserror::Error;

/// Why an export could not be written. The specification names it, as the fault of `export`.
#[derive(Clone, Copy, Debug, Error)]
pub enum ExportFault {
    /// Out of memory. Nothing was written.
    #[error("out of memory")]
    Memory,
    /// The writer failed, was interrupted more than 64 times, or took no more bytes.
    #[error("the export could not be written past its first {written} bytes")]
    Write {
        /// The number of bytes that were written: exactly the first ones of the text.
        written: usize,
    },
}

impl From<AllocError> for ExportFault {
    ghost use Rattle.droid_export.specs.declared.fault.ExportFault.TheVariants.{Memory};

    ghost from_gives = { λ _ fault. fault ≡ Memory };

    fn from(_error: AllocError) -> ExportFault {
        ExportFault::Memory
    }
}

impl From<WriteFault> for ExportFault {
    ghost use Rattle.droid_export.specs.declared.fault.ExportFault.TheVariants.{Write};

    ghost from_gives = { λ from fault. fault ≡ Write from.written };

    fn from(fault: WriteFault) -> ExportFault {
        ExportFault::Write {
            written: fault.written,
        }
    }
}
