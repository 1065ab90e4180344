//! Why a request got no reply.

ghost use Rattle.std.specs.Prelude.{◌≡◌};
ghost use Rattle.droid_remote.specs.TransferFaults.{is_refusal};

use droid_frame::Refusal;
use std::alloc::AllocError;

/// Why a request got no reply that the client accepts.
#[derive(Clone, Copy)]
pub enum TransferFault {
    /// Out of memory, here or in the service.
    Memory,
    /// No connection held until a reply came, and the time that may be waited is over.
    Broken,
    /// The service sent a frame that is no reply to the request.
    Stranger,
    /// On a new connection, the service did not repeat what it answered before: it lost what was sent, or is another
    /// service.
    Restarted,
    /// A piece that was in flight, or a part of an export, was refused, for another reason than memory.
    Refused(Refusal),
    /// The service has no place for another unfinished file, and the time that may be waited is over.
    Busy,
}

impl TransferFault {
    /// Returns whether a piece was refused: then the connection still stands, and other replies can be read.
    pub(crate) fn is_refusal(self) -> bool
        ensures { result ≡ is_refusal self }
    {
        match self {
            TransferFault::Refused(_) => true,
            _ => false,
        }
    }
}

impl From<AllocError> for TransferFault {
    ghost use Rattle.droid_remote.specs.declared.transfer.transfer_fault.TransferFault.TheVariants.{Memory};

    ghost from_gives = { λ _ fault. fault ≡ Memory };

    /// Says that memory ran out here. That it ran out in the service is the same fault.
    fn from(_error: AllocError) -> TransferFault {
        TransferFault::Memory
    }
}
