//! Errors that end a submission, and which fault a refusal or a client's fault is.

ghost use Rattle.std.specs.Prelude.{◌≡◌};
ghost use Rattle.droid_upload.specs.Faults.{fault_of_refusal, fault_of_reply};

use crate::client_fault::ClientFault;
use droid_frame::{Refusal, Reply};
use std::alloc::AllocError;

/// Why a submission ended early.
#[derive(Clone, Copy, PartialEq, Eq)]
pub enum SubmissionFault {
    /// Out of memory, here or in the service.
    Memory,
    /// No reply came. The client knows why.
    Ended,
    /// The service sent a reply that does not fit the request.
    Reply,
    /// The service refused a request, for a reason that is not the fault of a folder or file.
    Refused(Refusal),
    /// A request is too long for a frame.
    TooLong,
    /// There are more folders than a profile can have.
    Folders,
}

// A call that runs out of memory ends the submission with `Memory`, by `?` alone.
impl From<AllocError> for SubmissionFault {
    ghost use Rattle.droid_upload.specs.declared.submission_fault.SubmissionFault.TheVariants.{Memory};

    ghost from_gives = { λ _ fault. fault ≡ Memory };

    fn from(_error: AllocError) -> SubmissionFault {
        SubmissionFault::Memory
    }
}

// A client that has no reply ends the submission by `?`, too: with the fault of the refusal, if a piece was refused.
impl From<ClientFault> for SubmissionFault {
    ghost use Rattle.droid_upload.specs.Faults.{fault_of_client};

    ghost from_gives = { λ why fault. fault ≡ fault_of_client why };

    fn from(why: ClientFault) -> SubmissionFault {
        match why {
            ClientFault::Piece(refusal) => fault_of_refusal(refusal),
            ClientFault::Ended => SubmissionFault::Ended,
        }
    }
}

/// Returns the fault of a refusal that ends a submission: `Memory` if the service ran out of memory, otherwise
/// `Refused`.
pub(crate) fn fault_of_refusal(refusal: Refusal) -> SubmissionFault
    ensures { result ≡ fault_of_refusal refusal }
{
    match refusal {
        Refusal::Memory => SubmissionFault::Memory,
        other => SubmissionFault::Refused(other),
    }
}

/// Returns the fault of a reply that ends a submission: that of the refusal, or `Reply` for any other kind.
pub(crate) fn fault_of_reply(reply: Reply) -> SubmissionFault
    ensures { result ≡ fault_of_reply reply }
{
    match reply {
        Reply::Refused(refusal) => fault_of_refusal(refusal),
        _ => SubmissionFault::Reply,
    }
}
