//! Errors of a submission over a connection, and of reading an export.

ghost use Rattle.std.specs.Prelude.{◌≡◌};
ghost use Rattle.droid_remote.specs.RemoteSubmissions.{remote_fault_of};

use crate::transfer::transfer_fault::TransferFault;
use droid_upload::SubmissionFault;
use std::alloc::AllocError;

/// Why a tree was not submitted, or only in part.
#[derive(Clone, Copy)]
pub enum RemoteFault {
    /// The walk ended early. It is never `SubmissionFault::Ended`: then this is `Sending`.
    Walking(SubmissionFault),
    /// A request got no reply that the client accepts.
    Sending(TransferFault),
}

/// Returns the fault of a walk that ended early. `stopped` is the sender's: why it sends no more. Where the walk only
/// says `Ended`, that is the fault; if the sender has none, or the walk ended for a reason of its own, it is the
/// walk's.
pub(crate) fn remote_fault_of(stopped: Option<TransferFault>, fault: SubmissionFault) -> RemoteFault
    ensures { result ≡ remote_fault_of stopped fault }
{
    match (stopped, fault) {
        (Some(stop), SubmissionFault::Ended) => RemoteFault::Sending(stop),
        _ => RemoteFault::Walking(fault),
    }
}

/// Why an export was not read.
#[derive(Clone, Copy)]
pub enum DownloadFault {
    /// A part was not received.
    Sending(TransferFault),
    /// The export has this many bytes, more than `EXPORT_LIMIT`.
    Long(u64),
    /// Out of memory for the export's text.
    NoRoom,
}

impl From<TransferFault> for DownloadFault {
    ghost use Rattle.droid_remote.specs.declared.remote_fault.DownloadFault.TheVariants.{Sending};

    ghost from_gives = { λ from fault. fault ≡ Sending from };

    /// Says that a part was not received, for this reason.
    fn from(fault: TransferFault) -> DownloadFault {
        DownloadFault::Sending(fault)
    }
}

impl From<AllocError> for DownloadFault {
    ghost use Rattle.droid_remote.specs.declared.remote_fault.DownloadFault.TheVariants.{NoRoom};

    ghost from_gives = { λ _ fault. fault ≡ NoRoom };

    /// Says that there is no memory for the export's text. Memory that a request lacks is `Sending`, by the one above.
    fn from(_error: AllocError) -> DownloadFault {
        DownloadFault::NoRoom
    }
}
