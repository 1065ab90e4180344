//! The ending by the table of faults of a submission that ended early after requests were begun, and of an export that
//! was not read: no reply came, the service refused, or the walk over the tree could not go on.
//!
//! The forms come from the crates below, `droid_remote` and `droid_upload`; `told` of `submission_told.rt` has the
//! others.

ghost use Rattle.std.specs.Prelude.{◌≡◌};
ghost use Rattle.droid_cmd_submit.specs.ToldTransfers.{refusal_row, told_submission_fault, told_transfer};
ghost use Rattle.droid_cmd_submit.specs.ToldTransfers.{told_unsubmitted};
ghost use Rattle.droid_terminal.specs.Endings.{said, told};

use droid_arguments::SubmitOptions;
use droid_frame::{Limit, Refusal};
use droid_remote::{RemoteFault, TransferFault};
use droid_terminal::{About, Detail, Ending, Row, faults};
use droid_upload::SubmissionFault;

/// Returns the ending where a submission ended early: by the walk's fault, or by the transfer's.
pub(crate) fn told_unsubmitted<'a>(fault: RemoteFault, options: SubmitOptions<'a>) -> Ending<'a>
    ensures { told result ≡ told_unsubmitted fault options.entry }
{
    match fault {
        RemoteFault::Walking(fault) => told_submission_fault(fault, options),
        RemoteFault::Sending(fault) => told_transfer(fault, options),
    }
}

/// Returns the ending for a [`SubmissionFault`]: the walk over the tree ended early, after requests were begun. A fault
/// of the counting before them is told by `walk_row` of `submission_told.rt`.
fn told_submission_fault<'a>(fault: SubmissionFault, options: SubmitOptions<'a>) -> Ending<'a>
    ensures { told result ≡ told_submission_fault fault options.entry }
{
    let port = About::Port(options.to.port);
    let folder = About::Path(options.folder);
    match fault {
        SubmissionFault::Memory => told_transfer(TransferFault::Memory, options),
        SubmissionFault::Ended => told_transfer(TransferFault::Broken, options),
        SubmissionFault::Reply => Ending::by(faults::STRANGE_REPLY, port),
        SubmissionFault::Refused(refusal) => Ending::by(refusal_row(refusal), port),
        SubmissionFault::TooLong => Ending::by(faults::LONG_REQUEST, folder),
        SubmissionFault::Folders => Ending::by(faults::NEW_FOLDERS, folder),
    }
}

/// Returns the ending where a request got no reply that the client accepts: one of the submission, or one for a part of
/// the export. A wait is told with its limit in seconds.
pub(crate) fn told_transfer<'a>(fault: TransferFault, options: SubmitOptions<'a>) -> Ending<'a>
    ensures { told result ≡ told_transfer fault options.entry.to }
{
    let port = About::Port(options.to.port);
    let wait = Detail::Number(u64::from(options.to.wait));
    match fault {
        TransferFault::Memory => Ending::by(faults::MEMORY_SOMEWHERE, About::Nothing),
        TransferFault::Broken => Ending::detailed(faults::BROKEN, port, wait),
        TransferFault::Stranger => Ending::by(faults::STRANGER, port),
        TransferFault::Restarted => Ending::by(faults::RESTARTED, port),
        TransferFault::Refused(refusal) => Ending::by(refusal_row(refusal), port),
        TransferFault::Busy => Ending::detailed(faults::BUSY, port, wait),
    }
}

/// Returns the row of a refusal that ends a submission: each refusal of the protocol has one, also those that mostly
/// skip a folder or file. A new one needs a line here and in `refusal_row` of `specs/ToldTransfers.antt`.
fn refusal_row(refusal: Refusal) -> Row
    ensures { said result ≡ refusal_row refusal }
{
    match refusal {
        Refusal::Malformed => faults::MALFORMED,
        Refusal::NumberReused => faults::NUMBER_REUSED,
        Refusal::NoSuchProfile => faults::NO_SUCH_PROFILE,
        Refusal::NoSuchNode => faults::NO_SUCH_NODE,
        Refusal::NotAFolder => faults::NOT_A_FOLDER_THERE,
        Refusal::NotAFile => faults::NOT_A_FILE_THERE,
        Refusal::BadName => faults::BAD_NAME,
        Refusal::PathTooLong => faults::PATH_TOO_LONG,
        Refusal::NameTaken => faults::NAME_TAKEN,
        Refusal::BadOption => faults::BAD_OPTION,
        Refusal::TooLarge => faults::TOO_LARGE,
        Refusal::AlreadyFinished => faults::ALREADY_FINISHED,
        Refusal::BadPiece => faults::BAD_PIECE,
        Refusal::PieceHeld => faults::PIECE_HELD,
        // Each piece was taken before, or is less than sixteen behind one that was: `IN_FLIGHT_LIMIT` of
        // `droid_remote`.
        Refusal::TooFarAhead { .. } => faults::TOO_FAR_AHEAD,
        Refusal::Incomplete { .. } => faults::INCOMPLETE,
        Refusal::LimitReached(Limit::Profiles) => faults::FULL_SERVICE,
        Refusal::LimitReached(Limit::Nodes) => faults::NODES,
        Refusal::LimitReached(Limit::Unfinished) => faults::UNFINISHED,
        Refusal::Memory => faults::SERVICE_MEMORY,
        Refusal::Store => faults::STORE_FAILED,
    }
}
