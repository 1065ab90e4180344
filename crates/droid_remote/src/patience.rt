//! A request that is sent again while the service has no place for another unfinished file.

ghost use Rattle.std.specs.Prelude.{◌≡◌, false, IfErr, IfOk, MatchOption};
ghost use Rattle.droid_remote.specs.Calls.{Waits, Wherever};
ghost use Rattle.droid_remote.specs.SenderCalls.{Misses, is_busy};
ghost use Rattle.droid_remote.specs.Patience.{HasNoPlace, HasPlace, MissesCopy};

use crate::transfer::connection::Connection;
use crate::transfer::in_flight::InFlight;
use crate::transfer::transfer_fault::TransferFault;
use droid_frame::{Frame, Limit, Refusal, Reply};
use std::alloc::{AllocError, Global};

/// Sends a frame and returns its reply. While the service has no place for another unfinished file, sends it again
/// after a pause. Fails with `Busy` when the time that may be waited is over; the connection measures it, from the
/// first such reply on. Other faults are those of [`InFlight::ask`], and `Memory` if there is none for a copy of the
/// frame.
///
/// `u64::MAX` tries are never made. `GivesUp` of `specs/TransferFaults.antt` has that number, so that `Busy` behind
/// them is proved.
pub(crate) fn ask_patiently<C: Connection>(
    in_flight: &mut InFlight<C>,
    frame: Frame,
) -> Result<Reply, TransferFault>
    ensures answered { IfOk result (λ reply.
        Wherever in_flight.old (λ known facts. Waits C.does known frame reply facts in_flight.old in_flight.new)) }
    ensures free { IfOk result (λ reply. is_busy reply ≡ false) }
    ensures missed { IfErr result (λ fault.
        Wherever in_flight.old (λ known facts. Misses C.does known frame fault facts in_flight.old in_flight.new)) }
{
    let first = ask_once(in_flight, &frame)?;
    match first {
        Some(reply) => return Ok(reply),
        None => {}
    }
    in_flight.start_wait();
    for _ in 0..u64::MAX {
        if !in_flight.pause() {
            return Err(TransferFault::Busy);
        }
        let again = ask_once(in_flight, &frame)?;
        match again {
            Some(reply) => return Ok(reply),
            None => {}
        }
    }
    Err(TransferFault::Busy)
}

/// Sends a copy of a frame and returns its reply, or `None` if the service has no place for another unfinished file.
/// Fails as [`ask_copy`].
fn ask_once<C: Connection>(
    in_flight: &mut InFlight<C>,
    frame: &Frame,
) -> Result<Option<Reply>, TransferFault>
    ensures answered { IfOk result (λ came.
        MatchOption came (HasNoPlace C.does frame.now in_flight.old in_flight.new) (λ reply.
        HasPlace C.does frame.now reply in_flight.old in_flight.new)) }
    ensures missed { IfErr result (λ fault.
        Wherever in_flight.old (λ known facts.
        MissesCopy C.does known frame.now fault facts in_flight.old in_flight.new)) }
{
    let reply = ask_copy(in_flight, frame)?;
    if is_busy(&reply) {
        return Ok(None);
    }
    Ok(Some(reply))
}

/// Sends a copy of a frame and returns its reply, whatever it is. The frame itself may have to be sent again. Without
/// memory for the copy nothing is sent, and all stays; other faults are those of [`InFlight::ask`].
fn ask_copy<C: Connection>(
    in_flight: &mut InFlight<C>,
    frame: &Frame,
) -> Result<Reply, TransferFault>
    ensures answered { IfOk result (λ reply.
        Wherever in_flight.old (λ known facts. Waits C.does known frame.now reply facts in_flight.old in_flight.new)) }
    ensures missed { IfErr result (λ fault.
        Wherever in_flight.old (λ known facts.
        MissesCopy C.does known frame.now fault facts in_flight.old in_flight.new)) }
{
    let copy = copy_of(in_flight.alloc, frame)?;
    let reply = in_flight.ask(copy)?;
    Ok(reply)
}

/// Copies the frame of a request, with its number. Fails only if memory runs out.
fn copy_of(alloc: Global, frame: &Frame) -> Result<Frame, AllocError>
    ensures { IfOk result (λ copy. copy ≡ frame.now) }
{
    let body = frame.body.try_clone(alloc)?;
    Ok(Frame {
        version: frame.version,
        kind: frame.kind,
        client: frame.client,
        number: frame.number,
        body,
    })
}

/// Returns whether a reply refuses for the limit of unfinished files: the one refusal that a while may end.
fn is_busy(reply: &Reply) -> bool
    ensures { result ≡ is_busy reply.now }
{
    match reply {
        Reply::Refused(Refusal::LimitReached(Limit::Unfinished)) => true,
        _ => false,
    }
}
