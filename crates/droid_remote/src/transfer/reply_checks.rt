//! What is done with the frames that come as replies: they are checked, read, and copied where the reply is kept.

ghost use Rattle.std.specs.Prelude.{◌≡◌, ◌↔◌, ℕ, IfErr, IfOk, IsTrue, OnOk};
ghost use Rattle.droid_frame.specs.Replies.{SpellsReply};
ghost use Rattle.droid_frame.specs.declared.reply.Reply.{Reply};
ghost use Rattle.droid_frame.specs.declared.reply.Reply.TheVariants as replies;
ghost use Rattle.droid_remote.specs.Answering.{IsTo};
ghost use Rattle.droid_remote.specs.TransferFaults.{ExplainsBody, ExplainsPiece, ExplainsTaken};

use crate::transfer::transfer_fault::TransferFault;
use droid_frame::{BodyFault, Frame, Refusal, Reply, reply_of};
use std::alloc::{AllocError, Global};

/// Returns whether a frame has a request's version, client and number.
pub(crate) fn is_to(came: &Frame, request: &Frame) -> bool
    ensures { IsTrue result ↔ IsTo request.now came.now }
{
    if came.version != request.version {
        return false;
    }
    if came.client != request.client {
        return false;
    }
    came.number == request.number
}

/// Returns whether two frames are equal in all fields: whether a reply is the known one.
pub(crate) fn is_same(one: &Frame, other: &Frame) -> bool
    ensures { IsTrue result ↔ (one.now ≡ other.now) }
{
    if one.version != other.version {
        return false;
    }
    if one.kind != other.kind {
        return false;
    }
    if one.client != other.client {
        return false;
    }
    if one.number != other.number {
        return false;
    }
    one.body.as_slice() == other.body.as_slice()
}

/// Copies a reply's frame: the copy is read, and `KnownRequests` keeps the frame. Fails only if memory runs out.
pub(crate) fn copy_of(alloc: Global, frame: &Frame) -> Result<Frame, AllocError>
    ensures { IfOk result (λ copy. copy ≡ frame.now) }
{
    let body = frame.body.try_clone(alloc)?;
    Ok(Frame {
        version: frame.version,
        kind: frame.kind,
        client: frame.client,
        number: frame.number,
        body,
    })
}

/// Reads the reply in a frame. One that spells no reply is the fault `Stranger`; out of memory is `Memory`.
pub(crate) fn read_reply(alloc: Global, came: Frame) -> Result<Reply, TransferFault>
    ensures spelled { IfOk result (SpellsReply came.version came.kind came.body) }
    ensures one { IfOk result (λ reply.
        (other : Reply) → SpellsReply came.version came.kind came.body other → other ≡ reply) }
    ensures fault { IfErr result (λ fault. ExplainsBody fault came) }
{
    match reply_of(alloc, came) {
        Ok(reply) => Ok(reply),
        Err(BodyFault::Memory) => Err(TransferFault::Memory),
        Err(BodyFault::Malformed) => Err(TransferFault::Stranger),
    }
}

/// Reads the reply to a piece, which must be Taken; anything else is a fault, as [`read_reply`] and [`see_taken`] say.
pub(crate) fn read_taken(alloc: Global, came: Frame) -> Result<(), TransferFault>
    ensures taken { OnOk result ((held : ℕ) × SpellsReply came.version came.kind came.body (replies.Taken held)) }
    ensures fault { IfErr result (λ fault. ExplainsPiece fault came) }
{
    let reply = read_reply(alloc, came)?;
    see_taken(reply)?;
    Ok(())
}

/// Checks that a reply is Taken. A refusal is the fault `Refused`, or `Memory` if the service has none; any other reply
/// is `Stranger`.
fn see_taken(reply: Reply) -> Result<(), TransferFault>
    ensures taken { OnOk result ((held : ℕ) × (reply ≡ replies.Taken held)) }
    ensures fault { IfErr result (λ fault. ExplainsTaken fault reply) }
{
    match reply {
        Reply::Taken { .. } => Ok(()),
        Reply::Refused(Refusal::Memory) => Err(TransferFault::Memory),
        Reply::Refused(refusal) => Err(TransferFault::Refused(refusal)),
        _ => Err(TransferFault::Stranger),
    }
}
