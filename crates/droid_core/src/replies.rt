//! The rows of kept replies, and the answers that they give; and the reply in a call's result.

ghost use Rattle.std.specs.Prelude.{◌≡◌, ◌≢◌, false, IfOk, IfErr, MatchBool, ⊤};
ghost use Rattle.droid_core.specs.Changes.{again, answered, is_row_of, stamped};
ghost use Rattle.droid_frame.specs.Replies.{HasReplySpelling, SpellsReply};
ghost use Rattle.droid_frame.specs.declared.refusal.Refusal.TheVariants as refusals;
ghost use Rattle.droid_frame.specs.declared.reply.Reply.TheVariants.{Refused};
ghost use Rattle.droid_frame.specs.Versions.{IsVersion};
ghost use Rattle.droid_core_spec.specs.MemoryFaults.{is_out_of_memory};
ghost use Rattle.droid_store.specs.Sizes.{entry_size, FitsARow};

use crate::stamps::Stamp;
use droid_frame::{BodyFault, Frame, Refusal, Reply, reply_body, reply_of};
use droid_store::Entry;
use std::alloc::Global;

/// Returns the row of the reply to the request with this stamp. Fails only if there is no memory.
pub fn entry_of(alloc: Global, stamp: Stamp, reply: &Reply) -> Result<Entry, Refusal>
    requires version { IsVersion stamp.version }
    requires spelling { HasReplySpelling stamp.version reply.now }
    ensures row { IfOk result (λ entry. entry ≡ stamped stamp reply.now) }
    ensures fits { IfOk result (λ entry. FitsARow (entry_size entry)) }
    ensures failure { IfErr result (λ refusal. refusal ≡ Refusal.Memory) }
{
    let body = reply_body(alloc, stamp.version, reply)?;
    let mark = stamp.mark;
    Ok(Entry {
        client: stamp.client,
        number: stamp.number,
        version: stamp.version,
        mark,
        kind: reply.kind(),
        body,
    })
}

/// Answers the request with this stamp by the row that is kept under its number: with the kept reply if the versions
/// and the marks are equal, and else with NumberReused. Only the list of a `Finished` takes memory. It cannot happen
/// that the row's body is malformed; the code would answer Store.
pub fn answer_again(alloc: Global, entry: Entry, stamp: Stamp) -> Reply
    ensures kept { (kept : Reply) → SpellsReply entry.version entry.kind entry.body kept
        → MatchBool (is_out_of_memory result) ⊤ (result ≡ again entry stamp kept) }
    // Memory may run out only while a Finished is read, of which 132 is the kind (`reply_kind` of droid_frame).
    ensures reused { is_row_of entry stamp ≡ false → result ≡ Refused refusals.NumberReused }
    ensures exact { (kept : Reply) → SpellsReply entry.version entry.kind entry.body kept → entry.kind ≢ 132
        → result ≡ again entry stamp kept }
    ensures spelled { HasReplySpelling stamp.version result }
{
    if !is_row_of(&entry, stamp) {
        return Reply::Refused(Refusal::NumberReused);
    }
    let frame = Frame {
        version: entry.version,
        kind: entry.kind,
        client: entry.client,
        number: entry.number,
        body: entry.body,
    };
    match reply_of(alloc, frame) {
        Ok(reply) => reply,
        Err(BodyFault::Memory) => Reply::Refused(Refusal::Memory),
        Err(BodyFault::Malformed) => Reply::Refused(Refusal::Store),
    }
}

/// Returns whether the row has the version and the mark of this stamp: whether its request is sent again. Client and
/// number were compared when the row was looked up.
fn is_row_of(entry: &Entry, stamp: Stamp) -> bool
    ensures { result ≡ is_row_of entry.now stamp }
{
    entry.version == stamp.version && entry.mark.as_slice() == stamp.mark.as_slice()
}

/// Returns the reply of a call's result; a refusal becomes the reply Refused.
pub fn reply_from(outcome: Result<Reply, Refusal>) -> Reply
    ensures { result ≡ answered outcome }
{
    match outcome {
        Ok(reply) => reply,
        Err(refusal) => Reply::Refused(refusal),
    }
}
