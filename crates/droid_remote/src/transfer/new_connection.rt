//! A new connection: connect, see that the service is the one from before, write the first frame in flight.

ghost use Rattle.std.specs.Prelude.{◌≡◌, ◌⊎◌, ◌∷◌, [], List, Contains, IfErr, IfOk};
ghost use Rattle.droid_remote.specs.Events.{Event, Fact};
ghost use Rattle.droid_remote.specs.Vouching.{AreKnown, IsVouched};
ghost use Rattle.droid_remote.specs.Stages.{HasFirst};
ghost use Rattle.droid_remote.specs.Moves.{Moves, Repeats, Stops};
ghost use Rattle.droid_remote.specs.TransferFaults.{IsLost};
ghost use Rattle.droid_remote.specs.declared.transfer.known_requests.KnownRequests.{KnownRequests};

use crate::transfer::connection::Connection;
use crate::transfer::connection_steps::{Stage, write};
use crate::transfer::known_requests::{Known, KnownRequests};
use crate::transfer::reply_checks::{is_same, read_reply};
use crate::transfer::transfer_fault::TransferFault;
use droid_frame::{Frame, Refusal, Reply};
use std::alloc::Global;
use std::collections::VecDeque;

/// Connects, has the service repeat its answers to the known requests, and writes the first frame in flight. Returns
/// `Nowhere` if no connection could be made, or it broke. A service that does not repeat an answer is the fault
/// `Restarted` or `Memory`.
pub(crate) fn begin<C: Connection>(
    alloc: Global,
    connection: &mut C,
    known: &KnownRequests,
    waiting: &VecDeque<Frame>,
) -> Result<Stage, TransferFault>
    ensures moves { IfOk result (λ stage.
        (facts : List Fact)
        → Moves C.does known.now (Contains waiting.now.items) facts stage waiting.now.items connection.old
        connection.new) }
    ensures first { IfOk result (λ stage. HasFirst stage waiting.now.items) }
    ensures stopped { IfErr result (λ fault.
        (facts : List Fact)
        → Stops C.does known.now (Contains waiting.now.items) [] fault facts connection.old connection.new) }
{
    match connection.connect() {
        Ok(()) => {
            let stage = begin_on(alloc, connection, known, waiting)?;
            Ok(stage)
        }
        Err(_) => Ok(Stage::Nowhere),
    }
}

/// Does what [`begin`] does behind the connecting: the profile is asked for first, then the last change of its nodes.
/// No clause holds this order; `submit_steps.py` of `tests/program/submissions` does.
fn begin_on<C: Connection>(
    alloc: Global,
    connection: &mut C,
    known: &KnownRequests,
    waiting: &VecDeque<Frame>,
) -> Result<Stage, TransferFault>
    ensures moves { IfOk result (λ stage.
        (facts : List Fact)
        → Moves C.does known.now (Contains waiting.now.items) facts stage waiting.now.items connection.old
        connection.new) }
    ensures first { IfOk result (λ stage. HasFirst stage waiting.now.items) }
    ensures stopped { IfErr result (λ fault.
        (facts : List Fact)
        → Stops C.does known.now (Contains waiting.now.items) [] fault facts connection.old connection.new) }
{
    let stands = repeat(alloc, connection, &known.profile)?;
    if !stands {
        return Ok(Stage::Nowhere);
    }
    let vouched = repeat(alloc, connection, &known.change)?;
    if !vouched {
        return Ok(Stage::Nowhere);
    }
    let stage = write_first(connection, waiting);
    Ok(stage)
}

/// Writes a known request again, reads the reply and compares it. Returns whether the connection still stands; without
/// a known request it does. Another reply is the fault `Restarted` or `Memory`.
fn repeat<C: Connection>(
    alloc: Global,
    connection: &mut C,
    known: &Option<Known>,
) -> Result<bool, TransferFault>
    ensures repeated { IfOk result (λ stands.
        (all : KnownRequests) (waiting : List Frame) (facts : List Fact) → AreKnown known.now all
        → Repeats C.does all waiting known.now stands facts connection.old connection.new) }
    ensures stopped { IfErr result (λ fault.
        (all : KnownRequests) (waiting : List Frame) (facts : List Fact) → AreKnown known.now all
        → Stops C.does all (Contains waiting) [] fault facts connection.old connection.new) }
{
    let Some(known) = known else {
        return Ok(true);
    };
    if !write(connection, &known.request) {
        return Ok(false);
    }
    let Ok(came) = connection.read(alloc) else {
        return Ok(false);
    };
    if is_same(&came, &known.reply) {
        return Ok(true);
    }
    Err(why_other(alloc, came))
}

/// Returns why a reply is another one than before: the service or this program is out of memory, or the service was
/// restarted. The clause holds only that it is one of the two.
fn why_other(alloc: Global, came: Frame) -> TransferFault
    ensures { IsLost result }
{
    match read_reply(alloc, came) {
        Ok(Reply::Refused(Refusal::Memory)) => TransferFault::Memory,
        Err(TransferFault::Memory) => TransferFault::Memory,
        _ => TransferFault::Restarted,
    }
}

/// Writes the first frame in flight, and returns the stage: `Answered` if there is none to write, `Nowhere` if it
/// broke.
fn write_first<C: Connection>(connection: &mut C, waiting: &VecDeque<Frame>) -> Stage
    ensures moves { (known : KnownRequests) (facts : List Fact) → IsVouched known facts
        → Moves C.does known (Contains waiting.now.items) facts result waiting.now.items connection.old connection.new }
    ensures first { HasFirst result waiting.now.items }
{
    let Some(frame) = waiting.get(0) else {
        return Stage::Answered;
    };
    if write(connection, frame) {
        Stage::First
    } else {
        Stage::Nowhere
    }
}
