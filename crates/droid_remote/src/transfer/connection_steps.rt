//! Single steps on a connection, and which of the frames in flight count as written behind each: the stage.

ghost use Rattle.std.specs.Prelude.{◌≡◌, ◌⊎◌, ◌++◌, ◌∷◌, [], List, Contains, IfErr, IfOk, IsTrue, MatchOption};
ghost use Rattle.std.specs.Prelude.{if◌then◌else◌};
ghost use Rattle.droid_remote.specs.Events.{Event, Fact, Came, Cut, Lost, Sent};
ghost use Rattle.droid_remote.specs.Vouching.{IsVouched};
ghost use Rattle.droid_remote.specs.Stages.{AreIn, CountsOn, HasFirst, Stands, counted};
ghost use Rattle.droid_remote.specs.Moves.{Moves, ReadsNothing, Stops};
ghost use Rattle.droid_remote.specs.declared.transfer.known_requests.KnownRequests.{KnownRequests};

use crate::transfer::connection::Connection;
use crate::transfer::known_requests::KnownRequests;
use crate::transfer::new_connection::begin;
use crate::transfer::transfer_fault::TransferFault;
use droid_frame::Frame;
use std::alloc::Global;
use std::collections::VecDeque;

/// Which of the frames in flight were written on the connection that stands.
#[derive(Clone, Copy)]
pub enum Stage {
    /// None, since no connection stands or it is known to be broken.
    Nowhere,
    /// The first one, on a new connection on which it was not answered yet.
    First,
    /// None, on a connection that stands.
    Answered,
    /// All of them.
    All,
}

impl Stage {
    /// Returns whether no connection stands. The clause holds only that one stands where this is false: a read needs
    /// that, and a read that is left out is tried again.
    pub(crate) fn is_nowhere(self) -> bool
        ensures { IsTrue result ⊎ Stands self }
    {
        match self {
            Stage::Nowhere => true,
            Stage::First | Stage::Answered | Stage::All => false,
        }
    }
}

/// Returns which frames count as written after the reply to the first was read, and that frame is no longer in flight.
/// On a new connection the others were not written yet. The clause holds only that no more frames count than before. If
/// fewer did, they would be written twice: `submit_steps.py` of `tests/program/submissions` would see that.
pub(crate) fn behind_answer(stage: Stage) -> Stage
    ensures { (waiting rest : List Frame) → AreIn rest waiting → AreIn (counted result rest) (counted stage waiting) }
{
    match stage {
        Stage::First | Stage::Answered => Stage::Answered,
        Stage::All => Stage::All,
        Stage::Nowhere => Stage::Nowhere,
    }
}

/// Writes a new frame if all frames before it were written, and returns the stage behind that. `waiting` are the frames
/// before it, in which the caller then puts it last. No clause wants the write: it is for speed, and `write_ahead`
/// would make up for it.
pub(crate) fn write_behind<C: Connection>(
    stage: Stage,
    connection: &mut C,
    waiting: &VecDeque<Frame>,
    frame: &Frame,
) -> Stage
    ensures { (known : KnownRequests) (facts : List Fact) → CountsOn stage known waiting.now.items facts →
        Moves C.does known (λ other. other ≡ frame.now) facts result (waiting.now.items ++ frame.now ∷ [])
        connection.old connection.new }
{
    match stage {
        Stage::All => {
            if write(connection, frame) {
                Stage::All
            } else {
                Stage::Nowhere
            }
        }
        Stage::First => {
            // Else the new frame would be the first in flight, and would count as written.
            if waiting.is_empty() {
                Stage::Nowhere
            } else {
                Stage::First
            }
        }
        Stage::Answered => Stage::Answered,
        Stage::Nowhere => Stage::Nowhere,
    }
}

/// Writes what has to be written before a frame is read. If no connection stands, it connects, and after the known
/// requests it writes only the first frame in flight; the others follow after its reply. If more were written at once,
/// a connection that always breaks early would never return a reply. Fails as [`begin`]; a break is no fault.
pub(crate) fn write_ahead<C: Connection>(
    stage: Stage,
    alloc: Global,
    connection: &mut C,
    known: &KnownRequests,
    waiting: &VecDeque<Frame>,
) -> Result<Stage, TransferFault>
    ensures moves { IfOk result (λ ahead. (facts : List Fact) → CountsOn stage known.now waiting.now.items facts →
        Moves C.does known.now (Contains waiting.now.items) facts ahead waiting.now.items connection.old
        connection.new) }
    ensures first { IfOk result (λ ahead. HasFirst ahead waiting.now.items) }
    ensures stopped { IfErr result (λ fault.
        (facts : List Fact)
        → Stops C.does known.now (Contains waiting.now.items) [] fault facts connection.old connection.new) }
{
    match stage {
        Stage::Nowhere => {
            let ahead = begin(alloc, connection, known, waiting)?;
            Ok(ahead)
        }
        Stage::Answered => Ok(write_waiting(connection, waiting)),
        Stage::First => Ok(Stage::First),
        Stage::All => Ok(Stage::All),
    }
}

/// Writes all frames in order. Returns that all were written, or, at the first failure, that no connection stands.
fn write_waiting<C: Connection>(connection: &mut C, waiting: &VecDeque<Frame>) -> Stage
    ensures moves { (known : KnownRequests) (facts : List Fact) → IsVouched known facts
        → Moves C.does known (Contains waiting.now.items) facts result waiting.now.items connection.old connection.new }
    ensures first { HasFirst result waiting.now.items }
{
    for index in 0..waiting.len() {
        let Some(frame) = waiting.get(index) else {
            return Stage::Nowhere;
        };
        if !write(connection, frame) {
            return Stage::Nowhere;
        }
    }
    Stage::All
}

/// Writes a frame. Returns whether the connection still stands.
pub(crate) fn write<C: Connection>(connection: &mut C, frame: &Frame) -> bool
    ensures { C.does connection.old (if result then Sent frame.now else Cut frame.now) connection.new }
{
    match connection.write(frame) {
        Ok(()) => true,
        Err(_) => false,
    }
}

/// Reads a frame if a connection stands. Returns `None` if none stands, or it breaks.
pub(crate) fn read_where<C: Connection>(
    stage: Stage,
    alloc: Global,
    connection: &mut C,
) -> Option<Frame>
    ensures { MatchOption result (ReadsNothing C.does connection.old connection.new) (λ came.
        Stands stage × C.does connection.old (Came came) connection.new) }
{
    if stage.is_nowhere() {
        return None;
    }
    match connection.read(alloc) {
        Ok(frame) => Some(frame),
        Err(_) => None,
    }
}
