//! The frames of one stream, answered by a handler.

ghost use Rattle.droid_turns.specs.Steps.{Goes};
ghost use Rattle.droid_turns.specs.Pipes.{AnswersOne, PipeDoes};

use crate::handler::Handler;
use crate::pipe::Pipe;
use crate::rules::Rules;
use crate::service_end::Served;
use crate::turns::serve_in_turns;
use droid_frame::{SteadyRead, SteadyWrite};
use std::alloc::Global;

/// Answers the frames of a reader by a handler, until the input ends or a frame or a stream fails.
///
/// Handles up to 64 frames of each read, has the handler settle, and then writes their replies.
pub fn answer_pipe<R: SteadyRead, W: SteadyWrite, H: Handler>(
    alloc: Global,
    handler: &mut H,
    pipe: &mut Pipe<R, W>,
) -> Served
    // The stream is the only connection of the loop, so each reply was settled before a byte of it was written. Exactly
    // the connection's bytes were read, and exactly the bytes that it took were written. The reason for closing it is
    // known, and a stream counts as broken exactly where it failed.
    ensures { Goes (PipeDoes R.remaining W.contents R.seen W.seen W.room) H.handles H.settles pipe.old handler.old
        pipe.new handler.new
        (AnswersOne (R.remaining pipe.old.reader) (R.remaining pipe.new.reader) (W.contents pipe.old.writer)
        (W.contents pipe.new.writer) pipe.old.departure pipe.new.departure result) }
{
    let rules = Rules {
        seats: 1,
        total: Some(1),
        idle: u64::MAX,
    };
    serve_in_turns(alloc, pipe, handler, rules)
}
