//! A stream of frames, answered by a service that keeps everything in memory.

ghost use Rattle.std.specs.Prelude.{◌≡◌};
ghost use Rattle.droid_core.specs.Standing.{limits_of, registry_of};
ghost use Rattle.droid_cmd_serve.specs.Streams.{EndsAnswering};

use crate::exit::Ending;
use crate::journal_connections::stream_end_of;
use droid_frame::{SteadyRead, SteadyWrite};
use droid_turns::Pipe;
use droid_wire::{ServiceHandler, answer_service};
use std::alloc::Global;

/// Answers the frames of a stream by a service, and returns how the program ends.
pub fn answer_stream<R: SteadyRead, W: SteadyWrite>(
    alloc: Global,
    handler: &mut ServiceHandler,
    pipe: &mut Pipe<R, W>,
) -> Ending
    // One service handles the frames, one after another. A fault of the stream is reported exactly where it failed, or
    // was interrupted for the 65th time in one read or write, or is full.
    ensures ends { EndsAnswering R.remaining W.contents R.seen W.seen W.room pipe.old pipe.new handler.old.service
        handler.new.service result }
    ensures limits { limits_of handler.new.service ≡ limits_of handler.old.service }
    ensures registry { registry_of handler.new.service ≡ registry_of handler.old.service }
{
    let served = answer_service(alloc, handler, pipe);
    stream_end_of(served, pipe.departure, None)
}
