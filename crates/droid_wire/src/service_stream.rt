//! One stream, answered by a service without a journal: `answer_pipe` of droid_turns with a `ServiceHandler`.

ghost use Rattle.std.specs.Prelude.{◌≡◌, ◌≢◌};
ghost use Rattle.droid_core_spec.specs.Histories.{History};
ghost use Rattle.droid_core_spec.specs.Setting.{Setting};
ghost use Rattle.droid_core.specs.Standing.{StandsFor, limits_of, registry_of};
ghost use Rattle.droid_wire.specs.ManyConnections.{AnswersService, AnswersStream};

use crate::service_handler::ServiceHandler;
use droid_frame::{SteadyRead, SteadyWrite};
use droid_turns::{Pipe, Served, answer_pipe};
use std::alloc::Global;

/// Answers the frames of a reader by a service, until the input ends, a frame or a stream fails, memory runs out for a
/// frame, or 1,000,000 frames were handled. The departure of `pipe` says which. `pipe` has the reader, for requests,
/// and the writer, for replies. The 1,000,000 is `FRAMES` of droid_turns and stands in `specs/StreamServing.antt`; the
/// prover ties them.
pub fn answer_service<R: SteadyRead, W: SteadyWrite>(
    alloc: Global,
    handler: &mut ServiceHandler,
    pipe: &mut Pipe<R, W>,
) -> Served
    // The service handled the frames of the stream, one after another, and its history grew by them. What was read is
    // these frames, in order, and the bytes that are held; what was written is the first bytes of their replies.
    ensures answers { (setting : Setting) (history : History) → StandsFor setting handler.old.service history →
        AnswersService R.remaining W.contents R.seen W.seen W.room setting history pipe.old pipe.new handler.new.service
        result }
    // The stream is served like one connection, whatever the service does. It counts as broken exactly where it failed.
    ensures stream { AnswersStream R.remaining W.contents R.seen W.seen W.room pipe.old pipe.new result }
    // Settling never fails, since a service has nothing to settle.
    ensures settled { result ≢ Served.Unsettled }
    ensures limits { limits_of handler.new.service ≡ limits_of handler.old.service }
    ensures registry { registry_of handler.new.service ≡ registry_of handler.old.service }
{
    answer_pipe(alloc, handler, pipe)
}
