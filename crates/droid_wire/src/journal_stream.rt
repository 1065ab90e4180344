//! One stream, answered by a service with a journal: `answer_pipe` of droid_turns with a `JournalHandler`.

ghost use Rattle.std.specs.Prelude.{ℕ, List};
ghost use Rattle.droid_core_spec.specs.Histories.{History};
ghost use Rattle.droid_core_spec.specs.Setting.{Setting};
ghost use Rattle.droid_wire.specs.Standing.{StandsForHistory};
ghost use Rattle.droid_journal.specs.Faults.{MayBeOfWriting};
ghost use Rattle.droid_wire.specs.JournalServing.{AnswersJournal};

use crate::journal_handler::JournalHandler;
use droid_frame::{SteadyRead, SteadyWrite};
use droid_journal::LogFile;
use droid_turns::{Pipe, Served, answer_pipe};
use std::alloc::Global;

/// Answers the frames of a reader by a service with a journal, until the input ends, a frame, a stream or the journal
/// fails, memory runs out for a frame, or 1,000,000 frames were handled (`FRAMES` of droid_turns). The departure of
/// `pipe` says which; if the journal failed, the result is `Unsettled`, and the handler has the fault. `pipe` has the
/// reader, for requests, and the writer, for replies.
pub fn answer_journal<R: SteadyRead, W: SteadyWrite, F: LogFile + Drop>(
    alloc: Global,
    handler: &mut JournalHandler<F>,
    pipe: &mut Pipe<R, W>,
) -> Served
    // The stream is served like one connection. At each moment, also after the journal failed, all that was handled
    // before a byte of a reply was written is on the disk.
    ensures journal { (setting : Setting) (header : List ℕ) (history : History)
        → StandsForHistory F.has F.kept setting header handler.old.journal.journal history history
        → AnswersJournal R.remaining W.contents R.seen W.seen W.room F.has F.kept setting header history pipe.old
        handler.old pipe.new handler.new result }
    // A noted fault of the journal is a fault of writing.
    ensures noted { MayBeOfWriting handler.old.journal.journal.fault → MayBeOfWriting handler.old.fault
        → MayBeOfWriting handler.new.fault }
{
    answer_pipe(alloc, handler, pipe)
}
