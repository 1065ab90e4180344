//! Connections and streams, served by a service with a journal, and how the end of either ends the program.

ghost use Rattle.std.specs.Prelude.{◌≡◌};
ghost use Rattle.droid_cmd_serve.specs.JournalEndings.{EndsAnsweringJournal, EndsServingJournal, journal_ending_of};
ghost use Rattle.droid_cmd_serve.specs.JournalEndings.{left_ending_of, stream_journal_ending_of, unsettled_ending};

use crate::exit::Ending;
use crate::journal_fault::JournalFault;
use droid_frame::{FrameFault, SteadyRead, SteadyWrite};
use droid_journal::{Fault, LogFile};
use droid_turns::{Connections, Departure, Pipe, Rules, Served};
use droid_wire::{JournalHandler, ServeFault, answer_journal, serve_journal};
use std::alloc::Global;

/// Serves connections in turns by a service with a journal, and returns how the program ends.
pub fn serve_with_journal<C: Connections, F: LogFile + Drop>(
    alloc: Global,
    connections: &mut C,
    handler: &mut JournalHandler<F>,
    rules: Rules,
) -> Ending
    // Before a byte is written to a connection, all that was handled so far is on the disk.
    ensures { EndsServingJournal C.does F.has F.kept rules connections.old handler.old connections.new handler.new
        result }
{
    let served = serve_journal(alloc, connections, handler, rules);
    end_of(served, handler.fault)
}

/// Answers the frames of a stream by a service with a journal, and returns how the program ends.
pub fn answer_with_journal<R: SteadyRead, W: SteadyWrite, F: LogFile + Drop>(
    alloc: Global,
    handler: &mut JournalHandler<F>,
    pipe: &mut Pipe<R, W>,
) -> Ending
    // Before a byte of a reply is written, all that was handled so far is on the disk.
    ensures { EndsAnsweringJournal R.remaining W.contents R.seen W.seen W.room F.has F.kept pipe.old handler.old
        pipe.new handler.new result }
{
    let served = answer_journal(alloc, handler, pipe);
    stream_end_of(served, pipe.departure, handler.fault)
}

/// Maps the end of serving connections to the end of the program. `fault` is why the journal could not settle, if it
/// could not.
fn end_of(served: Served, fault: Option<Fault>) -> Ending
    ensures { result ≡ journal_ending_of served fault }
{
    match served {
        Served::All => Ending::Done,
        Served::Stopped => Ending::Socket,
        Served::Memory => Ending::Stream(ServeFault::Frame(FrameFault::Memory)),
        Served::Unsettled => unsettled_end(fault),
    }
}

/// Maps the end of answering a stream, with or without a journal, to the end of the program. `departure` is why the
/// stream, which is the one connection, was closed; `fault` is why the journal could not settle.
pub(crate) fn stream_end_of(
    served: Served,
    departure: Option<Departure>,
    fault: Option<Fault>,
) -> Ending
    ensures { result ≡ stream_journal_ending_of served departure fault }
{
    match served {
        Served::All => left_end(departure),
        Served::Stopped => Ending::Socket,
        Served::Memory => Ending::Stream(ServeFault::Frame(FrameFault::Memory)),
        Served::Unsettled => unsettled_end(fault),
    }
}

/// Maps the reason for closing a stream to the end of the program: done at its end or after enough frames, otherwise
/// the fault of the frame or of the writing.
fn left_end(departure: Option<Departure>) -> Ending
    ensures { result ≡ left_ending_of departure }
{
    match departure {
        Some(Departure::Closed) => Ending::Done,
        Some(Departure::Enough) => Ending::Done,
        Some(Departure::Frame(fault)) => Ending::Stream(ServeFault::Frame(fault)),
        Some(Departure::Memory) => Ending::Stream(ServeFault::Frame(FrameFault::Memory)),
        // A reply could not be written. How many bytes were written before is not counted.
        _ => Ending::Stream(ServeFault::Write { written: 0 }),
    }
}

/// Maps the fault of a journal that could not settle to the end of the program. One that is not known counts as a fault
/// of writing.
fn unsettled_end(fault: Option<Fault>) -> Ending
    ensures { result ≡ unsettled_ending fault }
{
    match fault {
        Some(fault) => Ending::Journal(JournalFault::Closed(fault)),
        None => Ending::Journal(JournalFault::Closed(Fault::Write)),
    }
}
