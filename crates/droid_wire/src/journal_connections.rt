//! Many connections, served by a service with a journal: `serve_in_turns` of droid_turns with a `JournalHandler`.

ghost use Rattle.std.specs.Prelude.{ℕ, List};
ghost use Rattle.droid_core_spec.specs.Histories.{History};
ghost use Rattle.droid_core_spec.specs.Setting.{Setting};
ghost use Rattle.droid_wire.specs.Standing.{StandsForHistory};
ghost use Rattle.droid_journal.specs.Faults.{MayBeOfWriting};
ghost use Rattle.droid_wire.specs.Handling.{HandlesSo, SettlesSo};
ghost use Rattle.droid_wire.specs.JournalServing.{ServesJournal};
ghost use Rattle.droid_turns.specs.Steps.{Goes};
ghost use Rattle.droid_turns.specs.Turns.{ServesAll};

use crate::journal_handler::JournalHandler;
use droid_journal::LogFile;
use droid_turns::{Connections, Rules, Served, serve_in_turns};
use std::alloc::Global;

/// Serves many connections by one service with a journal, in turns, until as many as the rules allow came and left,
/// waiting or the journal fails, or memory for the list of connections runs out at the start. `Served` says which; if
/// the journal failed, the handler has its fault.
///
/// In each turn it handles the frames of all connections, then brings the accepted ones to the disk, then writes the
/// replies.
pub fn serve_journal<C: Connections, F: LogFile + Drop>(
    alloc: Global,
    connections: &mut C,
    handler: &mut JournalHandler<F>,
    rules: Rules,
) -> Served
    // The loop serves each connection well. At each moment, also after the journal failed, there is a history on the
    // disk, and one that may be written behind it, as opening after a crash requires. The latter has only frames that
    // came, in their order, each with its answer. All that was handled before a byte was written to any connection is
    // on the disk.
    ensures journal { (setting : Setting) (header : List ℕ) (history : History)
        → StandsForHistory F.has F.kept setting header handler.old.journal.journal history history
        → ServesJournal C.does F.has F.kept rules setting header history connections.old handler.old connections.new
        handler.new result }
    // A noted fault of the journal is a fault of writing, never that the file is damaged or has another header.
    ensures noted { MayBeOfWriting handler.old.journal.journal.fault → MayBeOfWriting handler.old.fault
        → MayBeOfWriting handler.new.fault }
    // Even if nothing is known of the file, each connection was served well, and the handler settled before each write.
    ensures serves { Goes C.does (HandlesSo F.has F.kept) (SettlesSo F.has F.kept) connections.old handler.old
        connections.new handler.new (ServesAll rules result) }
{
    serve_in_turns(alloc, connections, handler, rules)
}
