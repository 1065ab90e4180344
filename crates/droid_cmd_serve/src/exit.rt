//! How a command of a service ends: all forms, before they get their row in the table of faults (`told.rt`).

ghost use Rattle.std.specs.Prelude.{◌≡◌};
ghost use Rattle.droid_cmd_serve.specs.Endings.{after_lines};

use crate::journal_fault::JournalFault;
use droid_lines::{SendFault, Tally};
use droid_pronom::RegistryFault;
use droid_script::ScriptFault;
use droid_store::StoreFault;
use droid_wire::ServeFault;

/// How the program ends.
#[derive(Drop)]
pub enum Ending {
    /// Everything is done.
    Done,
    /// The registry could not be read.
    Registry(RegistryFault),
    /// No service could be made.
    NoService(StoreFault),
    /// The script ended early.
    Script(ScriptFault),
    /// A frame could not be read, or a reply could not be written.
    Stream(ServeFault),
    /// Sending lines ended early.
    Send(SendFault),
    /// Listening on a port, connecting to one or accepting a connection failed.
    Socket,
    /// The journal could not be opened, or handles no further request.
    Journal(JournalFault),
    /// Some line was bad.
    BadLine,
}

/// Returns how the program ends after all lines were handled: `BadLine` if any was bad. `script` and `send` end so.
pub fn after_lines(tally: Tally) -> Ending
    ensures { result ≡ after_lines tally }
{
    match tally {
        Tally { bad: 0, .. } => Ending::Done,
        _ => Ending::BadLine,
    }
}
