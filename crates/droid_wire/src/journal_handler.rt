//! A service with its journal, as the handler of droid_turns' loop.

use crate::service_journal::ServiceJournal;
use droid_frame::{Frame, Reply};
use droid_journal::{Fault, LogFile};
use droid_turns::Handler;

/// Handles the frames of all connections by a service with its journal, one after another.
#[derive(Drop)]
pub struct JournalHandler<F: LogFile> {
    /// The service and its journal.
    pub journal: ServiceJournal<F>,
    /// Why it could not settle, after that failed.
    pub fault: Option<Fault>,
}

impl<F: LogFile + Drop> Handler for JournalHandler<F> {
    ghost use Rattle.droid_wire.specs.Handling.{HandlesSo, SettlesSo};

    ghost handles = { HandlesSo F.has F.kept };

    ghost settles = { SettlesSo F.has F.kept };

    /// Handles a frame by the service, which writes the record of a new accepted command to the journal's file, and
    /// returns its reply. After a fault of the journal the reply is Store, as [`ServiceJournal::handle`] says, and the
    /// loop does not write it, since settling fails too.
    fn handle(&mut self, frame: Frame) -> Reply {
        self.journal.handle(frame)
    }

    /// Brings to the disk what was accepted since the last call. Returns false, and notes the fault, if that fails:
    /// then the loop writes no reply any more.
    fn settle(&mut self) -> bool {
        match self.journal.settle() {
            Ok(()) => true,
            Err(fault) => {
                self.fault = Some(fault);
                false
            }
        }
    }
}
