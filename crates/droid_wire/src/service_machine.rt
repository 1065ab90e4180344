//! A service that serves, as the machine of its journal.

use droid_core::Service;
use droid_frame::Frame;
use droid_journal::{Handled, Machine};

/// A service as the machine of a journal. Its history after records: the one that it was made from, then the records'
/// requests.
///
/// A new command that is accepted goes into the journal, and nothing else: no request that came again, however old it
/// is.
#[derive(Drop)]
pub struct ServiceMachine {
    /// The service.
    pub service: Service,
}

impl Machine for ServiceMachine {
    ghost use Rattle.droid_wire.specs.Histories.{GivesNew, Start, StandsForRecords};

    ghost Setting = { Start };

    ghost stands = { λ start machine records. StandsForRecords start.setting start.base machine.service records };

    ghost gives = { λ start. GivesNew start.setting start.base };

    /// Handles a frame whose mark this is. It is accepted, and so goes into the journal, if it is a new command that
    /// the service accepted.
    fn handle(&mut self, frame: Frame, mark: [u8; 16]) -> Handled {
        let answered = self.service.handle_marked(frame, mark);
        Handled {
            reply: answered.reply,
            accepted: answered.is_new,
        }
    }
}
