//! A service that reads a journal of whole records, as the machine that opening a journal asks for.

ghost use Rattle.std.specs.Prelude.{◌≡◌, true, false};
ghost use Rattle.droid_frame.specs.Replies.{is_refused};

use droid_core::Service;
use droid_frame::{Frame, Reply};
use droid_journal::{Handled, Machine};

/// The kinds of requests below this one are commands, which change the service if they are accepted; Status has this
/// kind. The prover ties it to the 7 of `is_command` in droid_core_spec.
const QUERIES: u8 = 7;

/// A service that reads a journal, in which each command belongs that is not refused: in a journal of version 3 an
/// accepted command may stand again.
#[derive(Drop)]
pub struct ReadingMachine {
    /// The service.
    pub service: Service,
}

impl Machine for ReadingMachine {
    ghost use Rattle.droid_wire.specs.Histories.{GivesReply, Start, StandsForRecords};

    ghost Setting = { Start };

    ghost stands = { λ start machine records. StandsForRecords start.setting start.base machine.service records };

    ghost gives = { λ start. GivesReply start.setting start.base };

    /// Handles the frame of the next record, whose mark this is. It is accepted if it is a command whose reply is no
    /// refusal, also one that came again: version 3 of the journal has such records.
    fn handle(&mut self, frame: Frame, mark: [u8; 16]) -> Handled {
        let commands = frame.kind < QUERIES;
        let answered = self.service.handle_marked(frame, mark);
        let accepted = belongs(commands, &answered.reply);
        Handled {
            reply: answered.reply,
            accepted,
        }
    }
}

/// Returns whether a request with this reply may stand in a journal: `commands` says that it is a command, and the
/// reply is no refusal.
fn belongs(commands: bool, reply: &Reply) -> bool
    ensures refused { is_refused reply.now ≡ true → result ≡ false }
    ensures query { commands ≡ false → result ≡ false }
    ensures accepted { commands ≡ true → is_refused reply.now ≡ false → result ≡ true }
{
    if reply.is_refused() {
        return false;
    }
    commands
}
