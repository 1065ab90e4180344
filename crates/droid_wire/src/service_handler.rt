//! A service without a journal, as the handler of droid_turns' loop.

use droid_core::Service;
use droid_frame::{Frame, Reply};
use droid_turns::Handler;

/// Handles the frames of all connections by a service, one after another. The service keeps everything in memory, so
/// there is nothing to settle.
#[derive(Drop)]
pub struct ServiceHandler {
    /// The service.
    pub service: Service,
}

impl Handler for ServiceHandler {
    ghost use Rattle.std.specs.Prelude.{◌≡◌, true};
    ghost use Rattle.droid_wire.specs.OneAnswer.{IsAnswered};

    ghost handles = { λ old frame reply new. IsAnswered old.service frame reply new.service };

    ghost settles = { λ old done new. (new ≡ old) × (done ≡ true) };

    /// Handles a frame by the service, and returns its reply.
    fn handle(&mut self, frame: Frame) -> Reply {
        self.service.handle(frame)
    }

    /// Does nothing and returns true: everything is in memory.
    fn settle(&mut self) -> bool {
        true
    }
}
