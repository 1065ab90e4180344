//! Many connections, served by one service without a journal: `serve_in_turns` of droid_turns with a `ServiceHandler`.

ghost use Rattle.std.specs.Prelude.{◌≡◌, ◌≢◌};
ghost use Rattle.droid_core_spec.specs.Histories.{History};
ghost use Rattle.droid_core_spec.specs.Setting.{Setting};
ghost use Rattle.droid_core.specs.Standing.{StandsFor, limits_of, registry_of};
ghost use Rattle.droid_wire.specs.ManyConnections.{ServesMany};

use crate::service_handler::ServiceHandler;
use droid_turns::{Connections, Rules, Served, serve_in_turns};
use std::alloc::Global;

/// Serves many connections by one service, in turns, until as many as the rules allow came and left, waiting fails, or
/// memory for the list of connections runs out at the start. `Served` says which.
///
/// A silent connection delays no other: each is read when it has bytes, and written when it takes them.
pub fn serve_many<C: Connections>(
    alloc: Global,
    connections: &mut C,
    handler: &mut ServiceHandler,
    rules: Rules,
) -> Served
    // The whole frames of all connections were handled one after another, and the service's history grew by them. The
    // bytes that were read of each connection are its own frames, in order, and the bytes that are held; what it took
    // is the first bytes of their replies. So each frame gets the one reply that the service gave when the frame was
    // handled.
    ensures many { (setting : Setting) (history : History) → StandsFor setting handler.old.service history →
        ServesMany C.does rules setting history connections.old connections.new handler.new.service result }
    // Settling never fails, since a service has nothing to settle.
    ensures settled { result ≢ Served.Unsettled }
    ensures limits { limits_of handler.new.service ≡ limits_of handler.old.service }
    ensures registry { registry_of handler.new.service ≡ registry_of handler.old.service }
{
    serve_in_turns(alloc, connections, handler, rules)
}
