//! The loop that serves many connections in turns, from the first wait to the last close.

ghost use Rattle.droid_turns.specs.Turns.{ServesAll};
ghost use Rattle.droid_turns.specs.Steps.{Goes};

use crate::connections::Connections;
use crate::hall::Hall;
use crate::handler::Handler;
use crate::rules::Rules;
use crate::service_end::Served;
use std::alloc::Global;

/// Serves many connections in turns, until as many as the rules allow came and left.
///
/// In each turn the loop accepts waiting connections while there are seats. Then it looks what each open connection
/// has, and handles its share of frames: of 256 frames in all, by how many connections have any, at most 64 and at
/// least 1. Then the handler settles, and then the loop writes each connection its replies, as far as it takes them. No
/// connection is served twice before every other was served once.
pub fn serve_in_turns<C: Connections, H: Handler>(
    alloc: Global,
    connections: &mut C,
    handler: &mut H,
    rules: Rules,
) -> Served
    // After each step each connection was served well: the bytes that were read of it are the frames that were handled,
    // in order, and the bytes that are held; the bytes that it took are the first of their reply frames, each in its
    // version, in order, and nothing else. Connections have numbers from 0 on. Before each wait but the first the loop
    // had read the clock, accepted waiting connections while there were seats, and given each open connection its turn.
    // In the end each connection had left, and the reason explains what was held and what was not written.
    //
    // Before each write to a connection, and before each wait, the handler had settled after each frame that it
    // handled. After it failed to settle, the loop only closed connections, for that reason.
    ensures { Goes C.does H.handles H.settles connections.old handler.old connections.new handler.new
        (ServesAll rules result) }
{
    let Ok(mut hall) = Hall::new(alloc, rules.seats) else {
        return Served::Memory;
    };
    for _ in 0..u64::MAX {
        if hall.is_over(rules.total) {
            return Served::All;
        }
        let limit = hall.patience(rules.idle);
        match connections.wait(limit, hall.frames) {
            Ok(()) => {}
            Err(_) => {
                hall.stop(connections);
                return Served::Stopped;
            }
        }
        if !hall.turn(alloc, connections, handler, rules) {
            return Served::Unsettled;
        }
    }
    hall.stop(connections);
    Served::Stopped
}
