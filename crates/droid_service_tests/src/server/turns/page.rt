//! The example of crates/droid_turns/README.md.

use crate::server::turns::hall::{Counter, Hall};
use droid_turns::{Rules, Served, serve_in_turns};

/// The order before the last one with these last digits, in which each sends its three frames in a row.
const BEFORE: u32 = 0xfea_540 - 16;

#[test]
fn example_of_the_page(rt: HostRuntime) {
    let alloc = rt.alloc();
    // four connections in memory, each of which sends three frames, and a handler that counts them
    let mut connections = Hall::new(BEFORE, 12);
    let mut handler = Counter { handled: 0 };
    let rules = Rules {
        seats: 4,
        total: Some(4),
        idle: 60_000,
    };
    let served = serve_in_turns(alloc, &mut connections, &mut handler, rules);
    assert!(rt; served == Served::All && handler.handled == 12);
}
