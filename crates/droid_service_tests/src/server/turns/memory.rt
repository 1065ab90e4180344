//! Connections in turns while an allocation is refused. tests/memory/growths.py runs this test, with each in turn.

use crate::server::turns::hall::Hall;
use droid_turns::Served;
use std::alloc::Global;

/// The order before the last one with these last digits, in which each sends its three frames in a row.
const BEFORE: u32 = 0xfea_540 - 16;

/// Serves one order, in pieces of 12 bytes. Returns whether all of it was right. `None`: memory ran out for one
/// connection alone, or before any was accepted.
fn are_served(alloc: Global) -> Option<bool> {
    let mut hall = Hall::new(BEFORE, 12);
    let (served, whole) = hall.serve(alloc);
    let alone = served == Served::All && hall.closed == 3 && hall.short == 1;
    if alone || (served == Served::Memory && hall.accepted == 0) {
        return None;
    }
    Some(whole)
}

#[test]
fn each_growth_of_turns(rt: HostRuntime) {
    let mut served = are_served(rt.alloc());
    if served.is_none() {
        served = are_served(rt.alloc());
    }
    assert!(rt; served == Some(true));
}
