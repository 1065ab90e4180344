// The test also passes if any one allocation is refused: tests/memory refuses each in turn.
//! Out of memory while a stream is served. If a frame can't be kept, the stream ends after all frames before it were
//! answered; otherwise one request is refused. The same stream again is answered in full.

use crate::server::serving::{REPLIES, REQUESTS, service};
use droid_core::Service;
use droid_frame::FrameFault;
use droid_wire::{Ended, ServeFault, serve};
use std::alloc::Global;

/// What is written if one request is refused for memory (18). Without a profile the others find none (3).
const SHORT: [&[u8]; 4] = [
    b"\
    \x01\x88\x00\x00\x00\x01\x00\x00\x00\x00\x00\x00\x00\x01\x00\x00\x00\x01\x12\
    \x01\x88\x00\x00\x00\x01\x00\x00\x00\x00\x00\x00\x00\x02\x00\x00\x00\x01\x03\
    \x01\x88\x00\x00\x00\x01\x00\x00\x00\x00\x00\x00\x00\x02\x00\x00\x00\x01\x03\
    \x01\x88\x00\x00\x00\x01\x00\x00\x00\x00\x00\x00\x00\x02\x00\x00\x00\x01\x03",
    b"\
    \x01\x81\x00\x00\x00\x01\x00\x00\x00\x00\x00\x00\x00\x01\x00\x00\x00\x04\x00\x00\x00\x01\
    \x01\x88\x00\x00\x00\x01\x00\x00\x00\x00\x00\x00\x00\x02\x00\x00\x00\x01\x12\
    \x01\x82\x00\x00\x00\x01\x00\x00\x00\x00\x00\x00\x00\x02\x00\x00\x00\x04\x00\x00\x00\x01\
    \x01\x88\x00\x00\x00\x01\x00\x00\x00\x00\x00\x00\x00\x02\x00\x00\x00\x01\x02",
    b"\
    \x01\x81\x00\x00\x00\x01\x00\x00\x00\x00\x00\x00\x00\x01\x00\x00\x00\x04\x00\x00\x00\x01\
    \x01\x82\x00\x00\x00\x01\x00\x00\x00\x00\x00\x00\x00\x02\x00\x00\x00\x04\x00\x00\x00\x01\
    \x01\x88\x00\x00\x00\x01\x00\x00\x00\x00\x00\x00\x00\x02\x00\x00\x00\x01\x12\
    \x01\x88\x00\x00\x00\x01\x00\x00\x00\x00\x00\x00\x00\x02\x00\x00\x00\x01\x02",
    b"\
    \x01\x81\x00\x00\x00\x01\x00\x00\x00\x00\x00\x00\x00\x01\x00\x00\x00\x04\x00\x00\x00\x01\
    \x01\x82\x00\x00\x00\x01\x00\x00\x00\x00\x00\x00\x00\x02\x00\x00\x00\x04\x00\x00\x00\x01\
    \x01\x82\x00\x00\x00\x01\x00\x00\x00\x00\x00\x00\x00\x02\x00\x00\x00\x04\x00\x00\x00\x01\
    \x01\x88\x00\x00\x00\x01\x00\x00\x00\x00\x00\x00\x00\x02\x00\x00\x00\x01\x12",
];

/// Serves the requests, into a buffer, so that writing allocates nothing. Returns whether what was written is right.
/// `None`: memory ran out, and it is right for that.
fn are_served(alloc: Global, service: &mut Service) -> Option<bool> {
    let mut buffer = [0u8; 128];
    let (mut input, mut left) = (REQUESTS, buffer.as_mut_slice());
    let ended = serve(alloc, service, &mut input, &mut left, 9);
    let count = 128usize.saturating_sub(left.len());
    let written = &buffer[..count.min(128)];
    match ended {
        Ok(Ended::Closed) if SHORT.iter().any(|short| *short == written) => None,
        Ok(Ended::Closed) => Some(written == REPLIES),
        Err(ServeFault::Frame(FrameFault::Memory))
            if REPLIES.starts_with(written) && matches!(count, 0 | 22 | 44 | 66) => { None }
        _ => Some(false),
    }
}

#[test]
fn each_growth_of_serving(rt: HostRuntime) {
    let alloc = rt.alloc();
    let mut made = service(alloc);
    if made.is_none() {
        made = service(alloc);
    }
    let mut service = made.expect(&rt, "a service");
    let mut served = are_served(alloc, &mut service);
    if served.is_none() {
        served = are_served(alloc, &mut service);
    }
    assert!(rt; served == Some(true));
}
