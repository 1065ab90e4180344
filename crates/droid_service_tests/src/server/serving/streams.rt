//! How many frames of a stream are answered. The built program has one number for that, and tests/program cuts its
//! streams after each byte.

use crate::server::serving::{REPLIES, REQUESTS, service};
use droid_frame::Noted;
use droid_testing::{STEADY, ShakyReader, ShakyWriter, Stop};
use droid_wire::{Ended, serve};
use std::alloc::Global;

/// How many frames are answered at most, how many bytes of the requests there are, and how they stop. Then how serving
/// ends, how many bytes of replies are written, and how many of the requests are left unread. After the last frame
/// nothing is read, and without one nothing is written.
type Turns = (u32, usize, Stop, Ended, usize, usize);

const TURNS: [Turns; 7] = [
    (0, 0, Stop::Fails, Ended::Turns, 0, 0),
    (0, 132, Stop::Ends, Ended::Turns, 0, 132),
    (2, 59, Stop::Fails, Ended::Turns, 44, 0),
    (3, 132, Stop::Ends, Ended::Turns, 66, 37),
    (4, 132, Stop::Ends, Ended::Turns, 85, 0),
    (4, 132, Stop::Fails, Ended::Turns, 85, 0),
    (9, 132, Stop::Ends, Ended::Closed, 85, 0),
];

/// Serves the requests with an empty service, over a writer that fails behind the replies.
fn are_served(alloc: Global, turns: Turns) -> bool {
    let (frames, count, stop, ended, written, left) = turns;
    let Some(mut service) = service(alloc) else {
        return false;
    };
    let requests = &REQUESTS[..count.min(REQUESTS.len())];
    let replies = &REPLIES[..written.min(REPLIES.len())];
    let mut reader = Noted::new(ShakyReader::new(requests, stop, STEADY));
    let writer = ShakyWriter::new(Vec::new(alloc), written, Stop::Fails, STEADY);
    let mut writer = Noted::new(writer);
    let found = serve(alloc, &mut service, &mut reader, &mut writer, frames);
    matches!(found, Ok(end) if end == ended)
        && writer.stream.taken() == replies
        && reader.stream.left() == left
}

#[test]
fn runs_and_streams(rt: HostRuntime) {
    for (place, turns) in TURNS.iter().enumerate() {
        assert!(rt; are_served(rt.alloc(), *turns), "row {place}");
    }
}
