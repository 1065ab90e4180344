// This test also passes if any one allocation is refused: tests/memory refuses each in turn.
//! Out of memory: a request that was not submitted and a reply that was not taken leave the client unchanged, and the
//! same call again succeeds.

use droid_client::{Client, HearFault, Heard, SubmitFault};
use droid_frame::{Frame, Refusal, Reply, Request};
use droid_testing::frame;
use std::alloc::{AllocError, Global};

// The bodies of a Finished of one identifier, fmt/1, by a signature, with a digest of zero bytes: in version 1 MD5's,
// and in version 2 SHA-256's, behind its number.
const FINISHED: [u8; 26] = [
    1, 0, 0, 0, 0, 0, 0, 0, 0, 0, 0, 0, 0, 0, 0, 0, 0, 0, 0, 1, 5, 102, 109, 116, 47, 49,
];

const FINISHED_2: [u8; 43] = [
    1, 0, 2, 0, 0, 0, 0, 0, 0, 0, 0, 0, 0, 0, 0, 0, 0, 0, 0, 0, 0, 0, 0, 0, 0, 0, 0, 0, 0, 0, 0, 0,
    0, 0, 0, 0, 1, 5, 102, 109, 116, 47, 49,
];

fn frame_of(alloc: Global, version: u8, kind: u8, body: &[u8]) -> Result<Frame, AllocError> {
    frame(alloc, version, kind, 1, body).or_else(|_| frame(alloc, version, kind, 1, body))
}

// Returns whether the first `count` of two requests are pending, and the first of them has this refusal.
fn are_pending(client: &Client, count: usize, refused: Option<Refusal>) -> bool {
    let mut right = client.pending() == count && client.refusal(1) == refused;
    for at in 0..3usize {
        let number = if at < count {
            Some(at as u64 + 1)
        } else {
            None
        };
        right &= client.pending_at(at).map(|frame| frame.number) == number;
    }
    right && client.answer(1).is_none() && client.answer(2).is_none() && client.refusal(2).is_none()
}

fn finish() -> Request {
    Request::Finish {
        profile: 1,
        file: 1,
    }
}

// Submits a request after `before` others, and once more if memory ran out and those are unchanged.
fn submitted(client: &mut Client, version: u8, before: usize) -> Option<u64> {
    let (first, again) = (finish(), finish());
    if !first.fits(version) || !again.fits(version) {
        return None;
    }
    match client.submit(version, first) {
        Ok(number) => Some(number),
        Err(SubmitFault::Memory) if are_pending(client, before, None) => {
            client.submit(version, again).ok()
        }
        Err(_) => None,
    }
}

// Takes the answer to the first of two requests, and once more if memory ran out and both are unchanged.
fn heard(alloc: Global, client: &mut Client, version: u8, body: &[u8]) -> Option<Heard> {
    match client.on_reply(frame_of(alloc, version, 132, body).ok()?) {
        Ok(heard) => Some(heard),
        Err(HearFault::Memory) if are_pending(client, 2, Some(Refusal::Memory)) => {
            client
                .on_reply(frame_of(alloc, version, 132, body).ok()?)
                .ok()
        }
        Err(_) => None,
    }
}

// Returns whether of two requests in a version the first is refused and then answered.
fn is_answered(alloc: Global, version: u8, body: &[u8]) -> Option<bool> {
    let mut client = Client::new(alloc, 1, 1);
    let first = submitted(&mut client, version, 0)?;
    let second = submitted(&mut client, version, 1)?;
    let refused = client
        .on_reply(frame_of(alloc, version, 136, &[18]).ok()?)
        .ok()?;
    let answered = heard(alloc, &mut client, version, body)?;
    let puids = match client.answer(1) {
        Some(Reply::Finished { puids, .. }) => puids.len(),
        _ => 0,
    };
    let stays = client.pending() == 1 && client.refusal(1) == Some(Refusal::Memory);
    let heard = refused == Heard::Refused && answered == Heard::Answered;
    Some((first, second, puids) == (1, 2, 1) && stays && heard)
}

#[test]
fn short_and_again(rt: HostRuntime) {
    assert!(rt; is_answered(rt.alloc(), 1, &FINISHED) == Some(true));
    assert!(rt; is_answered(rt.alloc(), 2, &FINISHED_2) == Some(true));
}
