//! The queue of replies, over connections that take few bytes at a time.

use droid_frame::{Arrival, read_frame, reply_of};
use droid_testing::{
    FINISHED, FINISHED_WITH_SHA256, INCOMPLETE, MADE, NODE, NODES_REACHED, NUMBER_REUSED,
};
use droid_turns::ReplyQueue;
use std::alloc::{AllocError, Global};
use std::test::Fail;

/// The frames of replies of both versions, in the order in which they are queued.
const REPLIES: [&[u8]; 7] = [
    MADE,
    NODE,
    NUMBER_REUSED,
    FINISHED,
    FINISHED_WITH_SHA256,
    INCOMPLETE,
    NODES_REACHED,
];

/// Queues the reply that these bytes spell, and returns whether it is queued.
fn is_queued(alloc: Global, queue: &mut ReplyQueue, bytes: &[u8]) -> bool {
    let mut input = bytes;
    let Ok(Arrival::Frame(frame)) = read_frame(alloc, &mut input) else {
        return false;
    };
    let (version, client, number) = (frame.version, frame.client, frame.number);
    match reply_of(alloc, frame) {
        Ok(reply) => queue.push(version, client, number, &reply).is_ok(),
        Err(_) => false,
    }
}

/// Takes up to `width` bytes at a time, as a connection does, until `most` times or none wait.
fn take(
    queue: &mut ReplyQueue,
    width: usize,
    most: usize,
    taken: &mut Vec<u8>,
) -> Result<(), AllocError> {
    for _ in 0..most {
        let front = queue.front();
        let count = width.min(front.len());
        let (now, _) = front.split_at(count);
        taken.extend_from_slice(now)?;
        queue.advance(count);
    }
    Ok(())
}

/// Queues each reply this many times, with `between` writes after each. Returns whether the connection took all of them
/// in the end, `last` times: nothing is lost and nothing written twice.
fn are_taken(
    alloc: Global,
    replies: &[&[u8]],
    times: u32,
    width: usize,
    between: usize,
    last: usize,
) -> Result<bool, AllocError> {
    let mut queue = ReplyQueue::new(alloc);
    let (mut taken, mut wanted) = (Vec::new(alloc), Vec::new(alloc));
    for reply in replies {
        for _ in 0..times {
            wanted.extend_from_slice(reply)?;
            if !is_queued(alloc, &mut queue, reply) {
                return Ok(false);
            }
            take(&mut queue, width, between, &mut taken)?;
        }
    }
    let right = queue.len() == wanted.len().saturating_sub(taken.len());
    take(&mut queue, width, last, &mut taken)?;
    let all = queue.len() == 0 && queue.front().is_empty();
    Ok(right && all && taken.as_slice() == wanted.as_slice())
}

// And more replies than one chunk holds: 8,000 of 22 bytes.
#[test]
fn written_once(rt: HostRuntime) -> Result<(), Fail> {
    for width in [1, 2, 3, 18, 19, 22, 64, 1_000] {
        for between in [0, 1, 2] {
            let taken = are_taken(rt.alloc(), &REPLIES, 1, width, between, 1_000)?;
            assert!(rt; taken, "{width} {between}");
        }
    }
    assert!(rt; are_taken(rt.alloc(), &[MADE], 8_000, 1_000_000, 0, 100)?);
    Ok(())
}
