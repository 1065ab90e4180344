// Each test also passes if any one allocation fails: tests/memory makes each fail in turn.
//! Out of memory: a call reports it, and the same call succeeds when it is made again.

use droid_frame::{BodyFault, Frame, Reply, Texts, reply_of, request_frame, request_of};
use droid_testing::frame;
use std::alloc::{AllocError, Global};

// An Export of the records whose extension is `msg` or empty. Written by hand.
const EXPORT: [u8; 25] = [
    0, 0, 0, 1, 0, 0, 0, 0, 0, 0, 0, 9, 0, 0, 0, 1, 0, 1, 3, 2, 3, 0x6d, 0x73, 0x67, 0,
];

// A Finished: by extension, no mismatch, the MD5 of no bytes, the formats `dev/4` and `a`. Written by hand.
const FINISHED: [u8; 29] = [
    2, 0, 1, 0xd4, 0x1d, 0x8c, 0xd9, 0x8f, 0x00, 0xb2, 0x04, 0xe9, 0x80, 0x09, 0x98, 0xec, 0xf8,
    0x42, 0x7e, 0, 2, 5, 0x64, 0x65, 0x76, 0x2f, 0x34, 1, 0x61,
];

fn frame_of(alloc: Global, kind: u8, body: &[u8]) -> Result<Frame, AllocError> {
    frame(alloc, 2, kind, 9, body).or_else(|_| frame(alloc, 2, kind, 9, body))
}

// Returns whether the request is read and written as the same bytes again; `None` if it isn't read.
fn is_request(alloc: Global) -> Option<bool> {
    let request = match request_of(alloc, frame_of(alloc, 8, &EXPORT).ok()?) {
        Ok(request) => request,
        Err(BodyFault::Memory) => request_of(alloc, frame_of(alloc, 8, &EXPORT).ok()?).ok()?,
        Err(BodyFault::Malformed) => return None,
    };
    if !request.fits(2) {
        return None;
    }
    let frame = match request_frame(alloc, 2, 1, 9, &request) {
        Ok(frame) => frame,
        Err(_) => request_frame(alloc, 2, 1, 9, &request).ok()?,
    };
    Some(frame.body.as_slice() == EXPORT.as_slice())
}

#[test]
fn each_growth_of_a_request(rt: HostRuntime) {
    assert!(rt; is_request(rt.alloc()) == Some(true));
}

fn are_both(puids: &Texts) -> bool {
    match (puids.get(0), puids.get(1)) {
        (Some(first), Some(second)) => {
            puids.len() == 2 && first.as_str() == "dev/4" && second.as_str() == "a"
        }
        _ => false,
    }
}

// Returns whether a copy of the reply that is read has the identifiers; `None` if it isn't read or copied.
fn is_reply(alloc: Global) -> Option<bool> {
    let reply = match reply_of(alloc, frame_of(alloc, 132, &FINISHED).ok()?) {
        Ok(reply) => reply,
        Err(BodyFault::Memory) => reply_of(alloc, frame_of(alloc, 132, &FINISHED).ok()?).ok()?,
        Err(BodyFault::Malformed) => return None,
    };
    let copy = match reply.try_clone(alloc) {
        Ok(copy) => copy,
        Err(_) => reply.try_clone(alloc).ok()?,
    };
    Some(matches!(&copy, Reply::Finished { puids, .. } if are_both(puids)))
}

#[test]
fn each_growth_of_a_reply(rt: HostRuntime) {
    assert!(rt; is_reply(rt.alloc()) == Some(true));
}
