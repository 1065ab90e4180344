//! Frames and replies over writers that stop.

use droid_frame::{
    Arrival, Noted, WriteFault, body_limit, read_frame, reply_of, write_frame, write_reply,
};
use droid_testing::{BYTE_BY_BYTE, Manner, STEADY, ShakyWriter, Stop, VECTORS, Vector};
use std::alloc::Global;

/// Returns how writing `all` bytes has to end if `taken` of them are taken.
fn ended(taken: usize, all: usize) -> Result<(), WriteFault> {
    if taken < all {
        return Err(WriteFault { written: taken });
    }
    Ok(())
}

/// Writes the frame of these bytes, as a reply or as any frame, and returns how that ended.
fn written(
    alloc: Global,
    bytes: &[u8],
    is_reply: bool,
    writer: &mut Noted<ShakyWriter>,
) -> Option<Result<(), WriteFault>> {
    let mut input = bytes;
    let Ok(Arrival::Frame(frame)) = read_frame(alloc, &mut input) else {
        return None;
    };
    if frame.body.len() > body_limit(2) {
        return None;
    }
    if !is_reply {
        return Some(write_frame(&frame, writer));
    }
    let (version, client, number) = (frame.version, frame.client, frame.number);
    match reply_of(alloc, frame) {
        Ok(reply) => Some(write_reply(version, client, number, &reply, writer)),
        Err(_) => None,
    }
}

/// Returns whether a writer that stops once after each number of bytes, and could take more after that, took exactly
/// these.
fn is_cut(alloc: Global, bytes: &[u8], is_reply: bool, stop: Stop, manner: Manner) -> bool {
    let mut right = true;
    for room in 0..=bytes.len() {
        let mut writer = Noted::new(ShakyWriter::new(Vec::new(alloc), room, stop, manner));
        let answer = written(alloc, bytes, is_reply, &mut writer);
        right &= answer == Some(ended(room, bytes.len()));
        right &= bytes.get(..room) == Some(writer.stream.taken());
    }
    right
}

/// Returns whether all vectors are so, and the replies among them if they are written as replies.
fn are_cut(alloc: Global, vectors: &[Vector], manner: Manner) -> bool {
    let mut right = true;
    for vector in vectors {
        right &= is_cut(alloc, vector.bytes, false, Stop::Fails, manner)
            && is_cut(alloc, vector.bytes, false, Stop::Ends, manner)
            && (vector.kind < 129 || is_cut(alloc, vector.bytes, true, Stop::Fails, manner));
    }
    right
}

#[test]
fn written_whole_and_cut(rt: HostRuntime) {
    for manner in [STEADY, BYTE_BY_BYTE] {
        assert!(rt; are_cut(rt.alloc(), &VECTORS, manner));
    }
}
