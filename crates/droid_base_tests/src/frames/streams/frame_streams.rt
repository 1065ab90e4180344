//! Frames that are read from streams: whole, cut short, with headers that are refused, and failing.

use crate::frames::stream_bytes::{REFUSED, header, stream_of_all};
use droid_frame::{Arrival, Condition, FrameFault, Noted, read_frame};
use droid_testing::{
    BYTE_BY_BYTE, Manner, STEADY, ShakyReader, VECTORS, Vector, body_of, comes, fault_of, is_end,
    reader_of,
};
use std::alloc::{AllocError, Global};
use std::test::Fail;

/// Returns whether these bytes, cut short after each byte, end within a frame and are read to their end.
fn is_cut_short(alloc: Global, bytes: &[u8], manner: Manner) -> bool {
    let mut right = true;
    for cut in 1..bytes.len() {
        let mut reader = reader_of(&bytes[..cut], manner);
        right &= fault_of(alloc, &mut reader) == Some(FrameFault::Truncated);
        right &= reader.stream.left() == 0;
    }
    right
}

/// Returns whether each vector is read from the stream of all, and none that is cut short.
fn are_read(alloc: Global, stream: &[u8], vectors: &[Vector], manner: Manner) -> bool {
    let mut reader = reader_of(stream, manner);
    let mut right = true;
    for vector in vectors {
        right &= comes(alloc, &mut reader, vector) && is_cut_short(alloc, vector.bytes, manner);
    }
    right && is_end(alloc, &mut reader) && is_end(alloc, &mut reader_of(&[], manner))
}

// The result depends on the bytes alone.
#[test]
fn read_in_turn_and_cut(rt: HostRuntime) -> Result<(), Fail> {
    let stream = stream_of_all(rt.alloc())?;
    for manner in [STEADY, BYTE_BY_BYTE] {
        assert!(rt; are_read(rt.alloc(), stream.as_slice(), &VECTORS, manner));
    }
    Ok(())
}

/// Returns whether a header is refused like this, and no byte behind it is read. The end of the bytes within a header
/// is judged before its version and length.
fn is_refused(
    alloc: Global,
    bytes: [u8; 18],
    fault: FrameFault,
    manner: Manner,
) -> Result<bool, AllocError> {
    let mut more = Vec::from_slice(alloc, &bytes)?;
    more.extend_from_slice(&[7; 40])?;
    let mut reader = reader_of(more.as_slice(), manner);
    Ok(
        fault_of(alloc, &mut reader) == Some(fault)
            && reader.stream.left() == 40
            && is_cut_short(alloc, &bytes, manner),
    )
}

#[test]
fn headers_refused(rt: HostRuntime) -> Result<(), Fail> {
    for manner in [STEADY, BYTE_BY_BYTE] {
        for (version, length, fault) in &REFUSED {
            let bytes = header(*version, *length);
            assert!(rt;
                is_refused(rt.alloc(), bytes, *fault, manner)?,
                "{version} {length}"
            );
        }
    }
    Ok(())
}

// Reads again if memory ran out, so it passes whichever allocation is refused. Only the header was read then.
#[test]
fn growths_refused(rt: HostRuntime) {
    for vector in &VECTORS {
        assert!(rt;
            comes_or_is_out_of_memory(rt.alloc(), vector),
            "{}",
            vector.kind
        );
    }
}

fn comes_or_is_out_of_memory(alloc: Global, vector: &Vector) -> bool {
    let mut reader = reader_of(vector.bytes, STEADY);
    match read_frame(alloc, &mut reader) {
        Err(FrameFault::Memory) => {
            let left = reader.stream.left();
            left == body_of(vector.bytes).len()
                && comes(alloc, &mut reader_of(vector.bytes, STEADY), vector)
        }
        Ok(Arrival::Frame(frame)) => frame.kind == vector.kind,
        _ => false,
    }
}

/// Returns whether a reader that fails once, at each byte of the frame and behind it, and has more bytes after that,
/// isn't read again by the same call.
fn is_not_read_again(alloc: Global, vector: &Vector, manner: Manner) -> bool {
    let mut right = true;
    for cut in 0..vector.bytes.len() {
        let (front, behind) = vector.bytes.split_at(cut);
        let mut reader = Noted::new(ShakyReader::broken(front, behind, manner));
        right &= fault_of(alloc, &mut reader) == Some(FrameFault::Read);
        right &= reader.stream.left() == behind.len() && reader.seen.condition == Condition::Failed;
    }
    let mut reader = Noted::new(ShakyReader::broken(vector.bytes, vector.bytes, manner));
    right
        && comes(alloc, &mut reader, vector)
        && fault_of(alloc, &mut reader) == Some(FrameFault::Read)
        && comes(alloc, &mut reader, vector)
}

#[test]
fn readers_that_fail(rt: HostRuntime) {
    for vector in &VECTORS {
        assert!(rt;
            is_not_read_again(rt.alloc(), vector, STEADY),
            "{}",
            vector.kind
        );
        assert!(rt;
            is_not_read_again(rt.alloc(), vector, BYTE_BY_BYTE),
            "{}",
            vector.kind
        );
    }
}
