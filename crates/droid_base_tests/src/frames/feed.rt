//! The reader of frames that is fed.

use crate::frames::stream_bytes::{REFUSED, header, stream_of_all};
use droid_frame::{Frame, FrameFault};
use droid_testing::{VECTORS, Vector, body_of};
use droid_turns::{Fed, FrameFeed};
use std::alloc::Global;
use std::test::Fail;

/// Returns whether this is the frame of the vector.
fn is_frame(frame: &Frame, vector: &Vector) -> bool {
    (frame.version, frame.kind, frame.client, frame.number)
        == (vector.version, vector.kind, 1, vector.number)
        && frame.body.as_slice() == body_of(vector.bytes)
}

/// Feeds the stream in pieces, each of `most` bytes or, by a seed that isn't 0, by chance of up to as many. Returns
/// whether these frames come, in this order, and the stream may end behind each of them and not within one. Each call
/// takes a byte at least.
fn come(alloc: Global, stream: &[u8], vectors: &[Vector], most: usize, seed: u64) -> bool {
    let mut feed = FrameFeed::new(alloc);
    let (mut rest, mut next, mut left, mut state) = (stream, 0usize, 0usize, seed);
    let mut right = true;
    for _ in 0..stream.len() {
        if rest.is_empty() {
            break;
        }
        if left == 0 {
            left = most;
            if seed != 0 {
                state = state
                    .wrapping_mul(6_364_136_223_846_793_005)
                    .wrapping_add(1_442_695_040_888_963_407);
                left = ((state >> 33) as usize % most.max(1)).saturating_add(1);
            }
        }
        let piece = rest.get(..left).unwrap_or(rest);
        let Ok(fed) = feed.take(piece) else {
            return false;
        };
        let all = fed.taken == piece.len();
        left = left.saturating_sub(fed.taken);
        rest = rest.get(fed.taken..).unwrap_or(b"");
        match (fed.frame, vectors.get(next)) {
            (Some(frame), Some(vector)) => {
                right &= is_frame(&frame, vector) && feed.end() == Ok(());
                next = next.saturating_add(1);
            }
            (Some(_), None) => return false,
            (None, _) => {
                right &= all && feed.end() == Err(FrameFault::Truncated);
            }
        }
    }
    right && rest.is_empty() && next == vectors.len() && feed.end() == Ok(())
}

// All vectors, in pieces of many widths, and in pieces by chance; and each alone, cut at each byte.
#[test]
fn cut_anywhere(rt: HostRuntime) -> Result<(), Fail> {
    let stream = stream_of_all(rt.alloc())?;
    for most in [1, 2, 3, 5, 17, 18, 19, 36, 37, 64, 1_000, 1_000_000] {
        assert!(rt;
            come(rt.alloc(), stream.as_slice(), &VECTORS, most, 0),
            "{most}"
        );
    }
    for seed in 1..=200u64 {
        let most = 1 + (seed as usize % 70);
        assert!(rt;
            come(rt.alloc(), stream.as_slice(), &VECTORS, most, seed),
            "{seed}"
        );
    }
    for vector in &VECTORS {
        for cut in 1..=vector.bytes.len() {
            assert!(rt; come(rt.alloc(), vector.bytes, &[*vector], cut, 0), "{cut}");
        }
    }
    Ok(())
}

/// Returns whether the fault comes with the last byte of the header, not before, and stays.
fn stays_refused(alloc: Global, bytes: &[u8; 18], fault: FrameFault) -> bool {
    let mut feed = FrameFeed::new(alloc);
    let (front, last) = bytes.split_at(17);
    let waits = feed.take(front).is_ok() && feed.end() == Err(FrameFault::Truncated);
    let late = feed.take(last).err() == Some(fault);
    let again = feed.take(&[1; 64]).err() == Some(fault);
    let idle = feed.take(&[]).err() == Some(fault);
    waits && late && again && idle && feed.end() == Err(fault)
}

#[test]
fn refused_for_ever(rt: HostRuntime) {
    for (version, length, fault) in &REFUSED {
        let bytes = header(*version, *length);
        assert!(rt;
            stays_refused(rt.alloc(), &bytes, *fault),
            "{version} {length}"
        );
    }
}

/// The length of the longest body, of version 2.
const LONGEST: usize = 4_194_368;

/// Feeds the header of the longest body, and that body, of sevens: a byte alone, and then these pieces. Returns whether
/// the frame comes with the last one.
fn comes_growing(alloc: Global, piece: &[u8]) -> bool {
    let mut feed = FrameFeed::new(alloc);
    if feed.take(&header(2, LONGEST as u32)).is_err() || feed.take(&[7]).is_err() {
        return false;
    }
    let mut came = 1usize;
    for _ in 0..LONGEST {
        let part = piece.get(..LONGEST.saturating_sub(came)).unwrap_or(piece);
        let Ok(fed) = feed.take(part) else {
            return false;
        };
        if let Some(frame) = fed.frame {
            let sevens = frame.body.as_slice().iter().all(|byte| *byte == 7);
            return sevens && frame.body.len() == LONGEST;
        }
        came = came.saturating_add(fed.taken);
    }
    false
}

#[test]
fn come_in_pieces(rt: HostRuntime) -> Result<(), Fail> {
    for width in [1_000, 65_536, LONGEST] {
        let piece = vec![in rt.alloc(); 7u8; width]?;
        assert!(rt; comes_growing(rt.alloc(), piece.as_slice()), "{width}");
    }
    Ok(())
}
