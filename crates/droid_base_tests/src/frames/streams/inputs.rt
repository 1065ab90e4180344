//! Reading and writing over streams: buffers, inputs and texts that are interrupted, fail or are too long.

use droid_frame::{
    Condition, InputFault, Noted, ReadFault, Retries, Seen, SteadyRead, WriteFault, WriteState,
    fill, read_some, read_to_end, write_all,
};
use droid_testing::{
    BYTE_BY_BYTE, Manner, NOWHERE, Place, STEADY, ShakyReader, ShakyWriter, Stop, reader_of,
};
use std::alloc::{AllocError, Global};
use std::io::{Write, sink};
use std::test::Fail;

/// Returns this many bytes, each different from the next.
fn bytes_of(alloc: Global, count: usize) -> Result<Vec<u8>, AllocError> {
    let mut bytes = Vec::new(alloc);
    let mut next = 0u8;
    for _ in 0..count {
        bytes.push(next)?;
        next = next.wrapping_add(7);
    }
    Ok(bytes)
}

/// Returns whether an input as long as a limit, or shorter, is read whole, and of a longer one a byte past the limit.
fn has_limits(alloc: Global, bytes: &[u8], manner: Manner) -> bool {
    let count = bytes.len();
    let mut right = true;
    for limit in [count, count.saturating_add(1), 1_048_576] {
        let input = read_to_end(alloc, &mut reader_of(bytes, manner), limit.min(1_048_576));
        right &= input.is_ok_and(|input| input.as_slice() == bytes);
    }
    for less in [1usize, 2, 5_000] {
        if let Some(limit) = count.checked_sub(less) {
            let mut reader = reader_of(bytes, manner);
            let fault = read_to_end(alloc, &mut reader, limit.min(1_048_576)).err();
            right &= fault == Some(InputFault::TooLong)
                && reader.stream.left().saturating_add(1) == less
                && reader.seen == Seen::fresh();
        }
    }
    right
}

#[test]
fn inputs_and_their_limits(rt: HostRuntime) -> Result<(), Fail> {
    for count in [0usize, 1, 8_191, 8_192, 8_193, 20_000] {
        let bytes = bytes_of(rt.alloc(), count)?;
        for manner in [STEADY, BYTE_BY_BYTE] {
            assert!(rt; has_limits(rt.alloc(), bytes.as_slice(), manner), "{count}");
        }
    }
    Ok(())
}

/// Returns whether a reader that fails behind these bytes isn't read again, and the next call reads the four behind the
/// fault.
fn fails_once(alloc: Global, front: &[u8], manner: Manner) -> bool {
    let mut reader = Noted::new(ShakyReader::broken(front, b"more", manner));
    let fails = read_to_end(alloc, &mut reader, 100).err() == Some(InputFault::Read)
        && reader.stream.left() == 4
        && reader.seen.condition == Condition::Failed;
    let rest = read_to_end(alloc, &mut reader, 100);
    let goes_on = rest.is_ok_and(|rest| rest.as_slice() == b"more".as_slice());
    fails && goes_on && reader.seen.condition == Condition::UsedSince
}

#[test]
fn inputs_that_fail(rt: HostRuntime) {
    for front in [b"".as_slice(), b"a", b"abc"] {
        for manner in [STEADY, BYTE_BY_BYTE] {
            assert!(rt; fails_once(rt.alloc(), front, manner), "{front:?}");
        }
    }
}

/// Returns a manner with these interruptions.
fn interrupted(places: [Place; 3]) -> Manner {
    Manner { places, ..STEADY }
}

/// Returns whether the second of two buffers is filled after 32 interruptions and this many more. They have one count.
fn fills(more: u32, second: Result<usize, ReadFault>, filled: &[u8]) -> bool {
    let mut reader = reader_of(b"abcdefg", interrupted([(1, 32), (4, more), NOWHERE]));
    let mut retries = Retries::new();
    let (mut first, mut rest) = ([0u8; 4], [0u8; 5]);
    fill(&mut reader, &mut first, &mut retries) == Ok(4)
        && first == *b"abcd"
        && fill(&mut reader, &mut rest, &mut retries) == second
        && rest.as_slice() == filled
        && reader.seen.interruptions == u64::from(more).saturating_add(32)
        && reader.seen.condition == Condition::Sound
}

// A short input fills less than the buffer.
#[test]
fn buffers(rt: HostRuntime) {
    assert!(rt; fills(32, Ok(3), b"efg\0\0") && fills(33, Err(ReadFault), &[0; 5]));
    let mut slice = b"xyz".as_slice();
    let mut buffer = [0u8; 2];
    let count = read_some(&mut slice, &mut buffer, &mut Retries::new());
    assert!(rt; count == Ok(2) && buffer == *b"xy" && slice == b"z".as_slice());
}

// An interruption that can't be counted any more is a failure.
#[test]
fn interruptions_past_the_count(rt: HostRuntime) {
    let mut reader = reader_of(b"a", interrupted([(0, 2), NOWHERE, NOWHERE]));
    reader.seen.interruptions = u64::MAX - 1;
    for condition in [Condition::Sound, Condition::Failed] {
        let fails = reader.read_on(&mut [0u8; 1]).is_err();
        let seen = reader.seen;
        assert!(rt; fails && seen.interruptions == u64::MAX && seen.condition == condition);
    }
}

// Streams over memory: a slice that is full takes no more, and a sink and a vector take all. A flush reaches the
// stream.
#[test]
fn streams_over_memory(rt: HostRuntime) {
    let mut room = [0u8; 3];
    let mut rest = room.as_mut_slice();
    let given = write_all(&mut rest, b"abcd", &mut WriteState::new());
    assert!(rt; given == Err(WriteFault { written: 3 }) && room == *b"abc");
    let mut taken = Noted::new(Vec::new(rt.alloc()));
    let all = write_all(&mut sink(), b"abcd", &mut WriteState::new()) == Ok(())
        && write_all(&mut taken, b"abcd", &mut WriteState::new()) == Ok(());
    assert!(rt; all && taken.stream.as_slice() == b"abcd".as_slice());
    let flushed = ShakyWriter::new(Vec::new(rt.alloc()), 9, Stop::Fails, STEADY);
    let mut flushed = Noted::new(flushed);
    assert!(rt; flushed.flush().is_ok() && flushed.stream.flushes() == 1);
}
