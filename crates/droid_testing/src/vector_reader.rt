//! Readers for tests: they compare a frame that was read with a vector.

use crate::shaky::{Manner, ShakyReader, Stop};
use crate::vectors::{Vector, body_of};
use droid_frame::{Arrival, Frame, FrameFault, Noted, SteadyRead, read_frame};
use std::alloc::Global;

/// Makes a reader of these bytes that then ends.
pub fn reader_of(bytes: &[u8], manner: Manner) -> Noted<ShakyReader<'_>> {
    Noted::new(ShakyReader::new(bytes, Stop::Ends, manner))
}

/// Reads the next frame, and returns its fault, if there is one.
pub fn fault_of<R: SteadyRead>(alloc: Global, reader: &mut R) -> Option<FrameFault> {
    read_frame(alloc, reader).err()
}

/// Returns whether the stream has ended.
pub fn is_end<R: SteadyRead>(alloc: Global, reader: &mut R) -> bool {
    matches!(read_frame(alloc, reader), Ok(Arrival::End))
}

/// Reads the next frame, and returns whether it is the frame of the vector.
pub fn comes<R: SteadyRead>(alloc: Global, reader: &mut R, vector: &Vector) -> bool {
    match read_frame(alloc, reader) {
        Ok(Arrival::Frame(frame)) => is_frame(&frame, vector),
        _ => false,
    }
}

fn is_frame(frame: &Frame, vector: &Vector) -> bool {
    (frame.version, frame.kind, frame.client, frame.number)
        == (vector.version, vector.kind, 1, vector.number)
        && frame.body.as_slice() == body_of(vector.bytes)
}
