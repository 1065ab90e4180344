//! Bytes of streams: headers that are refused, and frames one after another.

use droid_frame::FrameFault;
use droid_testing::VECTORS;
use std::alloc::{AllocError, Global};

/// Versions and lengths of bodies in headers that are refused, and the fault of each. The version is judged before the
/// length.
pub const REFUSED: [(u8, u32, FrameFault); 11] = [
    (1, 1_048_641, FrameFault::TooLong),
    (1, 4_194_368, FrameFault::TooLong),
    (1, 0xffff_ffff, FrameFault::TooLong),
    (2, 4_194_369, FrameFault::TooLong),
    (2, 0xffff_ffff, FrameFault::TooLong),
    (0, 1, FrameFault::BadVersion),
    (3, 1, FrameFault::BadVersion),
    (3, 4, FrameFault::BadVersion),
    (9, 0, FrameFault::BadVersion),
    (3, 4_194_369, FrameFault::BadVersion),
    (0, 0xffff_ffff, FrameFault::BadVersion),
];

/// Returns a header with these fields, of client 1 and number 1.
pub fn header(version: u8, length: u32) -> [u8; 18] {
    let [a, b, c, d] = length.to_be_bytes();
    [version, 5, 0, 0, 0, 1, 0, 0, 0, 0, 0, 0, 0, 1, a, b, c, d]
}

/// Returns all vectors, one after another.
pub fn stream_of_all(alloc: Global) -> Result<Vec<u8>, AllocError> {
    let mut stream = Vec::new(alloc);
    for vector in &VECTORS {
        stream.extend_from_slice(vector.bytes)?;
    }
    Ok(stream)
}
