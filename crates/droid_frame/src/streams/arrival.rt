//! The next frame of a stream, or its end.

use crate::frame::Frame;

/// The result of reading a stream at the beginning of a frame.
#[derive(Drop)]
pub enum Arrival {
    /// The next frame.
    Frame(Frame),
    /// The end of the stream.
    End,
}
