//! What one call of [`FrameFeed::take`](crate::FrameFeed::take) took, and the frame that it completed.

use droid_frame::Frame;

/// What a reader took from the front of a piece.
#[derive(Drop)]
pub struct Fed {
    /// The frame that is whole now. `None`: the whole piece was taken, and more bytes are needed.
    pub frame: Option<Frame>,
    /// The number of bytes that were taken from the piece. The bytes after them belong to the next frame.
    pub taken: usize,
}
