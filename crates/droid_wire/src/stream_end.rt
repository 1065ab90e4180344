//! The end of serving a stream where nothing failed.

/// How serving a stream ended. All frames that were read were answered.
#[derive(Clone, Copy, PartialEq, Eq)]
pub enum Ended {
    /// The stream ended where a frame would begin.
    Closed,
    /// The number of frames that the caller asked for was answered.
    Turns,
}
