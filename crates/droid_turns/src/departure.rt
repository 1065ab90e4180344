//! Why a connection was closed.

use droid_frame::FrameFault;

/// Why the loop closed a connection.
#[derive(Clone, Copy)]
pub enum Departure {
    /// Its input ended after a whole frame, or before the first. Every reply was written.
    Closed,
    /// As many frames of it were handled as of any connection at most: 1,000,000. Every reply was written.
    Enough,
    /// No further frame could be read. Every reply was written.
    Frame(FrameFault),
    /// Out of memory for its buffer or for a reply. The service keeps the reply to an accepted command.
    Memory,
    /// A reply could not be written.
    Write,
    /// Idle: for too long no byte of it came, and it took none.
    Idle,
    /// The loop ended, since waiting failed.
    Stopped,
    /// The loop ended, since the handler could not settle. Nothing was written after that.
    Unsettled,
}
