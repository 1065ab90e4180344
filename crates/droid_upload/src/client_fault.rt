//! Why a client has no reply.

use droid_frame::Refusal;

/// Why a client has no reply to a request.
#[derive(Clone, Copy, PartialEq, Eq)]
pub enum ClientFault {
    /// A piece that was sent before was refused for this reason. This request may have been sent or not; nothing is in
    /// flight any more.
    Piece(Refusal),
    /// No reply came, and none will. The client knows why.
    Ended,
}
