//! Frames: requests and replies as bytes on a stream; and the mark of a request, by which it is known when it is sent
//! again.

ghost use Rattle.std.specs.Prelude.{◌≡◌};
ghost use Rattle.droid_frame.specs.Frames.{mark_of};

use crate::blob::Blob;
use md5::{Digest, Md5};

/// The number of a request is below this: 2^63. Definitions write `2 ^ 63`; the law `constants_are_the_limits` ties the
/// two.
pub const NUMBER_LIMIT: u64 = 1 << 63;

/// A frame: a request or a reply with its header. Any values make a frame; `request_of` and `reply_of` check whether
/// its kind and body are valid.
#[derive(Drop)]
pub struct Frame {
    /// The version of the format: 1 or 2 in a frame on a stream.
    pub version: u8,
    /// The kind: 1 to 8 in a request, 129 to 136 in a reply.
    pub kind: u8,
    /// The client that sent the request.
    pub client: u32,
    /// The number that the client gave the request, below [`NUMBER_LIMIT`]. A reply has the number of its request.
    pub number: u64,
    /// The fields of the request or reply, without the frame's header.
    pub body: Blob,
}

/// Computes the mark of a request: the MD5 (RFC 1321) of its kind's byte followed by its body, without version, client
/// and number. Two requests of one client and number count as the same request if their versions and their marks are
/// equal. Allocates nothing.
pub fn mark(kind: u8, body: &[u8]) -> [u8; 16]
    ensures { result ≡ mark_of kind body.now }
{
    let mut hasher = Md5::new();
    hasher.update(&[kind]);
    hasher.update(body);
    hasher.finalize()
}
