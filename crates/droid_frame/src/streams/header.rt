//! Headers of frames: the 18 bytes before a body, as a value and back.

ghost use Rattle.std.specs.Prelude.{◌≡◌, IsErrOf};
ghost use Rattle.droid_frame.specs.Headers.{header_bytes};
ghost use Rattle.droid_frame.specs.StreamReads.{IsHeader, judged};

use super::fault::FrameFault;
use crate::versions::{body_limit, is_version};

/// The length in bytes of a frame's header, which is everything before the body. It is the sum of the fields below: 1,
/// 1, 4, 8 and 4. `header_size` of `specs/Streams.antt` is the same; the prover refuses another number here.
pub const HEADER_LENGTH: usize = 18;

/// The fields of a header, in their order on a stream.
#[derive(Clone, Copy)]
pub struct Header {
    /// The version of the frame's format.
    pub version: u8,
    /// The kind: 1 to 8 for a request, 129 to 136 for a reply.
    pub kind: u8,
    /// The client that sent the request.
    pub client: u32,
    /// The number that the client gave the request.
    pub number: u64,
    /// The length of the body in bytes.
    pub length: u32,
}

impl Header {
    /// Returns the bytes of the header: its fields in their order, numbers big-endian.
    pub(crate) fn to_bytes(&self) -> [u8; HEADER_LENGTH]
        ensures { result ≡ header_bytes self.now }
    {
        let [c0, c1, c2, c3] = self.client.to_be_bytes();
        let [n0, n1, n2, n3, n4, n5, n6, n7] = self.number.to_be_bytes();
        let [l0, l1, l2, l3] = self.length.to_be_bytes();
        [
            self.version,
            self.kind,
            c0,
            c1,
            c2,
            c3,
            n0,
            n1,
            n2,
            n3,
            n4,
            n5,
            n6,
            n7,
            l0,
            l1,
            l2,
            l3,
        ]
    }

    /// Returns the header that these bytes spell. Any 18 bytes spell one: nothing is checked here.
    pub fn from_bytes(bytes: &[u8; HEADER_LENGTH]) -> Header
        ensures spelled { header_bytes result ≡ bytes.now }
        ensures fits { IsHeader result }
    {
        let [
            version,
            kind,
            c0,
            c1,
            c2,
            c3,
            n0,
            n1,
            n2,
            n3,
            n4,
            n5,
            n6,
            n7,
            l0,
            l1,
            l2,
            l3,
        ] = *bytes;
        Header {
            version,
            kind,
            client: u32::from_be_bytes([c0, c1, c2, c3]),
            number: u64::from_be_bytes([n0, n1, n2, n3, n4, n5, n6, n7]),
            length: u32::from_be_bytes([l0, l1, l2, l3]),
        }
    }

    /// Checks the version and the length, in this order, and returns the length of the body in bytes. `BadVersion` if
    /// the version is neither 1 nor 2; `TooLong` if the length is above [`body_limit`] of the version.
    #[tactic(auto, unfolding(crate::specs::StreamReads::judged))]
    pub fn body_length(self) -> Result<usize, FrameFault>
        ensures judged { result ≡ judged self }
        ensures fault { IsErrOf result FrameFault.Read → ⊥ }
    {
        if !is_version(self.version) {
            return Err(FrameFault::BadVersion);
        }
        let length = self.length as usize;
        if length > body_limit(self.version) {
            return Err(FrameFault::TooLong);
        }
        Ok(length)
    }
}
