//! The stamp of a request.

/// The client and the number of a request, the version in which it was sent, and its mark.
#[derive(Clone, Copy)]
pub struct Stamp {
    /// The client that sent the request.
    pub client: u32,
    /// The client's number for it, below 2^63.
    pub number: u64,
    /// The version of its frame, in which it is answered.
    pub version: u8,
    /// The mark of its kind and body.
    pub mark: [u8; 16],
}
