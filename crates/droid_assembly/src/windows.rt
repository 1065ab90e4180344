//! The first and the last bytes of a file.

/// The first and the last bytes of a file, in which signatures are searched. In a short file they overlap.
#[derive(Clone, Copy)]
pub struct Windows<'a> {
    /// The first bytes of the file, up to the scan limit.
    pub first: &'a [u8],
    /// The last bytes of the file, up to the scan limit.
    pub last: &'a [u8],
}
