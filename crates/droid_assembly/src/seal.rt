//! The result of sealing a complete assembly.

use droid_frame::HashValue;

/// The size and the hash of a whole file.
#[derive(Clone, Copy)]
pub struct Sealed {
    /// The size of the file in bytes.
    pub size: u64,
    /// The hash of the whole file.
    pub hash: HashValue,
}
