//! What a whole file is.

use droid_assembly::Sealed;
use droid_pronom::Found;

/// What a whole file is: its size and hash, and what it is identified as.
#[derive(Drop)]
pub struct Finding {
    /// The size and the hash of the whole file.
    pub sealed: Sealed,
    /// What the registry finds in it.
    pub found: Found,
}
