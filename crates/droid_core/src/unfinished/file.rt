//! One unfinished file.

use droid_assembly::Assembly;

/// An unfinished file: its profile, its number there, and the pieces that were taken of it.
#[derive(Drop)]
pub struct UnfinishedFile {
    /// The number of the profile.
    pub profile: u32,
    /// The number of the file in its profile.
    pub file: u32,
    /// Its pieces.
    pub assembly: Assembly,
}
