//! Why the profile of a tree was not written, or only in part.

ghost use Rattle.std.specs.Prelude.{◌≡◌};

use std::alloc::AllocError;

/// Why the profile of a tree was not written, or only in part.
///
/// After a fault of the first two kinds, all rows and lines of the records that were taken are written.
#[derive(Clone, Copy, PartialEq, Eq)]
pub enum CsvFault {
    /// Out of memory.
    Memory,
    /// There are more than 4,294,967,295 folders and files.
    Numbers,
    /// The CSV could not be written: its writer stopped.
    Csv,
    /// The list of checksums could not be written: its writer stopped.
    Manifest,
}

// A call that runs out of memory ends the profile with `Memory`, by `?` alone.
impl From<AllocError> for CsvFault {
    ghost use Rattle.droid_profile.specs.declared.csv_fault.CsvFault.TheVariants.{Memory};

    ghost from_gives = { λ _ fault. fault ≡ Memory };

    fn from(_error: AllocError) -> CsvFault {
        CsvFault::Memory
    }
}
