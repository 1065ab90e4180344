//! Why a list of checksums cannot be read.

ghost use Rattle.std.specs.Prelude.{◌≡◌};

use std::alloc::AllocError;

/// Why a list of checksums cannot be read. Lines are numbered from 1.
#[derive(Clone, Copy, Debug)]
pub enum ManifestFault {
    /// Out of memory.
    Memory,
    /// It names no file.
    Empty,
    /// A line is neither empty, nor a comment, nor a digest and a path.
    Line {
        /// Its number.
        line: u64,
    },
    /// The path of a line names no file below the folder.
    Path {
        /// Its number.
        line: u64,
    },
    /// The digest of a line is of another kind than those before it.
    Digest {
        /// Its number.
        line: u64,
    },
}

// A call that runs out of memory ends the reading with `Memory`, by `?` alone.
impl From<AllocError> for ManifestFault {
    ghost use Rattle.droid_fixity.specs.declared.checksum_lists.list_fault.ManifestFault.TheVariants.{Memory};

    ghost from_gives = { λ _ fault. fault ≡ Memory };

    fn from(_error: AllocError) -> ManifestFault {
        ManifestFault::Memory
    }
}
