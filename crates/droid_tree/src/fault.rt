//! Errors of reading a tree, and errors that end a walk.

ghost use Rattle.std.specs.Prelude.{◌≡◌};

use std::alloc::AllocError;

/// Why a folder's entries or a file's bytes could not be read.
#[derive(Clone, Copy)]
pub enum TreeFault {
    /// Out of memory.
    Memory,
    /// The folder or file could not be opened or read.
    Unreadable,
    /// It is not the file that the folder listed, or it was changed since.
    Changed,
}

/// Why a walk ended early.
#[derive(Clone, Copy, Debug)]
pub enum WalkFault {
    /// Out of memory, here or in the service.
    Memory,
    /// The service sent a reply that does not fit the request.
    Reply,
    /// There are more folders than a profile can have.
    Folders,
    /// There are more folders and files than a profile can have.
    Entries,
    /// The files' lengths together do not fit 64 bits.
    Bytes,
}

// A call that runs out of memory ends the walk with `Memory`, by `?` alone.
impl From<AllocError> for WalkFault {
    ghost use Rattle.droid_tree.specs.declared.fault.WalkFault.TheVariants.{Memory};

    ghost from_gives = { λ _ fault. fault ≡ Memory };

    fn from(_error: AllocError) -> WalkFault {
        WalkFault::Memory
    }
}
