//! Why `identify` ended early: the faults that end the command, and where they come from.

use crate::identify_ending::IdentifyEnding;
use droid_tree::WalkFault;
use std::alloc::AllocError;

/// Why `identify` ended early.
#[derive(Clone, Copy)]
pub enum RunFault {
    /// Out of memory.
    Memory,
    /// The output could not be written.
    Write,
}

impl RunFault {
    /// Returns the command's ending for this fault. `names.py` of `tests/program/identify` holds its exit status where
    /// the output can't be written; no clause holds it.
    pub(crate) fn ending(self) -> IdentifyEnding {
        match self {
            RunFault::Memory => IdentifyEnding::Memory,
            RunFault::Write => IdentifyEnding::Write,
        }
    }
}

impl From<AllocError> for RunFault {
    /// Returns `Memory`. No clause holds that.
    fn from(_error: AllocError) -> RunFault {
        RunFault::Memory
    }
}

impl From<WalkFault> for RunFault {
    /// Returns `Memory`: reading folders and files ends early only where memory runs out. No clause holds that.
    fn from(_fault: WalkFault) -> RunFault {
        RunFault::Memory
    }
}
