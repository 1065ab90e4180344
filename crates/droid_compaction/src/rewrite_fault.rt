//! Why a journal could not be made smaller.

ghost use Rattle.std.specs.Prelude.{◌≡◌};

use std::alloc::AllocError;

/// Why a journal could not be made smaller.
#[derive(Clone, Copy)]
pub enum RewriteFault {
    /// Out of memory. (Also where the weight of pieces would need more than 64 bits.)
    Memory,
    /// The old file could not be read. Also where a place in it would need more than 64 bits, which no file reaches.
    Read,
    /// The new file could not be written, or would be longer than 64 bits can say.
    Write,
    /// The old file begins with another header.
    Header,
    /// Bytes stand behind this many whole records of the old file: a torn end, or damage. Opening the journal reports
    /// which.
    Behind(u64),
    /// The new file could not be synced, or did not get the name of the old one for sure. The name leads to one of
    /// them.
    Exchange,
}

impl From<AllocError> for RewriteFault {
    ghost use Rattle.droid_compaction.specs.declared.rewrite_fault.RewriteFault.TheVariants.{Memory};

    ghost from_gives = { λ _ fault. fault ≡ Memory };

    fn from(_error: AllocError) -> RewriteFault {
        RewriteFault::Memory
    }
}
