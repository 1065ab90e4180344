//! Why a journal ends.

ghost use Rattle.std.specs.Prelude.{◌≡◌};

use std::alloc::AllocError;

/// Why a journal could not be opened, or handles no further request.
#[derive(Clone, Copy)]
pub enum Fault {
    /// Out of memory.
    Memory,
    /// The file could not be read. It is as it was.
    Read,
    /// The file could not be written, cut or synced.
    Write,
    /// The file begins with another header: another registry or other limits made it, or it is no journal.
    Header,
    /// The request of this record, counted from 1, did not get the reply of the record, or is no request's frame.
    Record(u64),
    /// Behind this many records the file was damaged.
    Damage(u64),
}

impl From<AllocError> for Fault {
    ghost use Rattle.droid_journal.specs.declared.journal_fault.Fault.TheVariants.{Memory};

    ghost from_gives = { λ _ fault. fault ≡ Memory };

    fn from(_error: AllocError) -> Fault {
        Fault::Memory
    }
}
