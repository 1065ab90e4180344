//! The errors of the store: which one an error of the database is, and which refusal a client gets for it.

ghost use Rattle.std.specs.Prelude.{◌≡◌};

use droid_frame::Refusal;
use sqlite::{Error as SqlError, ErrorCode};
use std::alloc::AllocError;
use thiserror::Error;

/// Why a call of the store failed. It changed nothing.
#[derive(Clone, Copy, Debug, Error)]
pub enum StoreFault {
    /// Memory ran out, or no number was left for a new row. There are more numbers than any memory has room for rows.
    #[error("out of memory")]
    Memory,
    /// The database refused for another reason.
    #[error("the database refused")]
    Refused,
}

impl From<SqlError> for StoreFault {
    ghost use Rattle.droid_store.specs.Faults.{fault_of};

    ghost from_gives = { λ error fault. fault ≡ fault_of error };

    fn from(error: SqlError) -> StoreFault {
        match error {
            SqlError::SqliteFailure(ErrorCode::OutOfMemory) => StoreFault::Memory,
            SqlError::SqliteFailure(ErrorCode::NoRowid) => StoreFault::Memory,
            _ => StoreFault::Refused,
        }
    }
}

impl From<AllocError> for StoreFault {
    ghost use Rattle.droid_store.specs.declared.fault.StoreFault.TheVariants.{Memory};

    ghost from_gives = { λ _ fault. fault ≡ Memory };

    fn from(_: AllocError) -> StoreFault {
        StoreFault::Memory
    }
}

impl From<StoreFault> for Refusal {
    ghost use Rattle.droid_store.specs.Faults.{reported_as};

    ghost from_gives = { λ fault refusal. refusal ≡ reported_as fault };

    /// Converts to the refusal that the client gets: Memory, or Store for `Refused`.
    fn from(fault: StoreFault) -> Refusal {
        match fault {
            StoreFault::Memory => Refusal::Memory,
            StoreFault::Refused => Refusal::Store,
        }
    }
}
