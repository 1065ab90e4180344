//! The errors of reading a registry file: of the whole file, of one record, and how the one becomes the other.

ghost use Rattle.std.specs.Prelude.{◌≡◌};
ghost use Rattle.droid_pronom.specs.declared.registry.fault.Refusal.TheVariants.{Memory};
ghost use Rattle.droid_pronom.specs.RegistryCalls.{Gives, fault_of, refusal_at};
ghost use Rattle.droid_pronom.specs.RegistryRecords.{check};

use std::alloc::AllocError;
use thiserror::Error;

/// Why a registry file could not be read. `at` is the number of the first faulty record, counted from 1.
#[derive(Debug, Drop, Error)]
pub enum RegistryFault {
    /// The file has more than 16,777,216 bytes.
    #[error("TooLong")]
    TooLong,
    /// The reader failed, or was interrupted more than 64 times.
    #[error("Read")]
    Read,
    /// Out of memory.
    #[error("Memory")]
    Memory,
    /// A field is not UTF-8.
    #[error("NotUtf8 at {at}")]
    NotUtf8 { at: u64 },
    /// The record does not have six fields, or a field is not valid, or the record may not stand there.
    #[error("BadRecord at {at}")]
    BadRecord { at: u64 },
    /// The pattern of a byte sequence does not follow the grammar.
    #[error("BadPattern at {at}")]
    BadPattern { at: u64 },
    /// No earlier record defines a format with the PUID that this record names.
    #[error("UnknownPuid at {at}")]
    UnknownPuid { at: u64 },
    /// An earlier record already defines a format with this PUID.
    #[error("DuplicatePuid at {at}")]
    DuplicatePuid { at: u64 },
    /// The registry already has as many records of this kind as it may have.
    #[error("TooMany at {at}")]
    TooMany { at: u64 },
}

/// What is wrong with one record. [`RegistryFault`] describes each fault.
#[derive(Clone, Copy)]
pub(crate) enum Fault {
    NotUtf8,
    BadRecord,
    BadPattern,
    UnknownPuid,
    DuplicatePuid,
    TooMany,
}

/// Why one record could not be added.
#[derive(Drop)]
pub(crate) enum Refusal {
    /// Out of memory.
    Memory,
    /// The record is faulty.
    Fault(Fault),
}

impl From<AllocError> for Refusal {
    ghost from_gives = { λ _ refusal. refusal ≡ Memory };

    fn from(_error: AllocError) -> Refusal {
        Refusal::Memory
    }
}

impl Refusal {
    /// Returns the error for the whole file, if the record with the number `at`, counted from 1, could not be added.
    pub(crate) fn at(self, at: u64) -> RegistryFault
        ensures { result ≡ refusal_at self at }
    {
        match self {
            Refusal::Memory => RegistryFault::Memory,
            Refusal::Fault(Fault::NotUtf8) => RegistryFault::NotUtf8 { at },
            Refusal::Fault(Fault::BadRecord) => RegistryFault::BadRecord { at },
            Refusal::Fault(Fault::BadPattern) => RegistryFault::BadPattern { at },
            Refusal::Fault(Fault::UnknownPuid) => RegistryFault::UnknownPuid { at },
            Refusal::Fault(Fault::DuplicatePuid) => RegistryFault::DuplicatePuid { at },
            Refusal::Fault(Fault::TooMany) => RegistryFault::TooMany { at },
        }
    }
}

/// Returns the fault as an error, unless the condition holds. It is the code's form of `check` in
/// `specs/RegistryRecords.antt`, with which the rules of a record are written.
pub(crate) fn check(holds: bool, fault: Fault) -> Result<(), Refusal>
    ensures { Gives (λ _. tt) result (check holds (fault_of fault)) }
{
    if holds {
        Ok(())
    } else {
        Err(Refusal::Fault(fault))
    }
}
