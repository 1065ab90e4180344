//! Why a list, or a row of it, cannot be read.

ghost use Rattle.std.specs.Prelude.{◌≡◌};
ghost use Rattle.droid_export.specs.Profiles.{fault_at};

use crate::column::Column;
use droid_frame::HashKind;
use std::alloc::AllocError;

/// Why a list cannot be read. A record's number counts from 1, which the names of the columns have.
#[derive(Clone, Copy)]
pub enum ListFault {
    /// Out of memory.
    Memory,
    /// The list does not begin with the names of a profile's columns.
    Header,
    /// The list lacks a column that is needed.
    Missing {
        /// The first such column.
        column: Column,
    },
    /// A record has more fields, or fewer, than the list has columns.
    Fields {
        /// Its number.
        record: u64,
    },
    /// A field is malformed, or its row contradicts itself.
    Column {
        /// The number of the first such record.
        record: u64,
        /// The first such column.
        column: Column,
        /// The kind of the list's hashes, which names their column.
        hash: HashKind,
    },
    /// A record contradicts another one.
    Contradiction {
        /// The number of the first record that contradicts one before it.
        record: u64,
        /// The column.
        column: Column,
    },
}

impl From<AllocError> for ListFault {
    ghost use Rattle.droid_export.specs.declared.reading.fault.ListFault.TheVariants.{Memory};

    ghost from_gives = { λ _ fault. fault ≡ Memory };

    fn from(_error: AllocError) -> ListFault {
        ListFault::Memory
    }
}

/// What is wrong with a row.
#[derive(Clone, Copy)]
pub(crate) enum RowFault {
    /// It does not have a field for each column.
    Fields,
    /// A field is malformed, or contradicts another field.
    Column(Column),
}

/// Returns the fault of a list whose record of this number has such a row. `hash` is the kind of the list's hashes,
/// which a message needs to name their column.
pub(crate) fn fault_at(number: u64, hash: HashKind, fault: RowFault) -> ListFault
    ensures { result ≡ fault_at number hash fault }
{
    match fault {
        RowFault::Fields => ListFault::Fields { record: number },
        RowFault::Column(column) => ListFault::Column {
            record: number,
            column,
            hash,
        },
    }
}
