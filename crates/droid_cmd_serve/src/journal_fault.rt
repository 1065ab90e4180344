//! Why a journal ends the program, by the faults of its file, of its opening and of making it smaller.

ghost use Rattle.std.specs.Prelude.{◌≡◌};
ghost use Rattle.droid_cmd_serve.specs.JournalFaults.{ComesOfShortening, of_disk, of_rewriting};

use droid_compaction::RewriteFault;
use droid_journal::{DiskFault, Fault};
use std::io::ErrorKind;

/// Why a journal ends the program.
#[derive(Clone, Copy)]
pub enum JournalFault {
    /// Another process has the file open.
    InUse,
    /// The path is that of a folder, a link or a device.
    NotAFile,
    /// The file could not be opened, made, locked or synced.
    Unopened(ErrorKind),
    /// The journal could not be opened, or handles no further request.
    Closed(Fault),
    /// The smaller journal beside the file could not be made or written. The file is as it was.
    NotSmaller(Option<ErrorKind>),
    /// It is uncertain whether the smaller journal got the name of the file. The name leads to one of them.
    NotExchanged,
}

impl JournalFault {
    /// Returns the fault for a journal's file that could not be opened.
    pub(crate) fn of_disk(fault: DiskFault) -> JournalFault
        ensures { result ≡ of_disk fault }
    {
        match fault {
            DiskFault::InUse => JournalFault::InUse,
            DiskFault::NotAFile => JournalFault::NotAFile,
            DiskFault::Unopened(kind) => JournalFault::Unopened(kind),
        }
    }

    /// Returns the fault for a journal that could not be made smaller. A fault of writing is one of the new file alone,
    /// and bytes behind the records are reported as damage.
    pub(crate) fn of_rewriting(fault: RewriteFault) -> JournalFault
        ensures is { result ≡ of_rewriting fault }
        ensures comes { ComesOfShortening result }
    {
        match fault {
            RewriteFault::Memory => JournalFault::Closed(Fault::Memory),
            RewriteFault::Read => JournalFault::Closed(Fault::Read),
            RewriteFault::Write => JournalFault::NotSmaller(None),
            RewriteFault::Header => JournalFault::Closed(Fault::Header),
            RewriteFault::Behind(records) => JournalFault::Closed(Fault::Damage(records)),
            RewriteFault::Exchange => JournalFault::NotExchanged,
        }
    }
}
