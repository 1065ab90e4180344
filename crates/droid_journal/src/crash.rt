//! The whole promise: any use of a journal, then a crash, then opening its file.

ghost use Rattle.std.specs.Prelude.{◌≡◌, ◌≤◌, ◌++◌, List, ℕ, [], IfOk, IsErrOf, length};
ghost use Rattle.droid_journal.specs.Standing.{IsSettled, Keeps};
ghost use Rattle.droid_journal.specs.Chains.{NoneLaterByChance, NotByChance, journal_bytes};
ghost use Rattle.droid_journal.specs.Fronts.{IsFront};
ghost use Rattle.droid_journal.specs.Records.{Record};

use crate::journal::Journal;
use crate::journal_fault::Fault;
use crate::log_file::{FileError, LogFile};
use crate::machine::Machine;
use crate::start::open;
use std::alloc::Global;

/// A file whose machine may crash.
pub trait Tears: LogFile {
    /// Leaves the bytes that are on the disk for sure, and any bytes behind them.
    fn crash(self, tail: &[u8]) -> Result<Self, FileError>
    where
        Self: Sized,
        ensures has { IfOk result (λ file. Self.has file (Self.kept self ++ tail.now)) }
        ensures kept { IfOk result (λ file. Self.kept file ≡ Self.kept self) }
        ensures found { IfOk result (λ file. Self.is_found file) };
}

/// Crashes a journal in whatever state, with any bytes behind what is kept, and opens the file with a new machine,
/// which may be of another type. Unless these bytes are records by chance, the new machine stands for the first of the
/// requests that were accepted, in order, and for each of which a reply could be sent.
///
/// The state is one that [`Journal::handle`] and [`Journal::settle`] leave, after a fault too: some records are on the
/// disk for sure, and more were written. A `crash` that fails counts as [`Fault::Read`].
pub fn crash_and_reopen<F: Tears + Drop, M: Machine + Drop, N: Machine + Drop>(
    alloc: Global,
    journal: Journal<F, N>,
    header: &[u8],
    tail: &[u8],
    fresh: M,
) -> Result<Journal<F, M>, Fault>
    requires header { length header.now ≤ 4096 }
    requires keeps { (synced : List Record) × (written : List Record)
        × Keeps F.kept header.now journal.file synced written }
    ensures reopened { (setting : M.Setting) (synced written : List Record) → M.stands setting fresh []
        → Keeps F.kept header.now journal.file synced written
        → NotByChance header.now written (F.kept journal.file ++ tail.now)
        → IfOk result (λ after.
        (its : List Record) × IsSettled F.has F.kept (M.stands setting) header.now after its × IsFront synced its
        × IsFront its written) }
    // The crash is not reported as damage, unless these bytes have the beginning of a later turn by chance.
    ensures lawful { (synced written : List Record) (n : ℕ) → Keeps F.kept header.now journal.file synced written
        → NoneLaterByChance header.now written (F.kept journal.file ++ tail.now)
        (length (journal_bytes header.now synced))
        → IsErrOf result (Fault.Damage n) → ⊥ }
{
    let Ok(file) = journal.file.crash(tail) else {
        return Err(Fault::Read);
    };
    let mut file = file;
    let opened = match open(alloc, &mut file, header, fresh) {
        Ok(opened) => opened,
        Err(fault) => return Err(fault),
    };
    Ok(Journal::new(alloc, file, opened))
}
