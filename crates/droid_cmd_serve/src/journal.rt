//! Opens the journal of the program's service: one as it was written, or one that was made small.

ghost use Rattle.std.specs.Prelude.{◌≡◌, ◌⊎◌, ◌≤◌, ℕ, List, [], None, IfOk, IsErrOf, length};
ghost use Rattle.droid_cmd_serve.specs.Journals.{IsDamaged, IsHeaderOf, IsOpened, IsRefuted, IsSettingFor};
ghost use Rattle.droid_cmd_serve.specs.Journals.{RefutesSmall, StandsForSmall};
ghost use Rattle.droid_wire.specs.Histories.{HasBare, IsBetween};
ghost use Rattle.droid_wire.specs.Standing.{IsLeft, StandsForHistory};
ghost use Rattle.droid_journal.specs.Records.{Record};
ghost use Rattle.droid_journal.specs.Opening.{HasHeader, IsBegun, IsKept, WasDamaged, WasFound};
ghost use Rattle.droid_core_spec.specs.Histories.{History};
ghost use Rattle.droid_core_spec.specs.Setting.{Setting};
ghost use Rattle.droid_core.specs.Standing.{StandsFor};

use crate::fresh::LIMITS;
use crate::header::header_in;
use droid_core::Service;
use droid_journal::{Fault, LogFile};
use droid_pronom::Registry;
use droid_wire::{ServiceJournal, Unopened};
use std::alloc::Global;
use std::num::NonZeroUsize;

/// How many replies a service caches, if it is made from a journal that was made small: as many as any other (`CACHED`
/// of `droid_core`). No clause needs the number, and no test holds it here: `test_a_repeat_that_is_no_longer_cached` of
/// `journal_files.py` is about a journal as it was written.
const CACHED: usize = 256;

/// Makes a service from the records of a journal, whose header has the MD5 of these bytes of a registry. `service` has
/// that registry, and has accepted nothing yet. An empty file gets a header with the bytes of `random`. Opens a journal
/// that was made small, and one of version 3, too.
///
/// Nothing is written or cut off before the whole file was read and found right. A record that no service answers so is
/// taken for one of a journal that was made small: only then the file is read as such a one.
pub fn open_journal<F: LogFile + Drop>(
    alloc: Global,
    file: F,
    registry: &[u8],
    random: &[u8; 16],
    service: Service,
) -> Result<ServiceJournal<F>, Fault>
    requires found { F.is_found file }
    // If the file has such a header, its bytes on the disk were written by a journal.
    requires kept { (s header : List ℕ) → F.has file s → IsHeaderOf registry.now header → HasHeader header s
        → IsKept header (F.kept file) }
    ensures fault { IfOk result (λ it. it.journal.fault ≡ None) }
    // The service has the history of the records in the file, or each history that they have, if some of them lack
    // their bytes.
    ensures opened { (setting : Setting) (s : List ℕ) → StandsFor setting service [] → IsSettingFor registry.now setting
        → F.has file s → IfOk result (λ it. IsOpened F.has F.kept registry.now setting s it.journal) }
    // After a crash its history begins with the one on the disk, and is a prefix of the accepted one. So a client that
    // got a reply gets it again.
    ensures reopened { (setting : Setting) (s header : List ℕ) (synced all : History) → StandsFor setting service []
        → IsSettingFor registry.now setting → F.has file s → IsHeaderOf registry.now header
        → IsLeft setting header s synced all
        → IfOk result (λ it.
        (history : History) × StandsForHistory F.has F.kept setting header it.journal history history
        × IsBetween synced history all) }
    // A crash is reported neither as damage nor as another registry.
    ensures lawful { (n : ℕ) (setting : Setting) (s header : List ℕ) (synced all : History) → F.has file s
        → IsHeaderOf registry.now header → IsLeft setting header s synced all → IsErrOf result (Fault.Damage n) → ⊥ }
    ensures other_header { IsErrOf result Fault.Header → (s header : List ℕ) → F.has file s
        → IsHeaderOf registry.now header → HasHeader header s → ⊥ }
    // Damage is reported only where the beginning of a later turn stands behind it, which was written when all before
    // it was on the disk.
    ensures damage { (n : ℕ) → IsErrOf result (Fault.Damage n) → (s : List ℕ) → F.has file s
        → IsDamaged registry.now s n }
    // A record is reported only if no service of this registry and these limits accepts its request after those before
    // it, and answers it with this reply.
    ensures refuted { (n : ℕ) → IsErrOf result (Fault.Record n) → (setting : Setting) (s : List ℕ)
        → StandsFor setting service [] → IsSettingFor registry.now setting → F.has file s
        → IsRefuted setting registry.now s n }
{
    let header = match header_in(alloc, &file, registry, random) {
        Ok(header) => header,
        Err(fault) => return Err(fault),
    };
    let unopened = match ServiceJournal::open(alloc, file, &header, service) {
        Ok(journal) => return Ok(journal),
        Err(unopened) => unopened,
    };
    let Unopened { fault, file } = unopened;
    match fault {
        Fault::Record(number) => open_small(alloc, file, &header, registry, number),
        _ => Err(fault),
    }
}

/// Makes a service from the records of a journal that was made small, whose finished files have no bytes. `header` is
/// the one that its file has, of the registry with these bytes. If it was not made small, the record with this number,
/// which [`open_journal`] met, is at fault. 4096 is the most bytes of a header (`header.rt`).
fn open_small<F: LogFile + Drop>(
    alloc: Global,
    file: F,
    header: &[u8],
    registry: &[u8],
    number: u64,
) -> Result<ServiceJournal<F>, Fault>
    requires found { F.is_found file }
    requires header { length header.now ≤ 4096 }
    requires kept { (s : List ℕ) → F.has file s → HasHeader header.now s → IsKept header.now (F.kept file) }
    ensures fault { IfOk result (λ it. it.journal.fault ≡ None) }
    ensures opened { (setting : Setting) (s : List ℕ) → IsSettingFor registry.now setting → F.has file s
        → IfOk result (λ it. (its : List Record) × WasFound header.now s its × HasBare its
        × StandsForSmall F.has F.kept setting header.now its it.journal) }
    ensures reopened { (setting : Setting) (s : List ℕ) (synced all : History) → IsSettingFor registry.now setting
        → F.has file s → IsLeft setting header.now s synced all
        → IfOk result (λ it.
        (history : History) × StandsForHistory F.has F.kept setting header.now it.journal history history
        × IsBetween synced history all) }
    ensures lawful { (n : ℕ) (setting : Setting) (s : List ℕ) (synced all : History) → F.has file s
        → IsLeft setting header.now s synced all → IsErrOf result (Fault.Damage n) → ⊥ }
    ensures damage { (n : ℕ) → IsErrOf result (Fault.Damage n) → (s : List ℕ) → F.has file s
        → WasDamaged header.now s n }
    ensures refuted { (n : ℕ) → IsErrOf result (Fault.Record n) → (setting : Setting) (s : List ℕ)
        → IsSettingFor registry.now setting → F.has file s
        → (n ≡ number) ⊎ RefutesSmall setting header.now s n }
    ensures other_header { IsErrOf result Fault.Header → (s : List ℕ) → F.has file s
        → (HasHeader header.now s → ⊥) × ((count : ℕ) → IsBegun header.now s count → ⊥) }
{
    // The registry was read before, so this fails only if there is no memory.
    let Ok(registry) = Registry::parse(alloc, registry) else {
        return Err(Fault::Memory);
    };
    let places = NonZeroUsize::new(CACHED).unwrap();
    match ServiceJournal::open_small(alloc, file, header, registry, LIMITS, places) {
        Ok(Some(journal)) => Ok(journal),
        Ok(None) => Err(Fault::Record(number)),
        Err(fault) => Err(fault),
    }
}
