//! A service with its journal: opened from a file, used, and settled. Its contracts speak of histories, those of
//! droid_journal of records.
//!
//! The faults are those of droid_journal. In the clauses 4096 is the most bytes of a header that droid_journal takes
//! (`start.rt`), as the clauses of `header.rt` in droid_cmd_serve promise; the prover ties them.

ghost use Rattle.std.specs.Prelude.{◌≡◌, ◌≢◌, ◌≤◌, ◌++◌, ◌⊎◌, ℕ, List, [], None, Some, false, true, IfErr, IfOk};
ghost use Rattle.std.specs.Prelude.{IfSome, IsErr, IsErrOf, IsSome, OnErr, OnOk, length};
ghost use Rattle.droid_core_spec.specs.Histories.{History, kept};
ghost use Rattle.droid_core.specs.Identified.{IsOf};
ghost use Rattle.droid_core_spec.specs.Setting.{Setting};
ghost use Rattle.droid_core.specs.Standing.{StandsFor};
ghost use Rattle.droid_recovery.specs.BareWorlds.{Bare};
ghost use Rattle.droid_core.specs.HoldingsStanding.{limits_given};
ghost use Rattle.droid_frame.specs.Replies.{HasReplySpelling};
ghost use Rattle.droid_journal.specs.Faults.{MayBeOfWriting};
ghost use Rattle.droid_journal.specs.Opening.{HasHeader, IsBegun, IsKept, IsReady, WasDamaged, WasFound, WasRefuted};
ghost use Rattle.droid_journal.specs.Standing.{IsSettled, Keeps};
ghost use Rattle.droid_journal.specs.Chains.{NotByChance};
ghost use Rattle.droid_journal.specs.Records.{Record};
ghost use Rattle.droid_journal.specs.declared.records.key.Form.TheVariants as forms;
ghost use Rattle.droid_recovery.specs.Standing.{GivesReply as GivesRecord, Recovery};
ghost use Rattle.droid_recovery.specs.BareRecords.{LeadTo};
ghost use Rattle.droid_wire.specs.Histories.{Base, GivesReply, HasBare, IsBetween, IsHistoryOf, StandsForRecords};
ghost use Rattle.droid_wire.specs.Histories.{no_base};
ghost use Rattle.droid_wire.specs.Standing.{AnswersIn, IsLeft, IsNextOr, KeepsHistory, ReadsRecords, StandsForHistory};

use crate::reading_machine::ReadingMachine;
use crate::service_machine::ServiceMachine;
use crate::small_reader::SmallReader;
use droid_core::{Limits, Service};
use droid_frame::{Frame, Reply};
use droid_journal::{Fault, Journal, LogFile, Opened, Tears, open};
use droid_pronom::Registry;
use std::alloc::Global;
use std::num::NonZeroUsize;

/// A service and its journal.
///
/// No reply may be sent before [`ServiceJournal::settle`] returned `Ok` after it.
#[derive(Drop)]
pub struct ServiceJournal<F: LogFile> {
    pub(crate) journal: Journal<F, ServiceMachine>,
}

/// A journal's file that could not be opened, and why.
#[derive(Drop)]
pub struct Unopened<F: LogFile> {
    /// Why it could not be opened.
    pub fault: Fault,
    /// The file.
    pub file: F,
}

impl<F: LogFile + Drop> ServiceJournal<F> {
    /// Makes a service from the records of a file, and truncates the file behind them. `fresh` has accepted nothing
    /// yet. An empty file gets its header. Nothing is written or cut off before the whole file was read and found
    /// right.
    ///
    /// A journal that was made small is not opened: [`Fault::Record`]. [`ServiceJournal::open_small`] opens it. After
    /// any fault but [`Fault::Write`] the file is handed back as it was.
    pub fn open(
        alloc: Global,
        file: F,
        header: &[u8],
        fresh: Service,
    ) -> Result<ServiceJournal<F>, Unopened<F>>
        requires found { F.is_found file }
        requires header { length header.now ≤ 4096 }
        // If the file has this header, its bytes on the disk were written by a journal.
        requires kept { (s : List ℕ) → F.has file s → HasHeader header.now s → IsKept header.now (F.kept file) }
        ensures opened { (setting : Setting) (s : List ℕ) → StandsFor setting fresh [] → F.has file s
            → IfOk result (λ it. (its : List Record) × (history : History) × WasFound header.now s its
            × IsHistoryOf setting its history
            × StandsForHistory F.has F.kept setting header.now it.journal history history) }
        // After a crash its history begins with the one on the disk, and is a prefix of the accepted one. So a client
        // that got a reply gets it again.
        ensures reopened { (setting : Setting) (s : List ℕ) (synced all : History) → StandsFor setting fresh []
            → F.has file s → IsLeft setting header.now s synced all
            → IfOk result (λ it.
            (history : History) × StandsForHistory F.has F.kept setting header.now it.journal history history
            × IsBetween synced history all) }
        ensures fault { IfOk result (λ it. it.journal.fault ≡ None) }
        ensures unchanged { IfErr result (λ it. it.fault ≢ Fault.Write → it.file ≡ file) }
        // A fault changes nothing of what is on the disk for sure.
        ensures kept { IfErr result (λ it. F.kept it.file ≡ F.kept file) }
        // A crash is not reported as damage.
        ensures lawful { (n : ℕ) (setting : Setting) (s : List ℕ) (synced all : History) → F.has file s
            → IsLeft setting header.now s synced all → IfErr result (λ it. it.fault ≢ Fault.Damage n) }
        // Damage is reported only where a record stands behind it that was written when all before it was on the disk.
        ensures damage { (n : ℕ) (s : List ℕ) → F.has file s
            → IfErr result (λ it. it.fault ≡ Fault.Damage n → WasDamaged header.now s n) }
        // A record is refused only if no service with this registry and these limits accepts its request after the
        // records before it with the reply of the record.
        ensures refuted { (n : ℕ) (setting : Setting) (s : List ℕ) → StandsFor setting fresh [] → F.has file s
            → IfErr result (λ it.
            it.fault ≡ Fault.Record n → WasRefuted (GivesReply setting (no_base setting)) header.now s n) }
        ensures other_header { (s : List ℕ) → F.has file s
            → IfErr result (λ it.
            it.fault ≡ Fault.Header → (HasHeader header.now s → ⊥) × ((count : ℕ) → IsBegun header.now s count → ⊥)) }
    {
        let mut file = file;
        match open(alloc, &mut file, header, ReadingMachine { service: fresh }) {
            Ok(opened) => Ok(ServiceJournal::begun(alloc, file, opened)),
            Err(fault) => Err(Unopened { fault, file }),
        }
    }

    /// Makes a service from the records of a file that was made small, and truncates the file behind them. The service
    /// has this registry and these limits, which are at most those of `Limits` in droid_core, and caches up to `places`
    /// replies. Returns `None` if no record lacks its bytes, so that the file was not made small. The file is then
    /// dropped, as after a fault: the only caller, `droid_cmd_serve`, comes here after [`ServiceJournal::open`] met a
    /// record that it refused.
    pub fn open_small(
        alloc: Global,
        file: F,
        header: &[u8],
        registry: Registry,
        limits: Limits,
        places: NonZeroUsize,
    ) -> Result<Option<ServiceJournal<F>>, Fault>
        requires found { F.is_found file }
        requires header { length header.now ≤ 4096 }
        requires kept { (s : List ℕ) → F.has file s → HasHeader header.now s → IsKept header.now (F.kept file) }
        requires profiles { limits.profiles ≤ 64 }
        requires nodes { limits.nodes ≤ 100000 }
        requires unfinished { limits.unfinished ≤ 64 }
        // It has each history that the records have, whichever files have no bytes, if each of these files has ended.
        ensures opened { (setting : Setting) (s : List ℕ) → setting.limits ≡ limits_given limits → IsOf registry setting
            → F.has file s
            → IfOk result (λ o. IfSome o (λ it. (its : List Record) × WasFound header.now s its × HasBare its
            × ((bare : Bare) (history : History) → LeadTo setting bare its history
            → StandsForHistory F.has F.kept setting header.now it.journal history history))) }
        ensures whole { (setting : Setting) (s : List ℕ) → setting.limits ≡ limits_given limits → IsOf registry setting
            → F.has file s
            → IfOk result (λ o. o ≡ None → (its : List Record) × WasFound header.now s its × (HasBare its → ⊥)) }
        // This also holds after further requests and a crash: no more is lost than of a journal that was never made
        // small.
        ensures reopened { (setting : Setting) (s : List ℕ) (synced all : History)
            → setting.limits ≡ limits_given limits → IsOf registry setting → F.has file s
            → IsLeft setting header.now s synced all
            → IfOk result (λ o.
            IfSome o (λ it.
            (history : History) × StandsForHistory F.has F.kept setting header.now it.journal history history
            × IsBetween synced history all)) }
        ensures fault { IfOk result (λ o. IfSome o (λ it. it.journal.fault ≡ None)) }
        // A crash does not make it seem whole.
        ensures small { (setting : Setting) (s : List ℕ) (synced all : History) → setting.limits ≡ limits_given limits
            → IsOf registry setting → F.has file s → (left : IsLeft setting header.now s synced all)
            → HasBare left.first → IfOk result (λ o. IsSome o) }
        ensures lawful { (n : ℕ) (setting : Setting) (s : List ℕ) (synced all : History) → F.has file s
            → IsLeft setting header.now s synced all → IsErrOf result (Fault.Damage n) → ⊥ }
        ensures damage { (n : ℕ) → IsErrOf result (Fault.Damage n) → (s : List ℕ) → F.has file s
            → WasDamaged header.now s n }
        // A record is refused only if it continues no history of the records before it, whichever files have no bytes.
        ensures refuted { (n : ℕ) → IsErrOf result (Fault.Record n) → (setting : Setting) (bare : Bare) (s : List ℕ)
            → setting.limits ≡ limits_given limits → IsOf registry setting → F.has file s
            → WasRefuted (GivesRecord (record { setting = setting; bare = bare })) header.now s n }
        ensures other_header { IsErrOf result Fault.Header → (s : List ℕ) → F.has file s
            → (HasHeader header.now s → ⊥) × ((count : ℕ) → IsBegun header.now s count → ⊥) }
    {
        let reader = SmallReader::new(alloc, registry, limits)?;
        let mut file = file;
        match open(alloc, &mut file, header, reader) {
            Ok(opened) => ServiceJournal::revived(alloc, file, opened, places),
            Err(fault) => Err(fault),
        }
    }

    /// Starts from a journal that was read, if it was made small: the service takes the place of the reader of records.
    /// Returns `None` if it was not. Fails only if memory runs out for the service.
    fn revived(
        alloc: Global,
        file: F,
        opened: Opened<SmallReader>,
        places: NonZeroUsize,
    ) -> Result<Option<ServiceJournal<F>>, Fault>
        ensures small { (recovery : Recovery) (header : List ℕ) (its : List Record)
            → IsReady F.has F.kept (ReadsRecords recovery) header file opened its
            → IfOk result (λ o. IsSome o → HasBare its) }
        ensures whole { (recovery : Recovery) (header : List ℕ) (its : List Record)
            → IsReady F.has F.kept (ReadsRecords recovery) header file opened its
            → IfOk result (λ o. o ≡ None → HasBare its → ⊥) }
        ensures stands { (setting : Setting) (bare : Bare) (header : List ℕ) (its : List Record) (history : History)
            → IsReady F.has F.kept (ReadsRecords (record { setting = setting; bare = bare })) header file opened its
            → LeadTo setting bare its history
            → IfOk result (λ o.
            IfSome o (λ it. StandsForHistory F.has F.kept setting header it.journal history history)) }
        ensures fault { IfErr result (λ fault. fault ≡ Fault.Memory) }
        ensures none { IfOk result (λ o. IfSome o (λ it. it.journal.fault ≡ None)) }
    {
        let (reader, opened) = opened.with(());
        let SmallReader { machine, is_small } = reader;
        if !is_small {
            return Ok(None);
        }
        let Ok(service) = machine.into_service(places) else {
            return Err(Fault::Memory);
        };
        let (_nothing, opened) = opened.with(ServiceMachine { service });
        let journal = Journal::new(alloc, file, opened);
        Ok(Some(ServiceJournal { journal }))
    }

    /// Starts from a journal of whole records that was read: the service that read it serves from then on, as a
    /// `ServiceMachine`.
    fn begun(alloc: Global, file: F, opened: Opened<ReadingMachine>) -> ServiceJournal<F>
        ensures settled { (setting : Setting) (base : Base setting) (header : List ℕ) (records : List Record)
            → IsReady F.has F.kept (λ machine its. StandsForRecords setting base machine.service its) header file opened
            records
            → IsSettled F.has F.kept (λ machine its. StandsForRecords setting base machine.service its) header
            result.journal records }
        ensures fault { result.journal.fault ≡ None }
    {
        let (reader, opened) = opened.with(());
        let ReadingMachine { service } = reader;
        let (_nothing, opened) = opened.with(ServiceMachine { service });
        let journal = Journal::new(alloc, file, opened);
        ServiceJournal { journal }
    }

    /// Returns the journal's file, as it is.
    pub fn file(&self) -> &F
        ensures { result.now ≡ self.now.journal.file }
    {
        &self.journal.file
    }

    /// Handles a request and returns its reply. The record of a new command that is accepted is written to the file;
    /// [`ServiceJournal::settle`] syncs it. After a fault of the journal nothing is handled any more: the reply is
    /// Store, and may not be sent. That it is Store no clause holds.
    pub fn handle(&mut self, frame: Frame) -> Reply
        ensures handled { (setting : Setting) (header : List ℕ) (synced all : History)
            → StandsForHistory F.has F.kept setting header self.old.journal synced all
            → self.new.journal.fault ≡ None
            → AnswersIn setting all frame result
            (StandsForHistory F.has F.kept setting header self.new.journal synced) }
        // A request whose client and number have an entry writes nothing, however old the entry is.
        ensures repeats { (setting : Setting) (header : List ℕ) (synced all : History)
            → StandsForHistory F.has F.kept setting header self.old.journal synced all
            → IsSome (kept all frame.client frame.number) → self.new.journal.file ≡ self.old.journal.file }
        // Also after a fault, what was on the disk stays, and nothing was written but what was accepted so far and this
        // request.
        ensures keeps { (setting : Setting) (header : List ℕ) (synced all : History)
            → StandsForHistory F.has F.kept setting header self.old.journal synced all
            → (written : List Record) × (after : History) × IsNextOr setting all frame after
            × KeepsHistory F.kept setting header self.new.journal.file written synced after }
        ensures spelled { HasReplySpelling frame.version result }
        ensures writing { MayBeOfWriting self.old.journal.fault → MayBeOfWriting self.new.journal.fault }
        ensures closed { IsSome self.old.journal.fault
            → (self.new.journal.file ≡ self.old.journal.file) × (self.new.journal.fault ≡ self.old.journal.fault) }
    {
        self.journal.handle(frame)
    }

    /// Brings the history to the disk. After `Ok` the replies to all requests so far may be sent. After a fault no
    /// reply may be sent any more, and every further call returns a fault.
    ///
    /// A call with nothing to sync writes the mark of the last turn instead, unless it is there or the journal is of
    /// version 3, which has none: from then on damage in that turn is not taken for a torn end.
    pub fn settle(&mut self) -> Result<(), Fault>
        ensures settled { (setting : Setting) (header : List ℕ) (synced all : History)
            → StandsForHistory F.has F.kept setting header self.old.journal synced all
            → OnOk result (StandsForHistory F.has F.kept setting header self.new.journal all all) }
        ensures marks { self.old.journal.unsynced ≡ false → self.old.journal.key.form ≡ forms.Present
            → OnOk result (self.new.journal.ahead ≡ true) }
        ensures kept { OnErr result (F.kept self.new.journal.file ≡ F.kept self.old.journal.file) }
        ensures closes { OnErr result (IsSome self.new.journal.fault) }
        ensures reported { IfErr result (λ fault. self.new.journal.fault ≡ Some fault) }
        ensures writing { MayBeOfWriting self.old.journal.fault → MayBeOfWriting self.new.journal.fault }
        ensures closed { IsSome self.old.journal.fault → IsErr result }
    {
        self.journal.settle()
    }
}

/// Crashes a service with a journal in any state, with any bytes behind those on the disk, and makes a new service from
/// the file. Unless these bytes are records by chance, its history begins with the one on the disk, and is a prefix of
/// the accepted one. So a client that got a reply gets it again.
///
/// Fails with `Read` if the file can't be opened after the crash, or with a fault of [`ServiceJournal::open`]. Nothing
/// calls it: its contract is the promise about a crash, which docs/PROMISES.md names.
pub fn crash_and_reopen<F: Tears + Drop>(
    alloc: Global,
    before: ServiceJournal<F>,
    header: &[u8],
    tail: &[u8],
    fresh: Service,
) -> Result<ServiceJournal<F>, Fault>
    requires header { length header.now ≤ 4096 }
    requires keeps { (synced : List Record) × (written : List Record)
        × Keeps F.kept header.now before.journal.file synced written }
    ensures { (setting : Setting) (written : List Record) (synced all : History) → StandsFor setting fresh []
        → KeepsHistory F.kept setting header.now before.journal.file written synced all
        → NotByChance header.now written (F.kept before.journal.file ++ tail.now)
        → IfOk result (λ after.
        (history : History) × StandsForHistory F.has F.kept setting header.now after.journal history history
        × IsBetween synced history all) }
{
    let ServiceJournal { journal } = before;
    let Ok(file) = journal.file.crash(tail) else {
        return Err(Fault::Read);
    };
    let mut file = file;
    match open(alloc, &mut file, header, ReadingMachine { service: fresh }) {
        Ok(opened) => Ok(ServiceJournal::begun(alloc, file, opened)),
        Err(fault) => Err(fault),
    }
}
