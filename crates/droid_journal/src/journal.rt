//! The journal: it hands its machine each request, appends the accepted ones to its file, and syncs that.

ghost use Rattle.std.specs.Prelude.{◌≡◌, ◌+◌, ◌≤◌, ◌++◌, if◌then◌else◌, ℕ, Bool, List, [], None, Some, false, true};
ghost use Rattle.std.specs.Prelude.{drop, length, not, IfErr, IfOk, OnOk, OnErr, IsErr, IsSome, vec_capacity, vec_len};
ghost use Rattle.droid_frame.specs.Frames.{frame_bytes};
ghost use Rattle.droid_frame.specs.Replies.{HasReplySpelling};
ghost use Rattle.droid_frame.specs.ReplyFrames.{reply_frame};
ghost use Rattle.droid_frame.specs.Versions.{IsVersion};
ghost use Rattle.droid_journal.specs.Faults.{IsOfWriting, MayBeOfWriting};
ghost use Rattle.droid_journal.specs.Machines.{Answers, extended};
ghost use Rattle.droid_journal.specs.Opening.{IsReady};
ghost use Rattle.droid_journal.specs.Standing.{IsSettled, Stands, WroteOne};
ghost use Rattle.droid_journal.specs.Fronts.{IsFront};
ghost use Rattle.droid_journal.specs.Records.{Fits, Record, checksum, made, next_check, place_after, record_bytes};
ghost use Rattle.droid_journal.specs.Records.{turn_mark};

use crate::frames::{is_carried, request_bytes};
use crate::journal_fault::Fault;
use crate::log_file::{FileError, LogFile};
use crate::machine::Machine;
use crate::records::checks::{MARK, turn_mark};
use crate::records::key::{Form, Key};
use crate::records::place::Place;
use crate::records::record_writer::put_record;
use crate::room::{Room, make_rooms, spell_reply};
use crate::start::Opened;
use droid_frame::{Frame, Refusal, Reply, mark};
use std::alloc::Global;

/// A machine, and the file with the requests that it accepted.
///
/// [`Journal::handle`] handles a request. No reply may be sent before [`Journal::settle`] returned `Ok` after it.
#[derive(Drop)]
pub struct Journal<F: LogFile, M: Machine> {
    pub(crate) alloc: Global,
    /// The file.
    pub file: F,
    /// The machine.
    pub machine: M,
    /// What all check values depend on.
    pub(crate) key: Key,
    /// The end of the records.
    pub(crate) place: Place,
    /// Whether the beginning of the next turn was written behind them.
    pub(crate) ahead: bool,
    /// Whether records were appended since the last sync.
    pub(crate) unsynced: bool,
    /// Room for the next record.
    pub(crate) room: Vec<u8>,
    /// Room for the frame of its reply.
    pub(crate) reply: Room,
    /// The fault that ended the journal, if one did.
    pub(crate) fault: Option<Fault>,
}

impl<F: LogFile + Drop, M: Machine + Drop> Journal<F, M> {
    /// Makes a journal of a file that was opened.
    pub fn new(alloc: Global, file: F, opened: Opened<M>) -> Journal<F, M>
        ensures settled { (setting : M.Setting) (header : List ℕ) (records : List Record)
            → IsReady F.has F.kept (M.stands setting) header file opened records
            → IsSettled F.has F.kept (M.stands setting) header result records }
        ensures fault { result.fault ≡ None }
    {
        let Opened {
            machine,
            key,
            place,
            ahead,
        } = opened;
        Journal {
            alloc,
            file,
            machine,
            key,
            place,
            ahead,
            unsynced: false,
            room: Vec::new(alloc),
            reply: Room::new(alloc),
            fault: None,
        }
    }

    /// Spells the record of an accepted request into the room for it, and returns its check value. `request` is its
    /// frame as bytes, `sum` the checksum of that; the version, client and number are the request's. Writes nothing.
    fn spell(
        &mut self,
        version: u8,
        client: u32,
        number: u64,
        request: &[u8],
        sum: &[u8; 16],
        reply: &Reply,
    ) -> [u8; 16]
        requires version { IsVersion version }
        requires spelling { HasReplySpelling version reply.now }
        requires header { 18 ≤ length request.now }
        requires size { length request.now ≤ 4194386 }
        requires sum { sum.now ≡ checksum request.now }
        requires empty { self.old.room.items ≡ [] }
        requires len { vec_len self.old.room ≡ 0 }
        requires capacity { length request.now + 1048699 ≤ vec_capacity self.old.room }
        requires spelled { self.old.reply.items ≡ [] }
        requires left { 1048658 ≤ self.old.reply.left }
        ensures bytes { self.new.room.items
            ≡ record_bytes self.old.key self.old.place
            (made (not self.old.unsynced) request.now (reply_frame version client number reply.now)) }
        ensures check { result
            ≡ next_check self.old.key self.old.place
            (made (not self.old.unsynced) request.now (reply_frame version client number reply.now)) }
        ensures fits { Fits (made (not self.old.unsynced) request.now (reply_frame version client number reply.now)) }
        ensures file { self.new.file ≡ self.old.file }
        ensures machine { self.new.machine ≡ self.old.machine }
        ensures key { self.new.key ≡ self.old.key }
        ensures place { self.new.place ≡ self.old.place }
        ensures ahead { self.new.ahead ≡ self.old.ahead }
        ensures unsynced { self.new.unsynced ≡ self.old.unsynced }
        ensures fault { self.new.fault ≡ self.old.fault }
    {
        spell_reply(&mut self.reply, version, client, number, reply);
        put_record(
            &mut self.room,
            self.key,
            self.place,
            !self.unsynced,
            request,
            sum,
            self.reply.as_slice(),
        )
    }

    /// Appends to the file what it lacks of the record that was spelled, which has this check value. After an error
    /// nothing is promised of the place and the flags: [`Journal::handle`] notes the fault, and nothing follows.
    fn append(&mut self, check: [u8; 16]) -> Result<(), Fault>
        ensures appended { (s : List ℕ) → F.has self.old.file s
            → OnOk result (F.has self.new.file (s ++ drop (if self.old.ahead then 17 else 0) self.old.room.items)) }
        ensures part { (s : List ℕ) → F.has self.old.file s
            → OnErr result ((part : List ℕ) × F.has self.new.file (s ++ part)
            × IsFront part (drop (if self.old.ahead then 17 else 0) self.old.room.items)) }
        ensures place { OnOk result
            ((self.new.place.at ≡ self.old.place.at + length self.old.room.items) × (self.new.place.check ≡ check)
            × (self.new.place.records ≡ self.old.place.records + 1)) }
        ensures ahead { OnOk result (self.new.ahead ≡ false) }
        ensures unsynced { OnOk result (self.new.unsynced ≡ true) }
        ensures kept { F.kept self.new.file ≡ F.kept self.old.file }
        ensures machine { self.new.machine ≡ self.old.machine }
        ensures key { self.new.key ≡ self.old.key }
        ensures fault { self.new.fault ≡ self.old.fault }
        ensures writing { IfErr result (λ fault. fault ≡ Fault.Write) }
    {
        // No file is so long that this fails.
        let Some(place) = self.place.behind(self.room.len(), check) else {
            return Err(Fault::Write);
        };
        self.unsynced = true;
        match append_lacking(&mut self.file, &self.room, self.ahead) {
            Ok(()) => {}
            Err(_) => return Err(Fault::Write),
        }
        self.ahead = false;
        self.place = place;
        Ok(())
    }

    /// Appends the record of an accepted request to the file: spells it, and writes it. The parameters are those of
    /// `spell`, and what is promised after an error is as with `append`.
    fn note(
        &mut self,
        version: u8,
        client: u32,
        number: u64,
        request: &[u8],
        sum: &[u8; 16],
        reply: &Reply,
    ) -> Result<(), Fault>
        requires version { IsVersion version }
        requires spelling { HasReplySpelling version reply.now }
        requires header { 18 ≤ length request.now }
        requires size { length request.now ≤ 4194386 }
        requires sum { sum.now ≡ checksum request.now }
        requires empty { self.old.room.items ≡ [] }
        requires len { vec_len self.old.room ≡ 0 }
        requires capacity { length request.now + 1048699 ≤ vec_capacity self.old.room }
        requires spelled { self.old.reply.items ≡ [] }
        requires left { 1048658 ≤ self.old.reply.left }
        ensures appended { (s : List ℕ) → F.has self.old.file s
            → OnOk result
            (F.has self.new.file
            (s
            ++ drop (if self.old.ahead then 17 else 0)
            (record_bytes self.old.key self.old.place
            (made (not self.old.unsynced) request.now (reply_frame version client number reply.now))))) }
        ensures part { (s : List ℕ) → F.has self.old.file s
            → OnErr result ((part : List ℕ) × F.has self.new.file (s ++ part)
            × IsFront part
            (drop (if self.old.ahead then 17 else 0)
            (record_bytes self.old.key self.old.place
            (made (not self.old.unsynced) request.now (reply_frame version client number reply.now))))) }
        ensures place { OnOk result
            (self.new.place
            ≡ place_after self.old.key self.old.place
            (made (not self.old.unsynced) request.now (reply_frame version client number reply.now))) }
        ensures fits { OnOk result
            (Fits (made (not self.old.unsynced) request.now (reply_frame version client number reply.now))) }
        ensures ahead { OnOk result (self.new.ahead ≡ false) }
        ensures unsynced { OnOk result (self.new.unsynced ≡ true) }
        ensures kept { F.kept self.new.file ≡ F.kept self.old.file }
        ensures machine { self.new.machine ≡ self.old.machine }
        ensures key { self.new.key ≡ self.old.key }
        ensures fault { self.new.fault ≡ self.old.fault }
        ensures writing { IfErr result IsOfWriting }
    {
        let check = self.spell(version, client, number, request, sum, reply);
        match self.append(check) {
            Ok(()) => Ok(()),
            Err(_) => Err(Fault::Write),
        }
    }

    /// Does the work of [`Journal::handle`] where no fault was before. An accepted request is then written to the file,
    /// and not yet synced. Behind the machine's answer nothing takes memory. A fault is not noted here: `handle` does.
    fn take(&mut self, frame: Frame) -> Result<Reply, Fault>
        ensures taken { (setting : M.Setting) (header : List ℕ) (synced all : List Record)
            → Stands F.has F.kept (M.stands setting) header self.old synced all
            → IfOk result (λ reply.
            (first : Bool) × (accepted : Bool) × Answers (M.gives setting) all frame reply accepted
            × Stands F.has F.kept (M.stands setting) header self.new synced (extended all first frame reply accepted)) }
        ensures part { (setting : M.Setting) (header : List ℕ) (synced all : List Record)
            → Stands F.has F.kept (M.stands setting) header self.old synced all
            → OnErr result (WroteOne F.has (M.gives setting) header self.new.file synced all frame) }
        ensures spelled { IfOk result (HasReplySpelling frame.version) }
        ensures kept { F.kept self.new.file ≡ F.kept self.old.file }
        ensures fault { self.new.fault ≡ self.old.fault }
        ensures writing { IfErr result IsOfWriting }
        ensures unwritten { (setting : M.Setting) (records : List Record) → M.stands setting self.old.machine records
            → ((reply : Reply) → M.gives setting records frame reply true → ⊥) → self.new.file ≡ self.old.file }
    {
        if !is_carried(&frame) {
            return Ok(Reply::Refused(Refusal::Malformed));
        }
        let Ok(request) = request_bytes(self.alloc, &frame) else {
            return Ok(Reply::Refused(Refusal::Memory));
        };
        match make_rooms(&mut self.room, &mut self.reply, request.len()) {
            Ok(()) => {}
            Err(_) => return Ok(Reply::Refused(Refusal::Memory)),
        }
        let (version, client, number) = (frame.version, frame.client, frame.number);
        let mark = mark(frame.kind, frame.body.as_slice());
        let handled = self.machine.handle(frame, mark);
        if !handled.accepted {
            return Ok(handled.reply);
        }
        match self.note(version, client, number, &request, &mark, &handled.reply) {
            Ok(()) => Ok(handled.reply),
            Err(fault) => Err(fault),
        }
    }

    /// Handles a request and returns its reply. It must not be sent before [`Journal::settle`] returned `Ok`. After a
    /// fault the reply says that the database failed, nothing is handled, and `settle` returns the fault. A frame that
    /// no stream can carry is malformed.
    pub fn handle(&mut self, frame: Frame) -> Reply
        ensures handled { (setting : M.Setting) (header : List ℕ) (synced all : List Record)
            → Stands F.has F.kept (M.stands setting) header self.old synced all
            → self.new.fault ≡ None
            → (first : Bool) × (accepted : Bool) × Answers (M.gives setting) all frame result accepted
            × Stands F.has F.kept (M.stands setting) header self.new synced (extended all first frame result accepted) }
        // Also after a fault, the file has the records of all requests that were accepted before, and then the record
        // of this request if it was accepted, or the first bytes of that record.
        ensures part { (setting : M.Setting) (header : List ℕ) (synced all : List Record)
            → Stands F.has F.kept (M.stands setting) header self.old synced all
            → self.old.fault ≡ None → IsSome self.new.fault
            → WroteOne F.has (M.gives setting) header self.new.file synced all frame }
        ensures spelled { HasReplySpelling frame.version result }
        ensures kept { F.kept self.new.file ≡ F.kept self.old.file }
        // No request leads to another fault than that the file could not be written: running out of memory ends no
        // journal.
        ensures writing { MayBeOfWriting self.old.fault → MayBeOfWriting self.new.fault }
        // Nothing is written for a request that the machine cannot accept.
        ensures unwritten { (setting : M.Setting) (records : List Record) → M.stands setting self.old.machine records
            → ((reply : Reply) → M.gives setting records frame reply true → ⊥) → self.new.file ≡ self.old.file }
        // After a fault nothing is done.
        ensures closed { IsSome self.old.fault → (self.new.file ≡ self.old.file) × (self.new.fault ≡ self.old.fault) }
    {
        if self.fault.is_some() {
            return Reply::Refused(Refusal::Store);
        }
        match self.take(frame) {
            Ok(reply) => reply,
            Err(fault) => {
                self.fault = Some(fault);
                Reply::Refused(Refusal::Store)
            }
        }
    }

    /// Syncs the file. After `Ok` the replies to all requests so far may be sent. After a fault no reply may be sent
    /// any more, and every further call returns a fault.
    ///
    /// A call with nothing to sync writes the beginning of the next turn instead: its mark says that all before it is
    /// on the disk, so that from then on damage in the last turn is not taken for a torn end.
    pub fn settle(&mut self) -> Result<(), Fault>
        ensures settled { (setting : M.Setting) (header : List ℕ) (synced all : List Record)
            → Stands F.has F.kept (M.stands setting) header self.old synced all
            → OnOk result (IsSettled F.has F.kept (M.stands setting) header self.new all) }
        ensures same { (s : List ℕ) → F.has self.old.file s
            → (part : List ℕ) × F.has self.new.file (s ++ part)
            × IsFront part (turn_mark self.old.key self.old.place.at) }
        ensures marks { self.old.unsynced ≡ false → self.old.key.form ≡ Form.Present
            → OnOk result (self.new.ahead ≡ true) }
        ensures kept { OnErr result (F.kept self.new.file ≡ F.kept self.old.file) }
        ensures fault { OnOk result (self.new.fault ≡ None) }
        ensures closes { OnErr result (IsSome self.new.fault) }
        ensures reported { IfErr result (λ fault. self.new.fault ≡ Some fault) }
        ensures writing { MayBeOfWriting self.old.fault → MayBeOfWriting self.new.fault }
        ensures closed { IsSome self.old.fault → IsErr result }
    {
        match self.fault {
            Some(fault) => return Err(fault),
            None => {}
        }
        if !self.unsynced {
            match self.begin_turn() {
                Ok(()) => return Ok(()),
                Err(fault) => return Err(fault),
            }
        }
        match self.file.sync() {
            Ok(()) => {
                self.unsynced = false;
                Ok(())
            }
            Err(_) => {
                self.fault = Some(Fault::Write);
                Err(Fault::Write)
            }
        }
    }

    /// Writes the beginning of the next turn, 17 bytes, unless it is there; never in version 3, which has no marks.
    /// Syncs nothing: a crash may tear these bytes, which are no record.
    fn begin_turn(&mut self) -> Result<(), Fault>
        requires fault { self.old.fault ≡ None }
        requires unsynced { self.old.unsynced ≡ false }
        ensures settled { (setting : M.Setting) (header : List ℕ) (synced all : List Record)
            → Stands F.has F.kept (M.stands setting) header self.old synced all
            → OnOk result (IsSettled F.has F.kept (M.stands setting) header self.new all) }
        ensures same { (s : List ℕ) → F.has self.old.file s
            → (part : List ℕ) × F.has self.new.file (s ++ part)
            × IsFront part (turn_mark self.old.key self.old.place.at) }
        ensures marks { self.old.key.form ≡ Form.Present → OnOk result (self.new.ahead ≡ true) }
        ensures kept { OnErr result (F.kept self.new.file ≡ F.kept self.old.file) }
        ensures fault { OnOk result (self.new.fault ≡ None) }
        ensures closes { OnErr result (self.new.fault ≡ Some Fault.Write) }
        ensures reported { IfErr result (λ fault. fault ≡ Fault.Write) }
    {
        if self.ahead {
            return Ok(());
        }
        match self.key.form {
            Form::Before => return Ok(()),
            Form::Present => {}
        }
        let mark = turn_mark(self.key, self.place.at);
        match self.file.append(&mark) {
            Ok(()) => {
                self.ahead = true;
                Ok(())
            }
            Err(_) => {
                self.fault = Some(Fault::Write);
                Err(Fault::Write)
            }
        }
    }
}

/// Returns what a file lacks of a record with these bytes: all of them, or, if the beginning of its turn was written
/// ahead, those behind its first 17 (`MARK`).
fn lacking(bytes: &[u8], ahead: bool) -> &[u8]
    ensures { result.now ≡ drop (if ahead then 17 else 0) bytes.now }
{
    if !ahead {
        return bytes;
    }
    if bytes.len() < MARK {
        return &[];
    }
    let (_, rest) = bytes.split_at(MARK);
    rest
}

/// Appends to a file what it lacks of a record with these bytes.
fn append_lacking<F: LogFile>(file: &mut F, bytes: &Vec<u8>, ahead: bool) -> Result<(), FileError>
    ensures appended { (s : List ℕ) → F.has file.old s
        → OnOk result (F.has file.new (s ++ drop (if ahead then 17 else 0) bytes.now.items)) }
    ensures part { (s : List ℕ) → F.has file.old s
        → OnErr result
        ((part : List ℕ) × F.has file.new (s ++ part) × IsFront part (drop (if ahead then 17 else 0) bytes.now.items)) }
    ensures kept { F.kept file.new ≡ F.kept file.old }
{
    let rest = lacking(bytes.as_slice(), ahead);
    file.append(rest)
}
