//! Opening a journal: a machine that stands for the records of a file.

ghost use Rattle.std.specs.Prelude.{◌≡◌, ◌≢◌, ◌+◌, ◌≤◌, if◌then◌else◌, ℕ, List, [], length, take, drop, IfOk, IfErr};
ghost use Rattle.std.specs.Prelude.{IfSome, IsErrOf, IsTrue, OnErr, OnOk};
ghost use Rattle.droid_journal.specs.Opening.{HasHeader, IsBegun, IsKept, IsReady, Knows, PartWithin, ReadsAll};
ghost use Rattle.droid_journal.specs.Opening.{WasDamaged, WasFound, WasRefuted};
ghost use Rattle.droid_journal.specs.Replaying.{Gave};
ghost use Rattle.droid_journal.specs.Turns.{IsTurn};
ghost use Rattle.droid_journal.specs.Chains.{IsMark, NoneLaterByChance, NotByChance, form_of, journal_bytes};
ghost use Rattle.droid_journal.specs.Chains.{marked_bytes, skipped};
ghost use Rattle.droid_journal.specs.Fronts.{IsFront};
ghost use Rattle.droid_journal.specs.Records.{AllFit, Record};

use crate::file_records::{WINDOW, hand_all, is_damaged};
use crate::journal_fault::Fault;
use crate::log_file::LogFile;
use crate::machine::Machine;
use crate::records::checks::MARK;
use crate::records::comparison::is_same;
use crate::records::damage::is_mark;
use crate::records::key::{Form, Key, first_place, key_of};
use crate::records::place::Place;
use std::alloc::Global;

/// A machine that stands for the records of a file.
#[derive(Drop)]
pub struct Opened<M> {
    /// The machine.
    pub machine: M,
    /// What all check values depend on.
    pub(crate) key: Key,
    /// The end of the records.
    pub(crate) place: Place,
    /// Whether the beginning of the next turn stands behind them.
    pub(crate) ahead: bool,
}

impl<M> Opened<M> {
    /// Puts another machine in the place of this one, and returns this one too. For a caller that reads a file with one
    /// machine, and goes on with another that it makes of that one.
    pub fn with<N>(self, machine: N) -> (M, Opened<N>)
        ensures old { result.0 ≡ self.machine }
        ensures new { result.1.machine ≡ machine }
        ensures key { result.1.key ≡ self.key }
        ensures place { result.1.place ≡ self.place }
        ensures ahead { result.1.ahead ≡ self.ahead }
    {
        let Opened {
            machine: old,
            key,
            place,
            ahead,
        } = self;
        let new = Opened {
            machine,
            key,
            place,
            ahead,
        };
        (old, new)
    }
}

/// What a file begins with, if that is right.
enum Beginning {
    /// The header.
    Whole,
    /// This many bytes of the header, less than all, and nothing else; 0 for an empty file.
    Part(usize),
}

/// Reads what a file begins with, through a buffer of 16 MiB. The fault is [`Fault::Header`] if that is no part of the
/// header.
fn beginning_of<F: LogFile>(file: &F, header: &[u8], buffer: &mut [u8]) -> Result<Beginning, Fault>
    requires found { F.is_found file.now }
    requires header { length header.now ≤ 4096 }
    requires window { length buffer.old ≡ 16777216 }
    ensures window { length buffer.new ≡ 16777216 }
    ensures begins { (s : List ℕ) → F.has file.now s → IfOk result (Knows header.now s) }
    ensures part { IfOk result (PartWithin header.now) }
    ensures other { IsErrOf result Fault.Header → (s : List ℕ) → F.has file.now s
        → (HasHeader header.now s → ⊥) × ((count : ℕ) → IsBegun header.now s count → ⊥) }
    ensures others { (n : ℕ) → (IsErrOf result (Fault.Damage n) → ⊥) × (IsErrOf result (Fault.Record n) → ⊥) }
{
    let Ok(count) = file.read_at(0, buffer) else {
        return Err(Fault::Read);
    };
    beginning_in(&buffer[..count], header)
}

/// Returns what a file begins with, by `seen`, its first 16 MiB or all of a shorter file.
fn beginning_in(seen: &[u8], header: &[u8]) -> Result<Beginning, Fault>
    requires { length header.now ≤ 4096 }
    ensures begins { (s : List ℕ) → seen.now ≡ take 16777216 s → IfOk result (Knows header.now s) }
    ensures other { IsErrOf result Fault.Header → (s : List ℕ) → seen.now ≡ take 16777216 s
        → (HasHeader header.now s → ⊥) × ((count : ℕ) → IsBegun header.now s count → ⊥) }
    ensures part { IfOk result (PartWithin header.now) }
    ensures header { IfErr result (λ fault. fault ≡ Fault.Header) }
{
    if seen.len() >= header.len() {
        if !is_same(&seen[..header.len()], header) {
            return Err(Fault::Header);
        }
        return Ok(Beginning::Whole);
    }
    if !is_same(seen, &header[..seen.len()]) {
        return Err(Fault::Header);
    }
    Ok(Beginning::Part(seen.len()))
}

/// Writes the part of the header that a file lacks, which has its first `count` bytes, and syncs it. After an error
/// more of them may be there: the next start goes on with them.
fn make_header<F: LogFile>(file: &mut F, header: &[u8], count: usize) -> Result<(), Fault>
    requires { count ≤ length header.now }
    ensures made { (s : List ℕ) → F.has file.old s → IsBegun header.now s count
        → OnOk result (F.has file.new header.now × (F.kept file.new ≡ header.now)) }
    ensures kept { OnErr result (F.kept file.new ≡ F.kept file.old) }
{
    if file.append(&header[count..]).is_err() {
        return Err(Fault::Write);
    }
    match file.sync() {
        Ok(()) => Ok(()),
        Err(_) => Err(Fault::Write),
    }
}

/// Truncates a file to `end` bytes, behind its records, and syncs it.
fn cut_behind<F: LogFile>(file: &mut F, end: u64) -> Result<(), Fault>
    requires found { F.is_found file.old }
    requires within { (s : List ℕ) → F.has file.old s → (length (F.kept file.old) ≤ end) × (end ≤ length s) }
    ensures cut { (s : List ℕ) → F.has file.old s
        → OnOk result (F.has file.new (take end s) × (F.kept file.new ≡ take end s)) }
    ensures kept { OnErr result (F.kept file.new ≡ F.kept file.old) }
{
    if file.cut(end).is_err() {
        return Err(Fault::Write);
    }
    match file.sync() {
        Ok(()) => Ok(()),
        Err(_) => Err(Fault::Write),
    }
}

/// Returns how many bytes behind the records the search for later turns begins: in version 4 one, since a mark at the
/// very end of the records is right.
fn skip_of(form: Form) -> u64
    ensures { result ≡ skipped form }
{
    match form {
        Form::Before => 0,
        Form::Present => 1,
    }
}

/// Returns whether the beginning of a turn stands at a place of the file: never in version 3, which has no marks.
fn is_begun_at<F: LogFile>(file: &F, key: Key, at: u64) -> Result<bool, Fault>
    requires found { F.is_found file.now }
    ensures mark { (s : List ℕ) → F.has file.now s → IfOk result (λ is. IsTrue is → IsMark key at (drop at s)) }
    ensures form { IfOk result (λ is. IsTrue is → key.form ≡ Form.Present) }
    ensures none { (s : List ℕ) → F.has file.now s
        → IfOk result (λ is. key.form ≡ Form.Present → IsMark key at (drop at s) → IsTrue is) }
    ensures fault { IfErr result (λ fault. fault ≡ Fault.Read) }
{
    match key.form {
        Form::Before => return Ok(false),
        Form::Present => {}
    }
    let mut front = [0u8; MARK];
    let Ok(count) = file.read_at(at, &mut front) else {
        return Err(Fault::Read);
    };
    let is = is_mark(key, at, &front[..count]);
    Ok(is)
}

/// Returns where a file is cut: behind its records, which end at `at`, and the beginning of the next turn, if it is
/// there (`ahead`). `None`: no file is so long.
fn end_of(at: u64, ahead: bool) -> Option<u64>
    ensures { IfSome result (λ end. end ≡ at + (if ahead then 17 else 0)) }
{
    if !ahead {
        return Some(at);
    }
    let Some(end) = at.checked_add(MARK as u64) else {
        return None;
    };
    Some(end)
}

/// Hands a machine all records of a file with this header, and checks that nothing behind them was damaged. Returns
/// their end. Writes nothing.
fn read_all<F: LogFile, M: Machine + Drop>(
    alloc: Global,
    file: &F,
    header: &[u8],
    machine: &mut M,
    buffer: &mut [u8],
) -> Result<Place, Fault>
    requires found { F.is_found file.now }
    requires header { length header.now ≤ 4096 }
    requires window { length buffer.old ≡ 16777216 }
    ensures read { (s : List ℕ) → F.has file.now s → HasHeader header.now s
        → IfOk result (λ to.
        (its : List Record) × ReadsAll M.stands M.gives header.now s machine.old machine.new to its) }
    ensures damage { (n : ℕ) → IsErrOf result (Fault.Damage n) → (s : List ℕ) → F.has file.now s
        → HasHeader header.now s → WasDamaged header.now s n }
    ensures refuted { (n : ℕ) → IsErrOf result (Fault.Record n) → (setting : M.Setting) (s : List ℕ) → F.has file.now s
        → HasHeader header.now s → M.stands setting machine.old []
        → WasRefuted (M.gives setting) header.now s n }
    ensures others { IsErrOf result Fault.Header → ⊥ }
{
    let key = key_of(header);
    let from = first_place(header);
    let to = match hand_all(alloc, file, machine, key, from, buffer) {
        Ok(to) => to,
        Err(fault) => return Err(fault),
    };
    // No file is so long that this fails.
    let Some(behind) = to.at.checked_add(skip_of(key.form)) else {
        return Err(Fault::Read);
    };
    let Ok(later) = is_damaged(file, key, behind, buffer) else {
        return Err(Fault::Read);
    };
    if later {
        return Err(Fault::Damage(to.records));
    }
    Ok(to)
}

/// Opens a file that has this header: reads its records, and then cuts it behind them.
fn open_whole<F: LogFile, M: Machine + Drop>(
    alloc: Global,
    file: &mut F,
    header: &[u8],
    machine: M,
    buffer: &mut [u8],
) -> Result<Opened<M>, Fault>
    requires found { F.is_found file.old }
    requires header { length header.now ≤ 4096 }
    requires window { length buffer.old ≡ 16777216 }
    requires begins { (s : List ℕ) → F.has file.old s → HasHeader header.now s }
    requires kept { (s : List ℕ) → F.has file.old s → IsKept header.now (F.kept file.old) }
    ensures opened { (s : List ℕ) → F.has file.old s
        → IfOk result (λ opened. (its : List Record) × WasFound header.now s its
        × ((setting : M.Setting) → M.stands setting machine []
        → IsReady F.has F.kept (M.stands setting) header.now file.new opened its × Gave (M.gives setting) [] its)) }
    // A file that ends with the mark of its last turn stays as it is.
    ensures stays { (s : List ℕ) → F.has file.old s → (its : List Record) → form_of header.now ≡ Form.Present
        → AllFit its → s ≡ marked_bytes header.now its → OnOk result (F.has file.new s) }
    ensures unchanged { IfErr result (λ fault. fault ≢ Fault.Write → file.new ≡ file.old) }
    ensures kept { OnErr result (F.kept file.new ≡ F.kept file.old) }
    ensures damage { (n : ℕ) → IsErrOf result (Fault.Damage n) → (s : List ℕ) → F.has file.old s
        → WasDamaged header.now s n }
    ensures refuted { (n : ℕ) → IsErrOf result (Fault.Record n) → (setting : M.Setting) (s : List ℕ) → F.has file.old s
        → M.stands setting machine []
        → WasRefuted (M.gives setting) header.now s n }
    ensures others { IsErrOf result Fault.Header → ⊥ }
{
    let mut machine = machine;
    let to = match read_all(alloc, file, header, &mut machine, buffer) {
        Ok(to) => to,
        Err(fault) => return Err(fault),
    };
    let key = key_of(header);
    let Ok(ahead) = is_begun_at(file, key, to.at) else {
        return Err(Fault::Read);
    };
    let Some(end) = end_of(to.at, ahead) else {
        return Err(Fault::Read);
    };
    match cut_behind(file, end) {
        Ok(()) => {}
        Err(_) => return Err(Fault::Write),
    }
    Ok(Opened {
        machine,
        key,
        place: to,
        ahead,
    })
}

/// Opens a file that has only the first `count` bytes of this header: makes the header whole. There are no records.
fn open_begun<F: LogFile, M: Machine + Drop>(
    file: &mut F,
    header: &[u8],
    machine: M,
    count: usize,
) -> Result<Opened<M>, Fault>
    requires count { count ≤ length header.now }
    requires begins { (s : List ℕ) → F.has file.old s → IsBegun header.now s count }
    ensures opened { (s : List ℕ) → F.has file.old s
        → IfOk result (λ opened. (its : List Record) × WasFound header.now s its
        × ((setting : M.Setting) → M.stands setting machine []
        → IsReady F.has F.kept (M.stands setting) header.now file.new opened its × Gave (M.gives setting) [] its)) }
    ensures fault { IfErr result (λ fault. fault ≡ Fault.Write) }
    ensures kept { OnErr result (F.kept file.new ≡ F.kept file.old) }
{
    match make_header(file, header, count) {
        Ok(()) => {}
        Err(_) => return Err(Fault::Write),
    }
    Ok(Opened {
        machine,
        key: key_of(header),
        place: first_place(header),
        ahead: false,
    })
}

/// Does the work of [`open`], and reads the file through this buffer.
fn open_by<F: LogFile, M: Machine + Drop>(
    alloc: Global,
    file: &mut F,
    header: &[u8],
    machine: M,
    buffer: &mut [u8],
) -> Result<Opened<M>, Fault>
    requires found { F.is_found file.old }
    requires header { length header.now ≤ 4096 }
    requires window { length buffer.old ≡ 16777216 }
    requires kept { (s : List ℕ) → F.has file.old s → HasHeader header.now s → IsKept header.now (F.kept file.old) }
    ensures opened { (s : List ℕ) → F.has file.old s
        → IfOk result (λ opened. (its : List Record) × WasFound header.now s its
        × ((setting : M.Setting) → M.stands setting machine []
        → IsReady F.has F.kept (M.stands setting) header.now file.new opened its × Gave (M.gives setting) [] its)) }
    // A file that ends with the mark of its last turn stays as it is.
    ensures stays { (s : List ℕ) → F.has file.old s → (its : List Record) → form_of header.now ≡ Form.Present
        → AllFit its → s ≡ marked_bytes header.now its → OnOk result (F.has file.new s) }
    ensures unchanged { IfErr result (λ fault. fault ≢ Fault.Write → file.new ≡ file.old) }
    ensures kept { OnErr result (F.kept file.new ≡ F.kept file.old) }
    ensures damage { (n : ℕ) → IsErrOf result (Fault.Damage n) → (s : List ℕ) → F.has file.old s
        → WasDamaged header.now s n }
    ensures refuted { (n : ℕ) → IsErrOf result (Fault.Record n) → (setting : M.Setting) (s : List ℕ) → F.has file.old s
        → M.stands setting machine []
        → WasRefuted (M.gives setting) header.now s n }
    ensures other_header { IsErrOf result Fault.Header → (s : List ℕ) → F.has file.old s
        → (HasHeader header.now s → ⊥) × ((count : ℕ) → IsBegun header.now s count → ⊥) }
{
    let beginning = match beginning_of(file, header, buffer) {
        Ok(beginning) => beginning,
        Err(fault) => return Err(fault),
    };
    match beginning {
        Beginning::Whole => open_whole(alloc, file, header, machine, buffer),
        Beginning::Part(count) => match open_begun(file, header, machine, count) {
            Ok(opened) => Ok(opened),
            Err(_) => Err(Fault::Write),
        },
    }
}

/// Makes a machine stand for the records of a file, and cuts the file behind them; `machine` has accepted nothing yet.
/// The file is made, if it is empty. Whatever a crash left behind what was synced, the machine then stands for the
/// first of the requests that were accepted, in order, and for every one that was synced.
///
/// Nothing is written or cut before everything was read and found right: after any fault but [`Fault::Write`] the file
/// is as it was.
pub fn open<F: LogFile, M: Machine + Drop>(
    alloc: Global,
    file: &mut F,
    header: &[u8],
    machine: M,
) -> Result<Opened<M>, Fault>
    requires found { F.is_found file.old }
    requires header { length header.now ≤ 4096 }
    // What is kept of a file that has this header was written by a journal.
    requires kept { (s : List ℕ) → F.has file.old s → HasHeader header.now s → IsKept header.now (F.kept file.old) }
    ensures opened { (s : List ℕ) → F.has file.old s
        → IfOk result (λ opened. (its : List Record) × WasFound header.now s its
        × ((setting : M.Setting) → M.stands setting machine []
        → IsReady F.has F.kept (M.stands setting) header.now file.new opened its × Gave (M.gives setting) [] its)) }
    ensures reopened { (setting : M.Setting) (s : List ℕ) (synced written : List Record) → F.has file.old s
        → M.stands setting machine [] → AllFit synced
        → IsFront (journal_bytes header.now synced) s → NotByChance header.now written s
        → IfOk result (λ opened.
        (its : List Record) × IsReady F.has F.kept (M.stands setting) header.now file.new opened its
        × IsFront synced its × IsFront its written) }
    // A file that ends with the mark of its last turn stays as it is.
    ensures stays { (s : List ℕ) → F.has file.old s → (its : List Record) → form_of header.now ≡ Form.Present
        → AllFit its → s ≡ marked_bytes header.now its → OnOk result (F.has file.new s) }
    ensures unchanged { IfErr result (λ fault. fault ≢ Fault.Write → file.new ≡ file.old) }
    // After any fault what is on the disk for sure is what it was.
    ensures kept { OnErr result (F.kept file.new ≡ F.kept file.old) }
    // Damage is reported only where the beginning of a later turn stands behind it.
    ensures damage { (n : ℕ) → IsErrOf result (Fault.Damage n) → (s : List ℕ) → F.has file.old s
        → WasDamaged header.now s n }
    // So it is never reported of what a crash leaves of a journal, unless the end of the file has the beginning of a
    // later turn by chance.
    ensures lawful { (s : List ℕ) (synced written : List Record) (n : ℕ) → F.has file.old s → AllFit synced
        → IsFront (journal_bytes header.now synced) s → IsTurn synced written
        → NoneLaterByChance header.now written s (length (journal_bytes header.now synced))
        → IsErrOf result (Fault.Damage n) → ⊥ }
    // A record is refused only if no journal of such a machine wrote it behind those before it.
    ensures refuted { (n : ℕ) → IsErrOf result (Fault.Record n) → (setting : M.Setting) (s : List ℕ) → F.has file.old s
        → M.stands setting machine []
        → WasRefuted (M.gives setting) header.now s n }
    // Another header is reported only where the file begins with another, and not where it was not made whole.
    ensures other_header { IsErrOf result Fault.Header → (s : List ℕ) → F.has file.old s
        → (HasHeader header.now s → ⊥) × ((count : ℕ) → IsBegun header.now s count → ⊥) }
{
    let mut buffer = vec![in alloc; 0u8; WINDOW]?;
    open_by(alloc, file, header, machine, buffer.as_mut_slice())
}
