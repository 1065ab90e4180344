//! Reading the records of a file, and then searching what is behind them for later turns, one window at a time. Calls
//! share one buffer of a window's size; what was in it counts for nothing.

ghost use Rattle.std.specs.Prelude.{◌≡◌, ◌*◌, ◌<◌, ◌≤◌, ◌↔◌, ℕ, List, IfErr, IfOk, IsErrOf, IsTrue, drop, length, take};
ghost use Rattle.std.specs.Prelude.{true};
ghost use Rattle.droid_journal.specs.Faults.{IsOfReading};
ghost use Rattle.droid_journal.specs.Opening.{HandedOn, Hands, StandIn};
ghost use Rattle.droid_journal.specs.Replaying.{Fails};
ghost use Rattle.droid_journal.specs.Chains.{BeginsNoRecord, HasLater};
ghost use Rattle.droid_journal.specs.Records.{Record};

use crate::journal_fault::Fault;
use crate::log_file::LogFile;
use crate::machine::Machine;
use crate::records::damage::has_later;
use crate::records::key::Key;
use crate::records::place::Place;
use crate::replay::replay;
use std::alloc::Global;

/// The bytes that are read at once: a window. Clauses have it as 16777216, and the prover ties them to it.
pub const WINDOW: usize = 16_777_216;

/// How far the search for later turns moves at once: a window less the longest record of version 3 (`LIMIT` of
/// `records/record_reader.rt`) and the check value before it (16 bytes), so that one window has both whole. The prover
/// refuses a larger step; a smaller one costs time.
const STEP: u64 = 8_388_592;

/// Hands a machine the records from a place on that are whole in one window, and returns the place behind them: `from`
/// if there is none. A record has at least 25 bytes beside its frames, so their number never overflows.
fn hand_some<F: LogFile, M: Machine + Drop>(
    alloc: Global,
    file: &F,
    machine: &mut M,
    key: Key,
    from: Place,
    buffer: &mut [u8],
) -> Result<Place, Fault>
    requires found { F.is_found file.now }
    requires count { 25 * from.records ≤ from.at }
    requires window { length buffer.old ≡ 16777216 }
    ensures window { length buffer.new ≡ 16777216 }
    ensures hands { IfOk result (λ to.
        (its : List Record) × Hands M.stands M.gives key machine.old from machine.new to its
        × ((s : List ℕ) → F.has file.now s → StandIn key s from to its)) }
    ensures ends { IfOk result (λ to.
        to.at ≡ from.at → (s : List ℕ) → F.has file.now s → BeginsNoRecord key to (drop to.at s)) }
    ensures fault { IfErr result IsOfReading }
    ensures refuted { (number : ℕ) → IsErrOf result (Fault.Record number) → (s : List ℕ) → F.has file.now s
        → Fails M.stands M.gives key from (drop from.at s) machine.old number }
{
    let Ok(count) = file.read_at(from.at, buffer) else {
        return Err(Fault::Read);
    };
    // No file is so long that this fails.
    let Some(_) = from.at.checked_add(count as u64) else {
        return Err(Fault::Read);
    };
    match replay(alloc, machine, key, from, &buffer[..count]) {
        Ok(to) => Ok(to),
        Err(fault) => Err(fault),
    }
}

/// Hands a machine all records from a place on, and returns the place behind them. After a fault nothing is promised of
/// the machine: `open` drops it.
pub(crate) fn hand_all<F: LogFile, M: Machine + Drop>(
    alloc: Global,
    file: &F,
    machine: &mut M,
    key: Key,
    from: Place,
    buffer: &mut [u8],
) -> Result<Place, Fault>
    requires found { F.is_found file.now }
    requires count { 25 * from.records ≤ from.at }
    requires window { length buffer.old ≡ 16777216 }
    ensures window { length buffer.new ≡ 16777216 }
    ensures hands { IfOk result (λ to.
        (its : List Record) × Hands M.stands M.gives key machine.old from machine.new to its
        × ((s : List ℕ) → F.has file.now s → HandedOn key s from to its)) }
    ensures fault { IfErr result IsOfReading }
    ensures refuted { (number : ℕ) → IsErrOf result (Fault.Record number) → (s : List ℕ) → F.has file.now s
        → Fails M.stands M.gives key from (drop from.at s) machine.old number }
{
    let mut place = from;
    // The bound is never reached. With it the loop ends, whatever the file does.
    for _ in 0..u64::MAX {
        let next = match hand_some(alloc, file, machine, key, place, buffer) {
            Ok(next) => next,
            Err(fault) => return Err(fault),
        };
        if next.at == place.at {
            return Ok(next);
        }
        place = next;
    }
    Err(Fault::Read)
}

/// Searches the window from a place on for the beginning of a later turn. Returns whether there is one, and whether the
/// file ends in the window.
fn search_some<F: LogFile>(
    file: &F,
    key: Key,
    at: u64,
    buffer: &mut [u8],
) -> Result<(bool, bool), Fault>
    requires found { F.is_found file.now }
    requires window { length buffer.old ≡ 16777216 }
    ensures window { length buffer.new ≡ 16777216 }
    ensures later { (s : List ℕ) → F.has file.now s
        → IfOk result (λ x. IsTrue x.0 ↔ HasLater key at (take 16777216 (drop at s))) }
    ensures ends { (s : List ℕ) → F.has file.now s
        → IfOk result (λ x. x.1 ≡ true → length (take 16777216 (drop at s)) < 16777216) }
    ensures fault { IfErr result (λ fault. fault ≡ Fault.Read) }
{
    let Ok(count) = file.read_at(at, buffer) else {
        return Err(Fault::Read);
    };
    // No file is so long that this fails.
    let Some(_) = at.checked_add(count as u64) else {
        return Err(Fault::Read);
    };
    Ok((has_later(key, at, &buffer[..count]), count < WINDOW))
}

/// Returns whether the beginning of a later turn stands anywhere from a place on, `from` bytes into the file. It is
/// read to its end.
pub(crate) fn is_damaged<F: LogFile>(
    file: &F,
    key: Key,
    from: u64,
    buffer: &mut [u8],
) -> Result<bool, Fault>
    requires found { F.is_found file.now }
    requires window { length buffer.old ≡ 16777216 }
    ensures later { (s : List ℕ) → F.has file.now s
        → IfOk result (λ later. IsTrue later ↔ HasLater key from (drop from s)) }
    ensures fault { IfErr result (λ fault. fault ≡ Fault.Read) }
{
    let mut at = from;
    // The bound is never reached. With it the loop ends, whatever the file does.
    for _ in 0..u64::MAX {
        let (later, ended) = search_some(file, key, at, buffer)?;
        if later {
            return Ok(true);
        }
        if ended {
            return Ok(false);
        }
        let Some(next) = at.checked_add(STEP) else {
            return Err(Fault::Read);
        };
        at = next;
    }
    Err(Fault::Read)
}
