//! Handing the records of a file to a taker, one window of 16 MiB at a time. After a fault nothing is promised of the
//! taker: its maker drops it.
//!
//! In clauses 16777216 is the window, `WINDOW` of `droid_journal`, 18446744073709551616 is 2^64, and 25 the bytes of a
//! record beside its frames (`AROUND` of `weight.rt`). What reads the file fails with Read, and as the taker does.

ghost use Rattle.std.specs.Prelude.{◌≡◌, ◌*◌, ◌+◌, ◌<◌, ◌≤◌, ℕ, List, [], IfErr, IfNone, IfOk, IfSome, drop, length};
ghost use Rattle.droid_journal.specs.Chains.{BeginsNoRecord, BeginsWith};
ghost use Rattle.droid_journal.specs.Records.{Record, checksum, made};
ghost use Rattle.droid_compaction.specs.Faults.{IsOfReading, IsOfTaking};
ghost use Rattle.droid_compaction.specs.Sums.{AreSumsIn};
ghost use Rattle.droid_compaction.specs.Taking.{Passes, StandIn, StandThere, Takes};

use crate::rewrite_fault::RewriteFault;
use crate::sums::{Sums, is_long};
use crate::taker::Taker;
use droid_journal::{Found, Key, LogFile, Place, record_by};

/// Reads the record at the front of bytes; `None` if no whole one is there. If its request is long and its checksum
/// isn't computed, first computes those of the next eight long requests: for speed alone, no clause holds it.
fn next_of<'a>(key: Key, place: Place, bytes: &'a [u8], sums: &mut Sums) -> Option<Found<'a>>
    requires sums { AreSumsIn key.form bytes.now sums.old }
    requires at { place.at + length bytes.now < 18446744073709551616 }
    requires records { place.records + length bytes.now < 18446744073709551616 }
    ensures sums { AreSumsIn key.form bytes.now sums.new }
    ensures found { IfSome result (λ x.
        BeginsWith key place bytes.now (made x.first x.request.now x.reply.now) x.after x.rest.now) }
    ensures sum { IfSome result (λ x. x.sum ≡ checksum x.request.now) }
    ensures none { IfNone result (BeginsNoRecord key place bytes.now) }
{
    if is_long(key.form, bytes) && sums.at(bytes).is_none() {
        *sums = Sums::of(key.form, bytes);
    }
    let sum = sums.at(bytes);
    record_by(key, place, bytes, sum)
}

/// Hands on each record at the front of bytes that stand at a place, and returns the place behind them: `from` if there
/// is none. Fails only as the taker does.
fn take_records<T: Taker>(
    taker: &mut T,
    key: Key,
    from: Place,
    bytes: &[u8],
) -> Result<Place, RewriteFault>
    requires at { from.at + length bytes.now < 18446744073709551616 }
    requires count { from.records + length bytes.now < 18446744073709551616 }
    ensures takes { IfOk result (λ to. Takes T.took key from bytes.now taker.old to taker.new) }
    ensures fault { IfErr result IsOfTaking }
{
    let mut rest = bytes;
    let mut place = from;
    let mut sums = Sums::of(key.form, bytes);
    while let Some(found) = next_of(key, place, rest, &mut sums) {
        match taker.take(found.request, found.sum, found.reply) {
            Ok(()) => {}
            Err(fault) => return Err(fault),
        }
        place = found.after;
        rest = found.rest;
    }
    Ok(place)
}

/// Hands on the records from a place on that are whole in one window, and returns the place behind them: `from` if
/// there is none. What was in the buffer counts for nothing.
fn take_some<F: LogFile, T: Taker>(
    file: &F,
    taker: &mut T,
    key: Key,
    from: Place,
    buffer: &mut [u8],
) -> Result<Place, RewriteFault>
    requires found { F.is_found file.now }
    requires count { 25 * from.records ≤ from.at }
    requires window { length buffer.old ≡ 16777216 }
    ensures window { length buffer.new ≡ 16777216 }
    ensures passes { IfOk result (λ to. (its : List Record) × Passes T.took key taker.old from taker.new to its
        × ((s : List ℕ) → F.has file.now s → StandIn key s from to its)) }
    ensures ends { IfOk result (λ to.
        to.at ≡ from.at → (s : List ℕ) → F.has file.now s → BeginsNoRecord key to (drop to.at s)) }
    ensures fault { IfErr result IsOfReading }
{
    let Ok(count) = file.read_at(from.at, buffer) else {
        return Err(RewriteFault::Read);
    };
    // No file is so long that this fails.
    let Some(_) = from.at.checked_add(count as u64) else {
        return Err(RewriteFault::Read);
    };
    match take_records(taker, key, from, &buffer[..count]) {
        Ok(to) => Ok(to),
        Err(fault) => Err(fault),
    }
}

/// Hands on all records from a place on, and returns the place behind them. A record has at least 25 bytes beside its
/// frames, so their number never overflows.
pub(crate) fn take_all<F: LogFile, T: Taker>(
    file: &F,
    taker: &mut T,
    key: Key,
    from: Place,
    buffer: &mut [u8],
) -> Result<Place, RewriteFault>
    requires found { F.is_found file.now }
    requires count { 25 * from.records ≤ from.at }
    requires window { length buffer.old ≡ 16777216 }
    ensures window { length buffer.new ≡ 16777216 }
    ensures passes { IfOk result (λ to. (its : List Record) × Passes T.took key taker.old from taker.new to its
        × ((s : List ℕ) → F.has file.now s → StandThere key s from to its)) }
    ensures fault { IfErr result IsOfReading }
{
    let mut place = from;
    // The bound is never reached. With it the loop ends, whatever the file does.
    for _ in 0..u64::MAX {
        let next = match take_some(file, taker, key, place, buffer) {
            Ok(next) => next,
            Err(fault) => return Err(fault),
        };
        if next.at == place.at {
            return Ok(next);
        }
        place = next;
    }
    Err(RewriteFault::Read)
}
