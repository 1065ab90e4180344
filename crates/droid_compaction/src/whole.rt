//! Handing all records of a journal to a taker, and checking its header before and its end behind them: nothing may
//! stand there but the beginning of the next turn: a byte and a mark, `MARK` of `droid_journal`, 17 bytes.
//!
//! What reads the file fails with Read; in clauses 16777216 is `WINDOW` of `droid_journal`.

ghost use Rattle.std.specs.Prelude.{◌≡◌, ◌≢◌, ◌+◌, ◌↔◌, if◌then◌else◌, ℕ, List, [], IfErr, IfNone, IfOk, IfSome};
ghost use Rattle.std.specs.Prelude.{IsErrOf, IsTrue, drop, length, take, true};
ghost use Rattle.droid_journal.specs.Opening.{HasHeader};
ghost use Rattle.droid_journal.specs.Records.{Record, turn_mark};
ghost use Rattle.droid_compaction.specs.Faults.{IsOfReading};
ghost use Rattle.droid_compaction.specs.Shortening.{HasBehind, IsWhole};
ghost use Rattle.droid_compaction.specs.Sizes.{IsSizeOf};

use crate::rewrite_fault::RewriteFault;
use crate::size::Size;
use crate::taker::Taker;
use crate::walk::take_all;
use droid_journal::{Form, Key, LogFile, MARK, first_place, is_same, key_of, turn_mark};
use std::alloc::Global;

/// Reads as many bytes as the header has into `front`, and returns whether they are the header.
fn is_header<F: LogFile>(file: &F, header: &[u8], front: &mut [u8]) -> Result<bool, RewriteFault>
    requires found { F.is_found file.now }
    requires room { length front.old ≡ length header.now }
    ensures header { (s : List ℕ) → F.has file.now s → IfOk result (λ has. IsTrue has ↔ HasHeader header.now s) }
    ensures fault { IfErr result IsOfReading }
{
    let Ok(count) = file.read_at(0, front) else {
        return Err(RewriteFault::Read);
    };
    Ok(is_same(&front[..count], header))
}

/// Returns whether a file begins with this header. Fails with Read or Memory.
fn has_header<F: LogFile>(alloc: Global, file: &F, header: &[u8]) -> Result<bool, RewriteFault>
    requires found { F.is_found file.now }
    ensures header { (s : List ℕ) → F.has file.now s → IfOk result (λ has. IsTrue has ↔ HasHeader header.now s) }
    ensures fault { IfErr result IsOfReading }
{
    let mut front = vec![in alloc; 0u8; header.len()]?;
    is_header(file, header, front.as_mut_slice())
}

/// Reads at most 18 bytes at a place, and returns whether they are nothing but the beginning of a turn (`Some(true)`),
/// nothing at all (`Some(false)`), or anything else.
fn end_at<F: LogFile>(file: &F, key: Key, at: u64) -> Result<Option<bool>, RewriteFault>
    requires found { F.is_found file.now }
    ensures there { (s : List ℕ) → F.has file.now s
        → IfOk result (λ end. IfSome end (λ ahead. drop at s ≡ (if ahead then turn_mark key at else []))) }
    ensures form { IfOk result (λ end. IfSome end (λ ahead. ahead ≡ true → key.form ≡ Form.Present)) }
    ensures other { (s : List ℕ) → F.has file.now s
        → IfOk result (λ end.
        IfNone end ((drop at s ≢ []) × (key.form ≡ Form.Present → drop at s ≢ turn_mark key at))) }
    ensures fault { IfErr result IsOfReading }
{
    let mut bytes = [0u8; MARK + 1];
    let Ok(count) = file.read_at(at, &mut bytes) else {
        return Err(RewriteFault::Read);
    };
    let end = end_in(key, at, &bytes[..count]);
    Ok(end)
}

/// Does the work of [`end_at`] with the bytes that were read, of which there are at most 18: one more than `MARK`, so
/// that a mark with anything behind it is seen. In version 3 any byte is something else.
fn end_in(key: Key, at: u64, seen: &[u8]) -> Option<bool>
    ensures there { (rest : List ℕ) → seen.now ≡ take 18 rest
        → IfSome result (λ ahead. rest ≡ (if ahead then turn_mark key at else [])) }
    ensures form { IfSome result (λ ahead. ahead ≡ true → key.form ≡ Form.Present) }
    ensures other { (rest : List ℕ) → seen.now ≡ take 18 rest
        → IfNone result ((rest ≢ []) × (key.form ≡ Form.Present → rest ≢ turn_mark key at)) }
{
    if seen.len() < 1 {
        return Some(false);
    }
    match key.form {
        Form::Before => return None,
        Form::Present => {}
    }
    if !is_same(seen, &turn_mark(key, at)) {
        return None;
    }
    Some(true)
}

/// Returns where a file ends: behind its records, which end at `at`, and the beginning of the next turn if that is
/// there (`ahead`). `None` if the number is too large, which no file's is.
fn size_of(at: u64, ahead: bool) -> Option<u64>
    ensures { IfSome result (λ end. end ≡ at + (if ahead then 17 else 0)) }
{
    if !ahead {
        return Some(at);
    }
    let Some(end) = at.checked_add(MARK as u64) else {
        return None;
    };
    Some(end)
}

/// Hands on all records of a file with this header, checks that nothing is behind them but perhaps the beginning of the
/// next turn, and returns the file's size. The fault is [`RewriteFault::Header`] or [`RewriteFault::Behind`] where the
/// file is not so, else Read, Memory or what the taker fails with; after each nothing is promised of the taker, which
/// its maker drops.
pub(crate) fn take_whole<F: LogFile, T: Taker>(
    alloc: Global,
    file: &F,
    taker: &mut T,
    header: &[u8],
    buffer: &mut [u8],
) -> Result<Size, RewriteFault>
    requires found { F.is_found file.now }
    requires window { length buffer.old ≡ 16777216 }
    ensures window { length buffer.new ≡ 16777216 }
    ensures whole { (s : List ℕ) → F.has file.now s
        → IfOk result (λ size. (its : List Record) × IsWhole header.now s its
        × ((setting : T.Setting) → T.took setting taker.old [] → T.took setting taker.new its) × IsSizeOf s its size) }
    ensures other_header { IsErrOf result RewriteFault.Header → (s : List ℕ) → F.has file.now s → HasHeader header.now s
        → ⊥ }
    ensures behind { (n : ℕ) → IsErrOf result (RewriteFault.Behind n) → (s : List ℕ) → F.has file.now s
        → HasBehind header.now s n }
{
    let has = match has_header(alloc, file, header) {
        Ok(has) => has,
        Err(fault) => return Err(fault),
    };
    if !has {
        return Err(RewriteFault::Header);
    }
    let key = key_of(header);
    let from = first_place(header);
    let to = match take_all(file, taker, key, from, buffer) {
        Ok(to) => to,
        Err(fault) => return Err(fault),
    };
    let end = match end_at(file, key, to.at) {
        Ok(end) => end,
        Err(fault) => return Err(fault),
    };
    let Some(ahead) = end else {
        return Err(RewriteFault::Behind(to.records));
    };
    // No file is so long that this fails.
    let Some(bytes) = size_of(to.at, ahead) else {
        return Err(RewriteFault::Read);
    };
    Ok(Size {
        records: to.records,
        bytes,
    })
}
