//! Writing a smaller journal into another file: first which files have ended, and then record by record. After a fault
//! nothing is promised of the new file: it is dropped, and no name leads to it but its own.
//!
//! Each function fails with Memory, Read, Write, Header or Behind; clauses say of the last two when. In clauses
//! 16777216 is `WINDOW` of `droid_journal`.

ghost use Rattle.std.specs.Prelude.{◌≡◌, ℕ, Bool, [], List, IfOk, IsErrOf, length};
ghost use Rattle.droid_journal.specs.Opening.{HasHeader};
ghost use Rattle.droid_journal.specs.Chains.{marked_bytes};
ghost use Rattle.droid_journal.specs.Records.{AllFit, Record};
ghost use Rattle.droid_compaction.specs.Numbers.{has_number};
ghost use Rattle.droid_compaction.specs.Shortening.{HasBehind, IsShortened, IsWhole, smaller_by};
ghost use Rattle.droid_compaction.specs.Sizes.{AreSizes, IsSizeOf};

use crate::ended_files::ended_in;
use crate::numbers::Numbers;
use crate::rewrite_fault::RewriteFault;
use crate::rewriter::{Rewriter, flush};
use crate::size::Size;
use crate::whole::take_whole;
use droid_journal::{LogFile, WINDOW, first_place, key_of, turn_mark};
use std::alloc::Global;

/// A smaller journal that was written.
#[derive(Drop)]
pub struct Smaller<N> {
    /// The new file.
    pub file: N,
    /// The size of the old file.
    pub before: Size,
    /// The size of the new one.
    pub after: Size,
}

/// Writes each record of a journal into an empty file, those of the files in `ended` without their bytes, and the mark
/// of the last turn. Checks the old file, which has the header `header`, on the way. The new header is collected like a
/// record: it is written with the first of them.
fn write_anew<F: LogFile, N: LogFile + Drop>(
    alloc: Global,
    old: &F,
    header: &[u8],
    new_header: &[u8],
    ended: Numbers,
    new: N,
    buffer: &mut [u8],
) -> Result<Smaller<N>, RewriteFault>
    requires found { F.is_found old.now }
    requires window { length buffer.old ≡ 16777216 }
    ensures written { (s : List ℕ) (have_ended : ℕ → Bool) → F.has old.now s → N.has new []
        → ((file : ℕ) → has_number ended file ≡ have_ended file)
        → IfOk result (λ it.
        (its : List Record) × IsWhole header.now s its × AllFit (smaller_by have_ended its)
        × N.has it.file (marked_bytes new_header.now (smaller_by have_ended its))
        × IsSizeOf s its it.before
        × IsSizeOf (marked_bytes new_header.now (smaller_by have_ended its)) (smaller_by have_ended its) it.after) }
    ensures other_header { IsErrOf result RewriteFault.Header → (s : List ℕ) → F.has old.now s → HasHeader header.now s
        → ⊥ }
    ensures behind { (n : ℕ) → IsErrOf result (RewriteFault.Behind n) → (s : List ℕ) → F.has old.now s
        → HasBehind header.now s n }
{
    let out = Vec::from_slice(alloc, new_header)?;
    let stamps = Numbers::new(alloc);
    let mut rewriter = Rewriter {
        alloc,
        ended,
        stamps,
        file: new,
        out,
        key: key_of(new_header),
        place: first_place(new_header),
        bytes: 0,
    };
    let before = match take_whole(alloc, old, &mut rewriter, header, buffer) {
        Ok(size) => size,
        Err(fault) => return Err(fault),
    };
    let mark = turn_mark(rewriter.key, rewriter.place.at);
    rewriter.out.extend_from_slice(&mark)?;
    match flush(&mut rewriter.file, &mut rewriter.out, rewriter.bytes) {
        Ok(bytes) => Ok(Smaller {
            file: rewriter.file,
            before,
            after: Size {
                records: rewriter.place.records,
                bytes,
            },
        }),
        Err(_) => Err(RewriteFault::Write),
    }
}

/// Does the work of [`rewrite`], and reads the old file through this buffer.
fn rewrite_by<F: LogFile, N: LogFile + Drop>(
    alloc: Global,
    old: &F,
    header: &[u8],
    new_header: &[u8],
    new: N,
    buffer: &mut [u8],
) -> Result<Smaller<N>, RewriteFault>
    requires found { F.is_found old.now }
    requires window { length buffer.old ≡ 16777216 }
    ensures rewritten { (s : List ℕ) → F.has old.now s → N.has new []
        → IfOk result (λ it. (bytes : List ℕ) × IsShortened header.now new_header.now s bytes × N.has it.file bytes) }
    ensures sizes { (s : List ℕ) → F.has old.now s → N.has new []
        → IfOk result (λ it. AreSizes header.now new_header.now s it.before it.after) }
    ensures other_header { IsErrOf result RewriteFault.Header → (s : List ℕ) → F.has old.now s → HasHeader header.now s
        → ⊥ }
    ensures behind { (n : ℕ) → IsErrOf result (RewriteFault.Behind n) → (s : List ℕ) → F.has old.now s
        → HasBehind header.now s n }
{
    let ended = match ended_in(alloc, old, header) {
        Ok(ended) => ended,
        Err(fault) => return Err(fault),
    };
    match write_anew(alloc, old, header, new_header, ended, new, buffer) {
        Ok(smaller) => Ok(smaller),
        Err(fault) => Err(fault),
    }
}

/// Writes the smaller journal into an empty file, under a new header of version 4 and with its mark. Requests that came
/// again are left out, and each file that was finished or abandoned has bare pieces and a bare Finish. Only reads the
/// old file, 16 MiB at a time. Syncs nothing.
///
/// A journal with anything behind its whole records, but the beginning of the next turn, is refused
/// ([`RewriteFault::Behind`]): opening it reports a torn end or damage, and saves what it cuts off.
pub fn rewrite<F: LogFile, N: LogFile + Drop>(
    alloc: Global,
    old: &F,
    header: &[u8],
    new_header: &[u8],
    new: N,
) -> Result<Smaller<N>, RewriteFault>
    requires found { F.is_found old.now }
    ensures rewritten { (s : List ℕ) → F.has old.now s → N.has new []
        → IfOk result (λ it. (bytes : List ℕ) × IsShortened header.now new_header.now s bytes × N.has it.file bytes) }
    ensures sizes { (s : List ℕ) → F.has old.now s → N.has new []
        → IfOk result (λ it. AreSizes header.now new_header.now s it.before it.after) }
    // Another header is reported only where the file begins with another.
    ensures other_header { IsErrOf result RewriteFault.Header → (s : List ℕ) → F.has old.now s → HasHeader header.now s
        → ⊥ }
    // Bytes behind the records are reported only where there are some, and behind how many.
    ensures behind { (n : ℕ) → IsErrOf result (RewriteFault.Behind n) → (s : List ℕ) → F.has old.now s
        → HasBehind header.now s n }
{
    let mut buffer = vec![in alloc; 0u8; WINDOW]?;
    rewrite_by(alloc, old, header, new_header, new, buffer.as_mut_slice())
}
