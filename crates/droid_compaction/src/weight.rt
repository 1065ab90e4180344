//! How much of a journal belongs to files that have ended.
//!
//! What reads the journal fails with Memory, Read, Header or Behind, and returns Write never, as nothing is written;
//! but only of Header and Behind clauses say when. In clauses 16777216 is `WINDOW` of `droid_journal`, and 41 `AROUND`
//! of `rewriter.rt`.

ghost use Rattle.std.specs.Prelude.{◌≡◌, ◌+◌, ◌*◌, ◌<◌, ◌≤◌, ◌↔◌, ℕ, Bool, List, IfOk, IsErrOf, IsTrue, length};
ghost use Rattle.std.specs.List.{sum_by};
ghost use Rattle.droid_journal.specs.Opening.{HasHeader};
ghost use Rattle.droid_journal.specs.Records.{Record, made};
ghost use Rattle.droid_compaction.specs.Numbers.{has_number};
ghost use Rattle.droid_compaction.specs.Shortening.{HasBehind, IsWhole};
ghost use Rattle.droid_compaction.specs.Sizes.{AreMostlyEnded, piece_bytes};

use crate::ended_files::ended_in;
use crate::fields::{file_of, is_about};
use crate::numbers::Numbers;
use crate::rewrite_fault::RewriteFault;
use crate::taker::Taker;
use crate::whole::take_whole;
use droid_frame::kinds::PIECE;
use droid_journal::{LogFile, WINDOW};
use std::alloc::Global;

/// The bytes of a record beside its two frames, without a mark: a first byte, two lengths of four, a check value of 16.
/// `size_of` of `specs/Sizes.antt` has them, and the prover ties both.
const AROUND: usize = 25;

/// How many bytes the pieces of some files have so far.
#[derive(Drop)]
pub(crate) struct Weight {
    pub(crate) files: Numbers,
    pub(crate) bytes: u64,
}

/// Returns how many bytes a record has, without a mark, if it is a piece of one of these files, and 0 for any other.
fn weight_of(files: &Numbers, request: &[u8], reply: &[u8]) -> u64
    requires { length request.now + length reply.now + 41 ≤ 8388608 }
    ensures { (first : Bool) → result ≡ piece_bytes (has_number files.now) (made first request.now reply.now) }
{
    if !is_about(PIECE, request, reply) {
        return 0;
    }
    let file = file_of(request);
    if !files.has(file) {
        return 0;
    }
    (request.len() + reply.len() + AROUND) as u64
}

impl Taker for Weight {
    ghost use Rattle.droid_compaction.specs.Weighing.{AreWeighed};

    ghost Setting = { ℕ → Bool };

    ghost took = { λ files weight its. AreWeighed files weight.files weight.bytes its };

    /// Adds the bytes of the record if it is a piece of one of the files. The checksum is not needed.
    fn take(&mut self, request: &[u8], _sum: [u8; 16], reply: &[u8]) -> Result<(), RewriteFault> {
        let weight = weight_of(&self.files, request, reply);
        // No file is so long that this fails. Of the faults of a taker, Memory is the nearer one.
        match self.bytes.checked_add(weight) {
            Some(bytes) => self.bytes = bytes,
            None => return Err(RewriteFault::Memory),
        }
        Ok(())
    }
}

/// Returns whether a part is more than half of a whole. In 128 bits, since twice a part may need more than 64.
fn is_more_than_half(part: u64, whole: u64) -> bool
    ensures { IsTrue result ↔ (whole < 2 * part) }
{
    u128::from(whole) < 2 * u128::from(part)
}

/// Returns whether these files' pieces have more than half of the bytes of a journal with this header. Reads all of it
/// through this buffer.
fn weighs_more<F: LogFile>(
    alloc: Global,
    file: &F,
    header: &[u8],
    files: Numbers,
    buffer: &mut [u8],
) -> Result<bool, RewriteFault>
    requires found { F.is_found file.now }
    requires window { length buffer.old ≡ 16777216 }
    ensures more { (s : List ℕ) (ended : ℕ → Bool) → F.has file.now s → ((it : ℕ) → has_number files it ≡ ended it)
        → IfOk result (λ mostly.
        (its : List Record) × IsWhole header.now s its
        × (IsTrue mostly ↔ (length s < 2 * sum_by (piece_bytes ended) its))) }
    ensures other_header { IsErrOf result RewriteFault.Header → (s : List ℕ) → F.has file.now s → HasHeader header.now s
        → ⊥ }
    ensures behind { (n : ℕ) → IsErrOf result (RewriteFault.Behind n) → (s : List ℕ) → F.has file.now s
        → HasBehind header.now s n }
{
    let mut weight = Weight { files, bytes: 0 };
    match take_whole(alloc, file, &mut weight, header, buffer) {
        Ok(size) => Ok(is_more_than_half(weight.bytes, size.bytes)),
        Err(fault) => Err(fault),
    }
}

/// Does the work of [`is_mostly_ended`], and reads through this buffer.
fn is_mostly_ended_by<F: LogFile>(
    alloc: Global,
    file: &F,
    header: &[u8],
    buffer: &mut [u8],
) -> Result<bool, RewriteFault>
    requires found { F.is_found file.now }
    requires window { length buffer.old ≡ 16777216 }
    ensures mostly { (s : List ℕ) → F.has file.now s
        → IfOk result (λ mostly.
        (its : List Record) × IsWhole header.now s its × (IsTrue mostly ↔ AreMostlyEnded s its)) }
    ensures other_header { IsErrOf result RewriteFault.Header → (s : List ℕ) → F.has file.now s → HasHeader header.now s
        → ⊥ }
    ensures behind { (n : ℕ) → IsErrOf result (RewriteFault.Behind n) → (s : List ℕ) → F.has file.now s
        → HasBehind header.now s n }
{
    let ended = match ended_in(alloc, file, header) {
        Ok(ended) => ended,
        Err(fault) => return Err(fault),
    };
    match weighs_more(alloc, file, header, ended, buffer) {
        Ok(mostly) => Ok(mostly),
        Err(fault) => Err(fault),
    }
}

/// Returns whether more than half of a journal's bytes are of pieces of files that were finished or abandoned. Then the
/// smaller journal has little more than the other half. Only reads the file, 16 MiB at a time.
///
/// A journal with anything behind its whole records, but the beginning of the next turn, is refused
/// ([`RewriteFault::Behind`]).
pub fn is_mostly_ended<F: LogFile>(
    alloc: Global,
    file: &F,
    header: &[u8],
) -> Result<bool, RewriteFault>
    requires found { F.is_found file.now }
    ensures mostly { (s : List ℕ) → F.has file.now s
        → IfOk result (λ mostly.
        (its : List Record) × IsWhole header.now s its × (IsTrue mostly ↔ AreMostlyEnded s its)) }
    ensures other_header { IsErrOf result RewriteFault.Header → (s : List ℕ) → F.has file.now s → HasHeader header.now s
        → ⊥ }
    ensures behind { (n : ℕ) → IsErrOf result (RewriteFault.Behind n) → (s : List ℕ) → F.has file.now s
        → HasBehind header.now s n }
{
    let mut buffer = vec![in alloc; 0u8; WINDOW]?;
    is_mostly_ended_by(alloc, file, header, buffer.as_mut_slice())
}
