//! Making the header that a file has, or gets: a text that its caller knows, and random bytes.

ghost use Rattle.std.specs.Prelude.{◌≡◌, ◌⊎◌, ◌+◌, ◌<◌, ◌≤◌, ◌++◌, ℕ, List, drop, length, take, IfErr, IfOk};
ghost use Rattle.droid_journal.specs.Opening.{HasHeader, IsBegun};
ghost use Rattle.droid_journal.specs.Headers.{IsMemoryOrRead};
ghost use Rattle.droid_journal.specs.Fronts.{IsFront};

use crate::journal_fault::Fault;
use crate::log_file::LogFile;
use std::alloc::Global;

/// How many bytes at the end of a header are random. No client knows them, so none can make the bytes of a record.
pub const RANDOM: usize = 16;

/// Makes the header of a file: a fixed text, and 16 bytes. Of these, the file's own bytes stay, and the missing ones
/// are random.
///
/// So a journal with this text is opened with the header that it was made with, also if a crash left only a part of it.
pub fn header_for<F: LogFile>(
    alloc: Global,
    file: &F,
    fixed: &[u8],
    fresh: &[u8; 16],
) -> Result<Vec<u8>, Fault>
    requires found { F.is_found file.now }
    requires size { length fixed.now ≤ 4080 }
    ensures text { (s : List ℕ) → F.has file.now s
        → IfOk result (λ header.
        header.items
        ≡ fixed.now
        ++ (take 16 (drop (length fixed.now) s) ++ drop (length (take 16 (drop (length fixed.now) s))) fresh.now)) }
    // A file with the text and 16 more bytes has this header.
    ensures whole { (s : List ℕ) → F.has file.now s
        → IfOk result (λ header. length fixed.now + 16 ≤ length s → HasHeader fixed.now s → HasHeader header.items s) }
    // A file with only a part of that has a part of this header.
    ensures begun { (s : List ℕ) → F.has file.now s
        → IfOk result (λ header.
        length s < length fixed.now + 16 → IsFront s fixed.now ⊎ IsFront fixed.now s
        → IsBegun header.items s (length s)) }
    ensures size { IfOk result (λ header. length header.items ≡ length fixed.now + 16) }
    ensures fault { IfErr result IsMemoryOrRead }
{
    let random = match random_of(file, fixed.len() as u64, fresh) {
        Ok(random) => random,
        Err(_) => return Err(Fault::Read),
    };
    let mut header = Vec::from_slice(alloc, fixed)?;
    header.extend_from_slice(&random)?;
    Ok(header)
}

/// Returns the 16 bytes from a place of the file on, with random bytes for those that the file lacks.
fn random_of<F: LogFile>(file: &F, at: u64, fresh: &[u8; 16]) -> Result<[u8; 16], Fault>
    requires found { F.is_found file.now }
    ensures { (s : List ℕ) → F.has file.now s
        → IfOk result (λ random. random ≡ take 16 (drop at s) ++ drop (length (take 16 (drop at s))) fresh.now) }
{
    let mut found = [0u8; RANDOM];
    let Ok(count) = file.read_at(at, &mut found) else {
        return Err(Fault::Read);
    };
    Ok(begun_by(&found[..count], fresh))
}

/// Returns `bytes` with its first ones replaced by those of `first`.
fn begun_by(first: &[u8], bytes: &[u8; 16]) -> [u8; 16]
    requires { length first.now ≤ 16 }
    ensures { result ≡ first.now ++ drop (length first.now) bytes.now }
{
    let mut all = *bytes;
    all[..first.len()].copy_from_slice(first);
    all
}
