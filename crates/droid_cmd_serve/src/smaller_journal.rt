//! Makes the journal of the program's service smaller, and weighs whether that is worth it.

ghost use Rattle.std.specs.Prelude.{◌≡◌, ◌≢◌, ◌⊎◌, ℕ, [], List, IfErr, IfOk, IsErrOf, OnOk};
ghost use Rattle.droid_cmd_serve.specs.Journals.{IsHeaderOf};
ghost use Rattle.droid_cmd_serve.specs.SmallerJournals.{AreSizesOf, HasBytesBehind, IsMostlyEndedIf, IsSmallerOf};
ghost use Rattle.droid_journal.specs.Opening.{HasHeader};

use crate::header::{header_in, new_header};
use droid_compaction::{Exchange, RewriteFault, Smaller, compact, is_mostly_ended};
use droid_journal::{Fault, LogFile};
use droid_wire::journal_laws;
use std::alloc::Global;

/// Random bytes for a header that the file lacks. The file has its whole header, so that none is needed; with another
/// file any bytes do, as its header is refused.
const NO_RANDOM: [u8; 16] = [0; 16];

/// Makes the header that a journal of the registry with these bytes has in this file, if it has one, or returns that
/// memory ran out or the file could not be read.
fn header_of<F: LogFile>(alloc: Global, file: &F, registry: &[u8]) -> Result<Vec<u8>, RewriteFault>
    requires found { F.is_found file.now }
    ensures is_of { (s : List ℕ) → F.has file.now s → IfOk result (λ header. IsHeaderOf registry.now header.items) }
    ensures same { (s header : List ℕ) → F.has file.now s → IsHeaderOf registry.now header → HasHeader header s
        → IfOk result (λ it. it.items ≡ header) }
    ensures fault { IfErr result (λ fault. (fault ≡ RewriteFault.Memory) ⊎ (fault ≡ RewriteFault.Read)) }
{
    match header_in(alloc, file, registry, &NO_RANDOM) {
        Ok(header) => Ok(header),
        Err(Fault::Memory) => Err(RewriteFault::Memory),
        Err(_) => Err(RewriteFault::Read),
    }
}

/// Writes the journal in a file into an empty file, without the bytes of the pieces of finished and abandoned files,
/// and gives it the name of the old one. The journal's header has the MD5 of these bytes of a registry. The smaller
/// journal is of version 4, with the bytes of `random` in its header: blocks of the old file that come back after a
/// crash count for nothing in it.
///
/// A crash at any moment leaves the old journal under the name, or the smaller one with all its bytes; also where this
/// fails. A service that is made from the smaller one has the same history as with the old one. The faults are those of
/// `compact` of `droid_compaction`.
pub fn make_smaller<F: LogFile, N: LogFile + Drop, X: Exchange<N>>(
    alloc: Global,
    old: &F,
    registry: &[u8],
    random: &[u8; 16],
    new: N,
    exchange: &mut X,
) -> Result<Smaller<N>, RewriteFault>
    requires found { F.is_found old.now }
    ensures at_any_moment { (s bytes : List ℕ) → F.has old.now s → N.has new [] → X.may_lead exchange.new bytes
        → X.may_lead exchange.old bytes ⊎ IsSmallerOf registry.now s bytes }
    ensures smaller { (s bytes : List ℕ) → F.has old.now s → N.has new []
        → OnOk result (X.may_lead exchange.new bytes → IsSmallerOf registry.now s bytes) }
    // The new file has the smaller journal, and all of it is on the disk.
    ensures on_disk { (s : List ℕ) → F.has old.now s → N.has new []
        → IfOk result (λ it. IsSmallerOf registry.now s (N.kept it.file) × N.has it.file (N.kept it.file)) }
    ensures sizes { (s : List ℕ) → F.has old.now s → N.has new []
        → IfOk result (λ it. AreSizesOf registry.now s it.before it.after) }
    // The name may have changed only if exchanging it failed.
    ensures untouched { IfErr result (λ fault. fault ≢ RewriteFault.Exchange → exchange.new ≡ exchange.old) }
    // A journal of this registry is not reported as one of another registry, nor as having bytes behind it if it has
    // none.
    ensures other_header { IsErrOf result RewriteFault.Header → (s header : List ℕ) → F.has old.now s
        → IsHeaderOf registry.now header → HasHeader header s → ⊥ }
    ensures behind { (n : ℕ) → IsErrOf result (RewriteFault.Behind n) → (s : List ℕ) → F.has old.now s
        → HasBytesBehind registry.now s n }
{
    let header = match header_of(alloc, old, registry) {
        Ok(header) => header,
        Err(fault) => return Err(fault),
    };
    let fresh = new_header(alloc, registry, random)?;
    // Does nothing: it is called for its contract, which the clauses need.
    journal_laws::a_smaller_file_leads_to_the_same_history();
    compact(alloc, old, &header, &fresh, new, exchange)
}

/// Returns whether it is worth it to make a journal smaller: more than half of its bytes are of pieces of finished and
/// abandoned files. Its header has the MD5 of these bytes of a registry.
///
/// No clause holds the faults: the one caller, `is_as_it_was` of `compaction.rt`, takes each for "no".
pub fn is_worth_it<F: LogFile>(
    alloc: Global,
    file: &F,
    registry: &[u8],
) -> Result<bool, RewriteFault>
    requires found { F.is_found file.now }
    ensures mostly { (s : List ℕ) → F.has file.now s → IfOk result (λ mostly. IsMostlyEndedIf registry.now s mostly) }
{
    let header = match header_of(alloc, file, registry) {
        Ok(header) => header,
        Err(fault) => return Err(fault),
    };
    is_mostly_ended(alloc, file, &header)
}
