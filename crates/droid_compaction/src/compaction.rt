//! Replacing a journal by a smaller one.

ghost use Rattle.std.specs.Prelude.{◌≡◌, ◌≢◌, ◌⊎◌, ℕ, [], List, IfErr, IfOk, IsErrOf, OnOk};
ghost use Rattle.droid_journal.specs.Opening.{HasHeader};
ghost use Rattle.droid_compaction.specs.Shortening.{HasBehind, IsShortened};
ghost use Rattle.droid_compaction.specs.Sizes.{AreSizes};

use crate::exchange::{Exchange, replace};
use crate::new_file::{Smaller, rewrite};
use crate::rewrite_fault::RewriteFault;
use droid_journal::LogFile;
use std::alloc::Global;

/// Writes the smaller journal into an empty file, under a new header, syncs it, and gives it the name of the old one.
/// Returns the new file, and the sizes of both. Fails as `rewrite` does, or with Exchange.
///
/// A crash at any moment leaves the old journal under the name, or the smaller one with all its bytes; also where this
/// fails.
pub fn compact<F: LogFile, N: LogFile + Drop, X: Exchange<N>>(
    alloc: Global,
    old: &F,
    header: &[u8],
    new_header: &[u8],
    new: N,
    exchange: &mut X,
) -> Result<Smaller<N>, RewriteFault>
    requires found { F.is_found old.now }
    ensures at_any_moment { (s bytes : List ℕ) → F.has old.now s → N.has new [] → X.may_lead exchange.new bytes
        → X.may_lead exchange.old bytes ⊎ IsShortened header.now new_header.now s bytes }
    ensures compacted { (s bytes : List ℕ) → F.has old.now s → N.has new []
        → OnOk result (X.may_lead exchange.new bytes → IsShortened header.now new_header.now s bytes) }
    // The new file has the smaller journal, and all of it is on the disk.
    ensures on_disk { (s : List ℕ) → F.has old.now s → N.has new []
        → IfOk result (λ it.
        IsShortened header.now new_header.now s (N.kept it.file) × N.has it.file (N.kept it.file)) }
    ensures sizes { (s : List ℕ) → F.has old.now s → N.has new []
        → IfOk result (λ it. AreSizes header.now new_header.now s it.before it.after) }
    ensures other_header { IsErrOf result RewriteFault.Header → (s : List ℕ) → F.has old.now s → HasHeader header.now s
        → ⊥ }
    ensures behind { (n : ℕ) → IsErrOf result (RewriteFault.Behind n) → (s : List ℕ) → F.has old.now s
        → HasBehind header.now s n }
    // The name may have changed only if exchanging it failed.
    ensures untouched { IfErr result (λ fault. fault ≢ RewriteFault.Exchange → exchange.new ≡ exchange.old) }
{
    let mut smaller = match rewrite(alloc, old, header, new_header, new) {
        Ok(smaller) => smaller,
        Err(fault) => return Err(fault),
    };
    match replace(&mut smaller.file, exchange) {
        Ok(()) => Ok(smaller),
        Err(_) => Err(RewriteFault::Exchange),
    }
}
