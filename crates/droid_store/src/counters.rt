//! Counters of what the store holds, so that `counts` reads no table. Memory runs out before a counter does, since each
//! step adds a row.

ghost use Rattle.std.specs.Prelude.{◌≡◌, ◌+◌, ◌-◌, ◌≤◌, IfOk, IfErr};
ghost use Rattle.droid_store.specs.declared.fault.StoreFault.TheVariants.{Memory};

use crate::fault::StoreFault;
use crate::rows::Counts;

/// Returns the number plus 1. After the last one, 2^64 - 1, it is `Memory`.
fn next(count: u64) -> Result<u64, StoreFault>
    ensures next { IfOk result (λ n. n ≡ count + 1) }
    ensures memory { IfErr result (λ fault. fault ≡ Memory) }
{
    match count.checked_add(1) {
        Some(next) => Ok(next),
        None => Err(StoreFault::Memory),
    }
}

/// Returns the counts with one profile more. Fails as [`next`].
pub(crate) fn one_more_profile(counts: Counts) -> Result<Counts, StoreFault>
    ensures more { IfOk result (λ after. after ≡ record counts { profiles = counts.profiles + 1 }) }
    ensures memory { IfErr result (λ fault. fault ≡ Memory) }
{
    let profiles = next(counts.profiles)?;
    Ok(Counts { profiles, ..counts })
}

/// Returns the counts with one unfinished file more. Fails as [`next`].
pub(crate) fn one_more_unfinished(counts: Counts) -> Result<Counts, StoreFault>
    ensures more { IfOk result (λ after. after ≡ record counts { unfinished = counts.unfinished + 1 }) }
    ensures memory { IfErr result (λ fault. fault ≡ Memory) }
{
    let unfinished = next(counts.unfinished)?;
    Ok(Counts {
        unfinished,
        ..counts
    })
}

/// Returns the counts after an unfinished file was finished or abandoned.
pub(crate) fn one_less_unfinished(counts: Counts) -> Counts
    requires { 1 ≤ counts.unfinished }
    ensures { result ≡ record counts { unfinished = counts.unfinished - 1 } }
{
    Counts {
        unfinished: counts.unfinished - 1,
        ..counts
    }
}

/// Returns the counts with one accepted command more. Fails as [`next`].
pub(crate) fn one_more_reply(counts: Counts) -> Result<Counts, StoreFault>
    ensures more { IfOk result (λ after. after ≡ record counts { accepted = counts.accepted + 1 }) }
    ensures memory { IfErr result (λ fault. fault ≡ Memory) }
{
    let accepted = next(counts.accepted)?;
    Ok(Counts { accepted, ..counts })
}
