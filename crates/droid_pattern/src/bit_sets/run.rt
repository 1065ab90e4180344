//! Words in which the set bits form one run, and sets whose places do.

ghost use Rattle.std.specs.Prelude.{◌≡◌, ◌↔◌, ◌<◌, ◌≤◌, ◌-◌, ◌^◌, ℕ, OnOk, length};
ghost use Rattle.std.specs.Int.{bit_at};
ghost use Rattle.droid_pattern.specs.Places.{IsPlace};

use crate::bit_sets::word_count::clear_past;
use std::alloc::AllocError;

/// Returns the word whose set bits are those from `low` up to, but not including, `high`. A `high` above 64 counts as
/// 64.
pub(crate) fn run_of(low: usize, high: usize) -> u64
    ensures { (i : ℕ) → i < 64 → (bit_at result i ≡ 1) ↔ ((low ≤ i) × (i < high)) }
{
    let high = high.min(64);
    if high <= low {
        return 0;
    }
    lowest(high) - lowest(low)
}

/// Returns the word whose set bits are the lowest `count`, at most all 64.
fn lowest(count: usize) -> u64
    requires { count ≤ 64 }
    ensures { result ≡ 2 ^ count - 1 }
{
    if count == 64 {
        u64::MAX
    } else {
        (1u64 << count) - 1
    }
}

/// Replaces the words by those that hold the places from `low` to `high`, both included; none if `low` is above `high`.
pub(crate) fn push_runs(words: &mut Vec<u64>, low: usize, high: usize) -> Result<(), AllocError>
    requires { high < 2 ^ 63 }
    ensures { OnOk result ((p : ℕ) → IsPlace words.new.items p ↔ ((low ≤ p) × (p ≤ high))) }
{
    words.clear();
    words.resize(high / 64 + 1, run_of(0, 64))?;
    clear_before(words, low);
    clear_past(words, high);
    Ok(())
}

/// Drops the places below `first`; the number of words stays.
fn clear_before(words: &mut [u64], first: usize)
    ensures len { length words.new ≡ length words.old }
    ensures places { (p : ℕ) → IsPlace words.new p ↔ (IsPlace words.old p × (first ≤ p)) }
{
    for place in 0..words.len().min(first / 64) {
        words[place] = 0;
    }
    if first / 64 < words.len() {
        words[first / 64] &= run_of(first % 64, 64);
    }
}
