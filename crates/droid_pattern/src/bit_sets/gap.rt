//! Moves the places of a bit set over one byte or over a gap, adding or dropping words as the highest place needs it.

ghost use Rattle.std.specs.Prelude.{◌≡◌, ◌↔◌, ◌<◌, ◌≤◌, ◌+◌, ◌/◌, ◌^◌, ℕ, OnOk, length};
ghost use Rattle.droid_pattern.specs.Places.{IsPlace};

use crate::bit_sets::ends::first_place;
use crate::bit_sets::run::push_runs;
use crate::bit_sets::shift::{advance, widen};
use crate::bit_sets::word_count::{clear_past, grow, trim};
use std::alloc::AllocError;

/// Drops the places above `last`, and the words past that of `last`.
fn drop_above(words: &mut Vec<u64>, last: usize)
    ensures len { length words.new.items ≤ last / 64 + 1 }
    ensures places { (p : ℕ) → IsPlace words.new.items p ↔ (IsPlace words.old.items p × (p ≤ last)) }
{
    words.truncate(last / 64 + 1);
    clear_past(words, last);
    trim(words);
}

/// Moves each place up by one. After an error, which is out of memory, nothing is promised of `words`, as with `cross`.
pub(crate) fn step(words: &mut Vec<u64>) -> Result<(), AllocError>
    ensures { OnOk result ((q : ℕ) → IsPlace words.new.items q ↔ ((p : ℕ) × IsPlace words.old.items p × (q ≡ p + 1))) }
{
    if words.is_empty() {
        return Ok(());
    }
    words.push(0)?;
    advance(words, 1);
    trim(words);
    Ok(())
}

/// Replaces the places by all those that lie from `least` to `least + more` above one of them and are at most `len`,
/// the number of bytes. The bounds keep sums within a `usize`.
pub(crate) fn cross(
    words: &mut Vec<u64>,
    least: usize,
    more: usize,
    len: usize,
) -> Result<(), AllocError>
    requires small { (least < 2 ^ 62) × (more < 2 ^ 63) × (len < 2 ^ 63) }
    ensures { OnOk result ((q : ℕ) → IsPlace words.new.items q
        ↔ ((q ≤ len) × ((p : ℕ) × IsPlace words.old.items p × (p + least ≤ q) × (q ≤ p + (least + more))))) }
{
    // Also bounds the number of words, as `first_place` requires.
    drop_above(words, len);
    let Some(first) = first_place(words) else {
        return Ok(());
    };
    // For speed: the lowest place alone reaches all places up to `len`.
    if len <= first.saturating_add(least + more) {
        return push_runs(words, first + least, len);
    }
    let wanted = words.len() + (least + more) / 64 + 1;
    grow(words, wanted.min(len / 64 + 1))?;
    advance(words, least);
    widen(words, more);
    drop_above(words, len);
    Ok(())
}
