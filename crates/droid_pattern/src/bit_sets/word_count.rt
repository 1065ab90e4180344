//! The end of a bit set's words: clears bits of the last word, drops words that are 0, adds words that are 0.

ghost use Rattle.std.specs.Prelude.{◌≡◌, ◌↔◌, ◌<◌, ◌≤◌, ◌+◌, ◌/◌, ◌*◌, ℕ, OnOk, max, length};
ghost use Rattle.droid_pattern.specs.Places.{IsPlace};

use crate::bit_sets::ends::used;
use crate::bit_sets::run::run_of;
use std::alloc::AllocError;

/// Drops the places above `last`, where no word lies past the one of `last`; the number of words stays.
pub(crate) fn clear_past(words: &mut [u64], last: usize)
    requires { length words.old ≤ last / 64 + 1 }
    ensures len { length words.new ≡ length words.old }
    ensures places { (p : ℕ) → IsPlace words.new p ↔ (IsPlace words.old p × (p ≤ last)) }
{
    if last / 64 < words.len() {
        words[last / 64] &= run_of(0, last % 64 + 1);
    }
}

/// Drops the words at the end that are 0. No clause needs it: fewer words make the next step quicker.
pub(crate) fn trim(words: &mut Vec<u64>)
    ensures len { length words.new.items ≤ length words.old.items }
    ensures places { (p : ℕ) → IsPlace words.new.items p ↔ IsPlace words.old.items p }
{
    words.truncate(used(words));
}

/// Adds words of value 0 until there are at least `count` words.
pub(crate) fn grow(words: &mut Vec<u64>, count: usize) -> Result<(), AllocError>
    ensures len { OnOk result (length words.new.items ≡ max count (length words.old.items)) }
    ensures places { OnOk result ((p : ℕ) → IsPlace words.new.items p ↔ IsPlace words.old.items p) }
{
    if words.len() < count {
        words.resize(count, 0)?;
    }
    Ok(())
}
