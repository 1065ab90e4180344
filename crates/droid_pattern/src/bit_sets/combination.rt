//! The intersection and the union of two bit sets, word by word.

ghost use Rattle.std.specs.Prelude.{◌≡◌, ◌↔◌, ◌⊎◌, ◌<◌, ◌≤◌, ◌*◌, ℕ, OnOk, length};
ghost use Rattle.droid_pattern.specs.Places.{IsPlace};

use crate::bit_sets::word_count::{grow, trim};
use std::alloc::AllocError;

/// Keeps the places that both sets have. Words past the end of the shorter set go.
pub(crate) fn keep(words: &mut Vec<u64>, others: &[u64])
    ensures { (p : ℕ) → IsPlace words.new.items p ↔ (IsPlace words.old.items p × IsPlace others.now p) }
{
    words.truncate(others.len());
    keep_words(words, others);
    trim(words);
}

/// Adds the places of the other set. After an error, which is out of memory, nothing is promised of `words`.
pub(crate) fn join(words: &mut Vec<u64>, others: &[u64]) -> Result<(), AllocError>
    ensures { OnOk result ((p : ℕ) → IsPlace words.new.items p ↔ (IsPlace words.old.items p ⊎ IsPlace others.now p)) }
{
    grow(words, others.len())?;
    join_words(words, others);
    Ok(())
}

/// Replaces each word by its bitwise AND with the other set's word at the same index. Further words of the other set
/// don't matter.
fn keep_words(words: &mut [u64], others: &[u64])
    requires { length words.old ≤ length others.now }
    ensures len { length words.new ≡ length words.old }
    ensures both { (p : ℕ) → p < 64 * length words.old
        → IsPlace words.new p ↔ (IsPlace words.old p × IsPlace others.now p) }
{
    for place in 0..words.len() {
        words[place] &= others[place];
    }
}

/// Replaces each word by its bitwise OR with the other set's word at the same index, if there is one.
fn join_words(words: &mut [u64], others: &[u64])
    requires { length others.now ≤ length words.old }
    ensures len { length words.new ≡ length words.old }
    ensures either { (p : ℕ) → IsPlace words.new p ↔ (IsPlace words.old p ⊎ IsPlace others.now p) }
{
    for place in 0..others.len() {
        words[place] |= others[place];
    }
}
