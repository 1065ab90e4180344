//! An intersection followed by a move by one, in one pass over the words.

ghost use Rattle.std.specs.Prelude.{◌≡◌, ◌↔◌, ◌<◌, ◌≤◌, ◌+◌, ◌*◌, ℕ, OnOk, length};
ghost use Rattle.droid_pattern.specs.Places.{IsPlace};

use crate::bit_sets::combination::keep;
use crate::bit_sets::gap::step;
use crate::bit_sets::word_count::trim;
use std::alloc::AllocError;

/// Keeps the places that both sets have, and moves each of them up by one. If the other set has more words, one pass
/// does both. After an error, which is out of memory, nothing is promised of `words`.
pub(crate) fn keep_step(words: &mut Vec<u64>, others: &[u64]) -> Result<(), AllocError>
    ensures { OnOk result ((q : ℕ)
        → IsPlace words.new.items q ↔ ((p : ℕ) × IsPlace words.old.items p × IsPlace others.now p × (q ≡ p + 1))) }
{
    if others.len() <= words.len() {
        keep(words, others);
        return step(words);
    }
    words.push(0)?;
    step_kept(words, others);
    trim(words);
    Ok(())
}

/// Does the work of `keep_step` within the words of the set. A place that would move past the last word is lost.
fn step_kept(words: &mut [u64], others: &[u64])
    requires some { 0 < length words.old }
    requires enough { length words.old ≤ length others.now }
    ensures len { length words.new ≡ length words.old }
    ensures moves { (q : ℕ) → IsPlace words.new q
        ↔ ((q < 64 * length words.old) × ((p : ℕ) × IsPlace words.old p × IsPlace others.now p × (q ≡ p + 1))) }
{
    for place in (1..words.len()).rev() {
        let low = (words[place - 1] & others[place - 1]) >> 63;
        words[place] = ((words[place] & others[place]) << 1) | low;
    }
    words[0] = (words[0] & others[0]) << 1;
}
