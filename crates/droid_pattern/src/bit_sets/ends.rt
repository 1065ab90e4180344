//! Finds the first and the last word of a bit set that is not 0: so its lowest place, whether it is empty, and how many
//! words it needs.

ghost use Rattle.std.specs.Prelude.{◌≡◌, ◌≢◌, ◌<◌, ◌≤◌, ◌^◌, ℕ, MatchOption, true, false, length, slice_index};
ghost use Rattle.droid_pattern.specs.Places.{IsPlace};

/// Returns whether the set is empty: whether all words are 0.
pub(crate) fn has_none(words: &[u64]) -> bool
    ensures none { result ≡ true → (p : ℕ) → IsPlace words.now p → ⊥ }
    ensures some { result ≡ false → (p : ℕ) × IsPlace words.now p }
{
    match first_word(words) {
        Some(_) => false,
        None => true,
    }
}

/// Returns the lowest place of the set, or `None` if it is empty. The bound keeps the place within a `usize`.
pub(crate) fn first_place(words: &[u64]) -> Option<usize>
    requires { length words.now ≤ 2 ^ 57 }
    ensures { MatchOption result ((p : ℕ) → IsPlace words.now p → ⊥)
        (λ first. IsPlace words.now first × ((p : ℕ) → IsPlace words.now p → first ≤ p)) }
{
    let place = first_word(words)?;
    Some(64 * place + words[place].trailing_zeros() as usize)
}

/// Returns the index of the first word that is not 0, or `None` if all are 0.
fn first_word(words: &[u64]) -> Option<usize>
    ensures { MatchOption result ((k : ℕ) → slice_index words.now k ≡ 0)
        (λ first.
        (first < length words.now) × (slice_index words.now first ≢ 0)
        × ((k : ℕ) → k < first → slice_index words.now k ≡ 0)) }
{
    for (place, word) in words.iter().enumerate() {
        if *word != 0 {
            return Some(place);
        }
    }
    None
}

/// Returns the number of words up to and including the last one that is not 0; 0 if all are 0.
pub(crate) fn used(words: &[u64]) -> usize
    ensures most { result ≤ length words.now }
    ensures rest { (k : ℕ) → result ≤ k → slice_index words.now k ≡ 0 }
{
    for place in (0..words.len()).rev() {
        if words[place] != 0 {
            return place + 1;
        }
    }
    0
}
