//! Moves the bits of all words up, within the words that are there: a place that would move past the last one is lost.

ghost use Rattle.std.specs.Prelude.{◌≡◌, ◌↔◌, ◌⊎◌, ◌<◌, ◌≤◌, ◌+◌, ◌*◌, ◌-◌, ℕ, length};
ghost use Rattle.std.specs.Int.{bit_at};
ghost use Rattle.droid_pattern.specs.Places.{IsPlace, Moves};

/// Returns the word that stands at index `place` after all bits have moved up by `whole` words and `part` bits. From
/// below come bits 0.
#[inline(always)]
fn moved(words: &[u64], place: usize, whole: usize, part: u32) -> u64
    requires inside { place < length words.now }
    requires part { part < 64 }
    ensures { (i : ℕ) → i < 64 → (bit_at result i ≡ 1)
        ↔ ((64 * whole + part ≤ 64 * place + i) × IsPlace words.now (64 * place + i - (64 * whole + part))) }
{
    if place < whole {
        return 0;
    }
    let high = words[place - whole] << part;
    if part == 0 || place == whole {
        return high;
    }
    high | (words[place - whole - 1] >> (64 - part))
}

/// Returns the same word as [`moved`], where its bits come from two words below it. For speed: it tests nothing.
#[inline(always)]
fn joined(words: &[u64], place: usize, whole: usize, part: u32) -> u64
    requires inside { (whole < place) × (place < length words.now) }
    requires part { (0 < part) × (part < 64) }
    ensures { (i : ℕ) → i < 64 → (bit_at result i ≡ 1)
        ↔ ((64 * whole + part ≤ 64 * place + i) × IsPlace words.now (64 * place + i - (64 * whole + part))) }
{
    (words[place - whole] << part) | (words[place - whole - 1] >> (64 - part))
}

/// Returns the number of words at the front that don't take bits from two words below them: all `len`, if whole words
/// move. For words from there on, `advance` and `spread` may call `joined`.
fn edge(len: usize, whole: usize, part: u32) -> usize
    ensures most { result ≤ len }
    ensures rest { result < len → (whole < result) × (0 < part) }
{
    if part == 0 {
        return len;
    }
    len.min(whole.saturating_add(1))
}

/// Moves each place up by `count`. A place that would move past the last word is lost.
pub(crate) fn advance(words: &mut [u64], count: usize)
    ensures len { length words.new ≡ length words.old }
    ensures moves { Moves words.old words.new count count }
{
    let whole = count / 64;
    let part = (count % 64) as u32;
    let edge = edge(words.len(), whole, part);
    for place in (edge..words.len()).rev() {
        words[place] = joined(words, place, whole, part);
    }
    for place in (0..edge).rev() {
        words[place] = moved(words, place, whole, part);
    }
}

/// Adds, for each place, the one that lies `count` above it. A place past the last word is not added.
fn spread(words: &mut [u64], count: usize)
    ensures len { length words.new ≡ length words.old }
    ensures adds { (q : ℕ)
        → IsPlace words.new q
        ↔ (IsPlace words.old q ⊎ ((q < 64 * length words.old) × (count ≤ q) × IsPlace words.old (q - count))) }
{
    let whole = count / 64;
    let part = (count % 64) as u32;
    let edge = edge(words.len(), whole, part);
    for place in (edge..words.len()).rev() {
        words[place] |= joined(words, place, whole, part);
    }
    for place in (0..edge).rev() {
        words[place] |= moved(words, place, whole, part);
    }
}

/// Adds all places that lie at most `most` above one of the set. The number of rounds grows with the logarithm of
/// `most`.
pub(crate) fn widen(words: &mut [u64], most: usize)
    ensures len { length words.new ≡ length words.old }
    ensures moves { Moves words.old words.new 0 most }
{
    let mut done = 0;
    while done < most {
        let count = (most - done).min(done + 1);
        spread(words, count);
        done += count;
    }
}
