//! The words of a line: cut at spaces, and read as numbers or truth values.

ghost use Rattle.std.specs.Prelude.{◌≡◌, ◌==◌, ◌^◌, slice_index};
ghost use Rattle.std.specs.Option.{option_map};
ghost use Rattle.droid_lines.specs.Words.{cut_at, first_word, number_below, signed_number, truth_word, number_word};
ghost use Rattle.droid_lines.specs.Words.{signed_word};

/// Returns the text before the first space (byte 32), and the text after it. `None`: there is no space.
pub fn word(text: &str) -> Option<(&str, &str)>
    ensures { option_map (λ x. (x.0.now, x.1.now)) result ≡ cut_at 32 text.now }
{
    text.split_once(' ')
}

/// Returns the first word, and the text after the space, if there is one. Without a space the whole text is a word.
#[tactic(auto, unfolding(crate::specs::Words::first_word))]
pub fn first_word(text: &str) -> (&str, Option<&str>)
    ensures { (result.0.now, option_map (λ x. x.now) result.1) ≡ first_word text.now }
{
    match word(text) {
        Some((first, rest)) => (first, Some(rest)),
        None => (text, None),
    }
}

/// Returns the name before the first `=` (byte 61) of a word, and the value after it. `None`: there is no `=`.
pub fn name_and_value(word: &str) -> Option<(&str, &str)>
    ensures { option_map (λ x. (x.0.now, x.1.now)) result ≡ cut_at 61 word.now }
{
    word.split_once('=')
}

/// Reads an unsigned 32-bit number as the first word. Returns it with the text after the space, which there has to be.
#[tactic(auto, unfolding(crate::specs::Words::number_word))]
pub fn u32_word(text: &str) -> Option<(u32, &str)>
    ensures { option_map (λ x. (x.0, x.1.now)) result ≡ number_word (2 ^ 32) text.now }
{
    let (word, rest) = word(text)?;
    Some((u32_in(word)?, rest))
}

/// Reads an unsigned 64-bit number as the first word. Returns it with the text after the space, which there has to be.
#[tactic(auto, unfolding(crate::specs::Words::number_word))]
pub fn u64_word(text: &str) -> Option<(u64, &str)>
    ensures { option_map (λ x. (x.0, x.1.now)) result ≡ number_word (2 ^ 64) text.now }
{
    let (word, rest) = word(text)?;
    Some((u64_in(word)?, rest))
}

/// Reads a signed 64-bit number as the first word. Returns it with the text after the space, which there has to be.
#[tactic(auto, unfolding(crate::specs::Words::signed_word))]
pub fn i64_word(text: &str) -> Option<(i64, &str)>
    ensures { option_map (λ x. (x.0, x.1.now)) result ≡ signed_word text.now }
{
    let (word, rest) = word(text)?;
    Some((i64_in(word)?, rest))
}

/// Reads a truth value: `0` or `1`.
#[tactic(auto, unfolding(crate::specs::Words::truth_word))]
pub fn truth_in(word: &str) -> Option<bool>
    ensures { result ≡ truth_word word.now }
{
    if word == "0" {
        Some(false)
    } else if word == "1" {
        Some(true)
    } else {
        None
    }
}

/// Reads an unsigned 32-bit number in decimal digits. Unlike `parse`, it accepts no `+`.
pub fn u32_in(word: &str) -> Option<u32>
    ensures { result ≡ number_below (2 ^ 32) word.now }
{
    if has_plus(word) {
        return None;
    }
    word.parse().ok()
}

/// Reads an unsigned 64-bit number in decimal digits. Unlike `parse`, it accepts no `+`.
pub fn u64_in(word: &str) -> Option<u64>
    ensures { result ≡ number_below (2 ^ 64) word.now }
{
    if has_plus(word) {
        return None;
    }
    word.parse().ok()
}

/// Reads a signed 64-bit number in decimal digits. Unlike `parse`, it accepts no `+`.
fn i64_in(word: &str) -> Option<i64>
    ensures { result ≡ signed_number word.now }
{
    if has_plus(word) {
        return None;
    }
    word.parse().ok()
}

/// Returns whether a word begins with `+` (byte 43), which Rust's parser would take. An empty word does not.
fn has_plus(word: &str) -> bool
    ensures { result ≡ (slice_index word.now 0 == 43) }
{
    word.starts_with('+')
}
