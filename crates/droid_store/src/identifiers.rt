//! The identifiers of a file's formats. The database keeps them in one text, joined by a space.

ghost use Rattle.std.specs.Prelude.{◌≡◌, ◌++◌, ◌∷◌, IfOk, OnOk, if◌then◌else◌, string_bytes, ◌==◌};
ghost use Rattle.std.specs.List.{slice_split};
ghost use Rattle.droid_store.specs.Encoded.{joined, words_of};

use droid_frame::{Text, Texts};
use std::alloc::{AllocError, Global};

/// Joins the words by a space; without words the text is empty. Fails only if memory runs out.
pub(crate) fn join(alloc: Global, words: &Texts) -> Result<String, AllocError>
    ensures { IfOk result (λ text. string_bytes text ≡ joined words.now) }
{
    let mut text = String::new(alloc);
    for place in 0..words.len() {
        let word = words.get(place).unwrap();
        append(&mut text, word.as_str(), place == 0)?;
    }
    Ok(text)
}

/// Appends a word, behind a space if it isn't the first. Fails only if memory runs out; `join` then drops the text.
fn append(text: &mut String, word: &str, is_first: bool) -> Result<(), AllocError>
    ensures { OnOk result
        (string_bytes text.new ≡ string_bytes text.old ++ (if is_first then word.now else 32 ∷ word.now)) }
{
    if !is_first {
        text.push(' ')?;
    }
    text.push_str(word)
}

/// Splits a text that `join` made into its words; the empty text has none. Fails only if memory runs out.
pub(crate) fn words(alloc: Global, text: &str) -> Result<Texts, AllocError>
    ensures { IfOk result (λ words. words ≡ words_of text.now) }
{
    if text.is_empty() {
        return Ok(Texts::new(alloc));
    }
    split(alloc, text)
}

/// Splits a text at each of its spaces. Unlike `words`, it makes one empty word of the empty text.
fn split(alloc: Global, text: &str) -> Result<Texts, AllocError>
    ensures { IfOk result (λ words. words ≡ slice_split (λ byte. byte == 32) text.now) }
{
    let mut words = Texts::new(alloc);
    for word in text.split(' ') {
        words.push(Text::copy_of(alloc, word)?)?;
    }
    Ok(words)
}
