//! Identifiers as one text, separated by spaces.

ghost use Rattle.std.specs.Prelude.{IfOk};
ghost use Rattle.std.specs.List.{AllByRecursion};
ghost use Rattle.droid_store.specs.Changes.{IsWord};

use crate::store::commands::expect;
use droid_frame::{Text, Texts};
use droid_store::StoreFault;
use std::alloc::Global;

fn word(alloc: Global, text: &str) -> Result<Text, StoreFault>
    ensures { IfOk result IsWord }
{
    expect(!text.is_empty())?;
    let has_space = text.as_bytes().contains(&b' ');
    expect(!has_space)?;
    Ok(Text::copy_of(alloc, text)?)
}

/// The identifiers as a list.
pub fn words(alloc: Global, text: &str) -> Result<Texts, StoreFault>
    ensures { IfOk result (λ words. AllByRecursion IsWord words) }
{
    let mut words = Texts::new(alloc);
    if text.is_empty() {
        return Ok(words);
    }
    for item in text.split(' ') {
        words.push(word(alloc, item)?)?;
    }
    Ok(words)
}

/// Whether the list has these identifiers.
pub fn are_words(texts: &Texts, wanted: &str) -> bool {
    if wanted.is_empty() {
        return texts.is_empty();
    }
    let mut all = true;
    let mut count = 0usize;
    for word in wanted.split(' ') {
        match texts.get(count) {
            Some(text) => all &= text.as_str() == word,
            None => all = false,
        }
        count = count.wrapping_add(1);
    }
    all & (texts.len() == count)
}
