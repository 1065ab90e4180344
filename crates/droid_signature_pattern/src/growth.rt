//! Texts that grow by one list of texts after another. Such a list is a level: any of its texts may stand at that
//! place.

ghost use Rattle.std.specs.Prelude.{◌≡◌, ◌⊎◌, ◌<◌, ◌∷◌, [], IsTrue, IfOk, OnOk, length};
ghost use Rattle.std.specs.List.{Any};
ghost use Rattle.droid_signature_pattern.specs.Outcomes.{AreTooMuch, HasLong, IfLeftOut, IsTooMuch};
ghost use Rattle.droid_signature_pattern.specs.Texts.{AreSmall};
ghost use Rattle.droid_signature_pattern.specs.Texts as spec;

use crate::pattern_texts::{MOST_BYTES, PatternTexts};
use crate::reason::{Reason, Stop};
use std::alloc::{AllocError, Global};
use std::marker::Model;

/// Returns the texts of several levels, one behind the other, each with each: at most 64 texts of at most 4,096 bytes,
/// with at most 16,384 bytes in all. Ends at the first level with which they are more.
pub fn expanded(alloc: Global, levels: &[PatternTexts]) -> Result<PatternTexts, Stop>
    ensures ok { IfOk result (λ texts. texts ≡ spec.joined_all levels.now) }
    ensures small { IfOk result AreSmall }
    ensures err { IfLeftOut result (AreTooMuch levels.now) }
{
    let mut growing = Growing::new(alloc)?;
    for level in levels {
        growing.push(alloc, level)?;
    }
    let texts = growing.texts(alloc)?;
    Ok(texts)
}

/// Texts, and a text that stands behind each of them. It grows in place where one text follows. After an error nothing
/// is promised of it: each caller drops it.
#[derive(Drop)]
pub struct Growing {
    texts: PatternTexts,
    last: Vec<u8>,
}

impl Model for Growing {
    ghost use Rattle.std.specs.Prelude.{List, ℕ, ◌∷◌, []};
    ghost use Rattle.droid_signature_pattern.specs.Texts.{joined};

    ghost Value = { List (List ℕ) };

    ghost view = { λ it. joined it.texts (it.last.items ∷ []) };
}

impl Growing {
    /// Begins with one empty text: what follows becomes its texts. Fails only if memory runs out.
    pub(crate) fn new(alloc: Global) -> Result<Growing, AllocError>
        ensures { IfOk result (λ growing. growing ≡ [] ∷ []) }
    {
        let texts = PatternTexts::one(alloc, Vec::new(alloc))?;
        Ok(Growing::of(alloc, texts))
    }

    /// Begins with these texts. Allocates nothing.
    pub fn of(alloc: Global, texts: PatternTexts) -> Growing
        ensures { result ≡ texts }
    {
        Growing {
            texts,
            last: Vec::new(alloc),
        }
    }

    /// Appends each text of a level to each text. Stops early if that is too much for a registry: the rest need not be
    /// written. The reason may be one of the texts before, which levels of one text leave unjudged.
    pub fn push(&mut self, alloc: Global, level: &PatternTexts) -> Result<(), Stop>
        ensures ok { OnOk result (self.new ≡ spec.joined self.old level.now) }
        ensures err { IfLeftOut result (λ reason.
            IsTooMuch self.old reason ⊎ IsTooMuch (spec.joined self.old level.now) reason) }
    {
        if level.len() == 1 {
            return self.push_one(level.get(0));
        }
        let texts = self.texts(alloc)?;
        self.texts = texts.joined(alloc, level)?;
        self.last.clear();
        Ok(())
    }

    /// Appends a text to each text, in place. How many bytes all have is not checked here: `texts` does.
    fn push_one(&mut self, text: &[u8]) -> Result<(), Stop>
        ensures ok { OnOk result (self.new ≡ spec.joined self.old (text.now ∷ [])) }
        ensures err { IfLeftOut result (HasLong (spec.joined self.old (text.now ∷ []))) }
    {
        self.last.extend_from_slice(text)?;
        if self.is_long() {
            return Err(Stop::LeftOut(Reason::LongPattern));
        }
        Ok(())
    }

    /// Returns whether there are texts, and what stands behind each has more than 4,096 bytes alone. This is only for
    /// stopping early, and the clause takes any `false`: `texts` judges all.
    fn is_long(&self) -> bool
        ensures { IsTrue result → Any (λ text. 4096 < length text) self.now }
    {
        !self.texts.is_empty() && self.last.len() > MOST_BYTES
    }

    /// Returns a copy of the texts, each whole, if they are not too much for a registry.
    pub fn texts(&self, alloc: Global) -> Result<PatternTexts, Stop>
        ensures ok { IfOk result (λ texts. texts ≡ self.now) }
        ensures small { IfOk result AreSmall }
        ensures err { IfLeftOut result (IsTooMuch self.now) }
    {
        let last = Vec::from_slice(alloc, self.last.as_slice())?;
        let last = PatternTexts::one(alloc, last)?;
        let texts = self.texts.joined(alloc, &last)?;
        Ok(texts)
    }
}
