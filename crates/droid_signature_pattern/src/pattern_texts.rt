//! Lists of texts of patterns, any of which has to match, and how much of them a registry takes.

ghost use Rattle.std.specs.Prelude.{◌≡◌, ◌⊎◌, ◌<◌, ◌≤◌, ◌+◌, ◌*◌, ◌++◌, ◌∷◌, [], ◌==◌, ◌↔◌, IsTrue, length};
ghost use Rattle.std.specs.Prelude.{slice_index_or, IfOk, OnOk};
ghost use Rattle.droid_signature_pattern.specs.Texts as spec;
ghost use Rattle.droid_signature_pattern.specs.Texts.{AreShort, AreSmall};
ghost use Rattle.droid_signature_pattern.specs.Outcomes.{HasLong, HasMuch, IfLeftOut, IsTooMuch};

use crate::pattern_text::PatternText;
use crate::reason::{Reason, Stop};
use std::alloc::{AllocError, Global};
use std::marker::Model;

/// The most patterns that may stand for a byte sequence or a part of one. This limit is the project's own.
///
/// This number and the two below stand in the definitions too: `AreSmall` has all three, `HasMany`, `HasLong` and
/// `HasMuch` one each, `AreShort` and `IsLong` the second; and in clauses here, in `growth.rt` and in `choices.rt`. The
/// prover ties them.
const MOST_PATTERNS: usize = 64;

/// The most bytes of a pattern's text, as in a registry (`TEXT_LIMIT` of `droid_pattern`). `IsTaken` asks that each
/// text is read there (`Spells`), so the prover keeps this number from being larger.
pub(crate) const MOST_BYTES: usize = 4096;

/// The most bytes of all patterns that may stand for a byte sequence. This limit is the project's own.
const MOST_BYTES_IN_ALL: usize = 16_384;

/// Texts of patterns, any of which has to match. In contracts it is the list of them.
pub struct PatternTexts {
    texts: Vec<PatternText>,
}

// Written by hand, so that the crates above do not prove again how each part is dropped.
impl Drop for PatternTexts {
    fn drop(self) {
        let PatternTexts { texts: _texts } = self;
    }
}

impl Model for PatternTexts {
    ghost use Rattle.std.specs.Prelude.{List, ℕ};

    ghost Value = { List (List ℕ) };

    ghost view = { λ it. it.texts.items };
}

impl PatternTexts {
    /// Makes a list without texts. Allocates nothing.
    pub fn new(alloc: Global) -> PatternTexts
        ensures { result ≡ [] }
    {
        PatternTexts {
            texts: Vec::new(alloc),
        }
    }

    /// Makes a list with one text.
    pub fn one(alloc: Global, text: Vec<u8>) -> Result<PatternTexts, AllocError>
        ensures { IfOk result (λ texts. texts ≡ text.items ∷ []) }
    {
        let mut texts = PatternTexts::new(alloc);
        texts.add(text)?;
        Ok(texts)
    }

    /// Returns how many texts there are.
    pub fn len(&self) -> usize
        ensures { result ≡ length self.now }
    {
        self.texts.len()
    }

    /// Returns whether there is no text.
    pub fn is_empty(&self) -> bool
        ensures { result ≡ (length self.now == 0) }
    {
        self.texts.is_empty()
    }

    /// Returns the texts in order.
    pub fn as_slice(&self) -> &[PatternText]
        ensures { result.now ≡ self.now }
    {
        self.texts.as_slice()
    }

    /// Returns the text at a place, counted from 0.
    pub fn get(&self, place: usize) -> &[u8]
        requires { place < length self.now }
        ensures { result.now ≡ slice_index_or self.now place result.now }
    {
        self.texts[place].as_slice()
    }

    /// Adds a text at the end, without a limit: what is too much is found where lists are joined or added.
    pub(crate) fn add(&mut self, text: Vec<u8>) -> Result<(), AllocError>
        ensures { OnOk result (self.new ≡ self.old ++ text.items ∷ []) }
    {
        self.texts.push(PatternText::new(text))?;
        Ok(())
    }

    /// Adds the other texts, if there are at most 64 in all (otherwise `ManyAlternatives`), with at most 16,384 bytes
    /// in all (`LongPatterns`). How long one is, is not looked at; where there is none to add, nothing is. After an
    /// error nothing is promised of the list: each caller drops it.
    pub fn add_all(&mut self, others: PatternTexts) -> Result<(), Stop>
        ensures ok { OnOk result (self.new ≡ self.old ++ others) }
        ensures bounded { OnOk result (spec.total self.old ≤ 16384 → spec.total self.new ≤ 16384) }
        ensures err { IfLeftOut result (IsTooMuch (self.old ++ others)) }
    {
        if others.is_empty() {
            return Ok(());
        }
        if is_over(self.len(), others.len()) {
            return Err(Stop::LeftOut(Reason::ManyAlternatives));
        }
        self.append(others)?;
        if are_long(self.as_slice()) {
            return Err(Stop::LeftOut(Reason::LongPatterns));
        }
        Ok(())
    }

    /// Appends other texts, without a limit: `add_all` sees to that.
    fn append(&mut self, others: PatternTexts) -> Result<(), AllocError>
        ensures { OnOk result (self.new ≡ self.old ++ others) }
    {
        let PatternTexts { mut texts } = others;
        self.texts.append(&mut texts)?;
        Ok(())
    }

    /// Returns each text with each of the others behind it: at most 64 texts of at most 4,096 bytes, with at most
    /// 16,384 bytes in all; or that they are more. How many they are is seen before any is written.
    pub(crate) fn joined(&self, alloc: Global, others: &PatternTexts) -> Result<PatternTexts, Stop>
        ensures ok { IfOk result (λ texts. texts ≡ spec.joined self.now others.now) }
        ensures small { IfOk result AreSmall }
        ensures err { IfLeftOut result (IsTooMuch (spec.joined self.now others.now)) }
    {
        if are_many(self.len(), others.len()) {
            return Err(Stop::LeftOut(Reason::ManyAlternatives));
        }
        let texts = join(alloc, self.as_slice(), others.as_slice())?;
        Ok(texts)
    }
}

/// Returns each text with each of the others behind it, if each has at most 4,096 bytes (otherwise `LongPattern`), and
/// all at most 16,384 (`LongPatterns`).
fn join(
    alloc: Global,
    firsts: &[PatternText],
    seconds: &[PatternText],
) -> Result<PatternTexts, Stop>
    ensures ok { IfOk result (λ texts. texts ≡ spec.joined firsts.now seconds.now) }
    ensures short { IfOk result AreShort }
    ensures bounded { IfOk result (λ texts. spec.total texts ≤ 16384) }
    ensures err { IfLeftOut result (λ reason.
        HasLong (spec.joined firsts.now seconds.now) reason ⊎ HasMuch (spec.joined firsts.now seconds.now) reason) }
{
    let mut texts = PatternTexts::new(alloc);
    for first in firsts {
        add_behind(alloc, &mut texts, first.as_slice(), seconds)?;
        if are_long(texts.as_slice()) {
            return Err(Stop::LeftOut(Reason::LongPatterns));
        }
    }
    Ok(texts)
}

/// Returns whether the texts have more than 16,384 bytes in all.
fn are_long(texts: &[PatternText]) -> bool
    ensures { IsTrue result ↔ (16384 < spec.total texts.now) }
{
    let mut left = MOST_BYTES_IN_ALL;
    for text in texts {
        let len = text.as_slice().len();
        if len > left {
            return true;
        }
        left -= len;
    }
    false
}

/// Adds a text for each of the other texts: the first with that one behind it. Ends with `LongPattern` as [`both`].
fn add_behind(
    alloc: Global,
    texts: &mut PatternTexts,
    first: &[u8],
    seconds: &[PatternText],
) -> Result<(), Stop>
    ensures ok { OnOk result (texts.new ≡ texts.old ++ spec.each_behind first.now seconds.now) }
    ensures short { OnOk result (AreShort texts.old → AreShort texts.new) }
    ensures err { IfLeftOut result (HasLong (spec.each_behind first.now seconds.now)) }
{
    for second in seconds {
        let text = both(alloc, first, second.as_slice())?;
        texts.add(text)?;
    }
    Ok(())
}

/// Returns a text with another behind it, if that has at most 4,096 bytes, otherwise `LongPattern`.
fn both(alloc: Global, first: &[u8], second: &[u8]) -> Result<Vec<u8>, Stop>
    ensures ok { IfOk result (λ text. text.items ≡ first.now ++ second.now) }
    ensures short { IfOk result (λ text. length text.items ≤ 4096) }
    ensures err { IfLeftOut result (spec.IsLong (first.now ++ second.now)) }
{
    let len = first.len().saturating_add(second.len());
    if len > MOST_BYTES {
        return Err(Stop::LeftOut(Reason::LongPattern));
    }
    let text = appended(alloc, len, first, second)?;
    Ok(text)
}

/// Copies two texts into one with room for `len` bytes. The room is for speed; no clause needs it.
fn appended(alloc: Global, len: usize, first: &[u8], second: &[u8]) -> Result<Vec<u8>, AllocError>
    ensures { IfOk result (λ text. text.items ≡ first.now ++ second.now) }
{
    let mut text = Vec::with_capacity(alloc, len)?;
    text.extend_from_slice(first)?;
    text.extend_from_slice(second)?;
    Ok(text)
}

/// Returns whether two lists of these lengths have more than 64 texts in all.
fn is_over(first: usize, second: usize) -> bool
    ensures { IsTrue result ↔ (64 < first + second) }
{
    first.saturating_add(second) > MOST_PATTERNS
}

/// Returns whether two lists of these lengths make more than 64 texts, one of each behind the other.
fn are_many(first: usize, second: usize) -> bool
    ensures { IsTrue result ↔ (64 < first * second) }
{
    match first.checked_mul(second) {
        Some(count) => count > MOST_PATTERNS,
        None => true,
    }
}
