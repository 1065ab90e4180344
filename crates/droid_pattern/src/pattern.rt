//! The pattern of a byte sequence: reads it, and looks for its matches. One offset is compared directly, if that
//! decides it; anything else is matched by sets of places.

ghost use Rattle.std.specs.Prelude.{◌≡◌, ◌↔◌, ◌≤◌, List, length, IsTrue, IfOk, IfSome, OnErr, IsErrOf};
ghost use Rattle.droid_pattern.specs.Patterns.{Element, MatchesFrom, MatchesTo, BeginsWithin, EndsWithin};
ghost use Rattle.droid_pattern.specs.FirstBytes.{AreFirst};
ghost use Rattle.droid_pattern.specs.PatternText.{Spells};
ghost use Rattle.droid_pattern.specs.ClassCaches.{AreOf};

use crate::class_cache::ClassCache;
use crate::compact_form::{Packed, pack};
use crate::direct_match::{settled_at, settled_before};
use crate::direction::Direction;
use crate::first_bytes::FirstBytes;
use crate::parser::tokens_of;
use crate::pattern_fault::PatternFault;
use crate::token::any_byte;
use std::alloc::{AllocError, Global};
use std::marker::Model;

/// The most bytes that the text of a pattern may have. This limit is the project's own. `Spells` of
/// `specs/PatternText.antt` has the same number, and the prover ties them.
const TEXT_LIMIT: usize = 4096;

/// The pattern of a byte sequence, in a part of PRONOM's syntax. Contracts see the list of its elements.
///
/// Matching keeps sets of places and needs no backtracking: its time grows with the number of elements and the number
/// of bytes, not with the product of the gaps.
#[derive(Drop)]
pub struct Pattern {
    packed: Packed,
}

impl Model for Pattern {
    ghost use Rattle.std.specs.Prelude.{List};
    ghost use Rattle.droid_pattern.specs.Patterns.{Element};

    ghost Value = { List Element };

    ghost use Rattle.droid_pattern.specs.Cells.{elements_of};

    ghost view = { λ pattern. elements_of pattern.packed };
}

impl Pattern {
    /// Reads the text of a pattern.
    ///
    /// `61` is that byte, `??` any byte, `{3}`, `{2-5}`, `{2-*}` and `*` a gap of that many bytes, `[61:7A]` a byte of
    /// a range, `[!61]` any other byte, and `(61|6263)` one of several runs of bytes. A text has at most 4,096 bytes,
    /// and at least one element is not a gap. Any other text is an error, `BadPattern`; `Memory` is the other one.
    pub fn read(alloc: Global, text: &str) -> Result<Pattern, PatternFault>
        // The text spells the pattern that is returned.
        ensures spelled { IfOk result (λ pattern. Spells text.now pattern) }
        // A text spells at most one pattern.
        ensures only { (es : List Element) → Spells text.now es → IfOk result (λ pattern. pattern ≡ es) }
        ensures bad { IsErrOf result PatternFault.BadPattern → (es : List Element) → Spells text.now es → ⊥ }
    {
        let text = text.as_bytes();
        if text.len() > TEXT_LIMIT {
            return Err(PatternFault::BadPattern);
        }
        let tokens = tokens_of(alloc, text)?;
        if !any_byte(&tokens) {
            return Err(PatternFault::BadPattern);
        }
        let packed = pack(alloc, &tokens)?;
        Ok(Pattern { packed })
    }

    /// Returns the bytes with which a match can begin, if the pattern's first element limits them: a byte, a range of
    /// bytes, or alternatives none of which is empty. `None` promises nothing; it is always right.
    pub fn first_bytes(&self) -> Option<FirstBytes>
        ensures { IfSome result (λ few. AreFirst few self.now) }
    {
        let cell = self.packed.cells.first()?;
        cell.first_bytes(self.packed.pool.as_slice())
    }

    /// Returns whether a match begins at this position, after the first `at` bytes. The specification names this call;
    /// a registry calls `begins_with`.
    pub fn matches_from(&self, alloc: Global, bytes: &[u8], at: usize) -> Result<bool, AllocError>
        requires { at ≤ length bytes.now }
        ensures { IfOk result (λ found. IsTrue found ↔ MatchesFrom self.now bytes.now at) }
    {
        let mut classes = ClassCache::new(alloc);
        self.begins_with(alloc, bytes, at, at, &mut classes)
    }

    /// Returns whether a match ends just before this position, with the first `end` bytes. The specification names this
    /// call; a registry calls `ends_with`.
    pub fn matches_to(&self, alloc: Global, bytes: &[u8], end: usize) -> Result<bool, AllocError>
        requires { end ≤ length bytes.now }
        ensures { IfOk result (λ found. IsTrue found ↔ MatchesTo self.now bytes.now end) }
    {
        let mut classes = ClassCache::new(alloc);
        self.ends_with(alloc, &bytes[..end], 0, 0, &mut classes)
    }

    /// Returns whether a match begins at an offset from `low` to `high`, both included, from the start of the bytes.
    /// `high` may lie past their end.
    ///
    /// `classes` caches what is known of these bytes, so that the next pattern is faster.
    pub fn begins_with(
        &self,
        alloc: Global,
        bytes: &[u8],
        low: usize,
        high: usize,
        classes: &mut ClassCache,
    ) -> Result<bool, AllocError>
        requires { AreOf bytes.now classes.old }
        ensures classes { AreOf bytes.now classes.new }
        ensures found { IfOk result (λ found. IsTrue found ↔ BeginsWithin self.now bytes.now low high) }
    {
        if low == high {
            if let Some(found) = self.settled_from(bytes, low) {
                return Ok(found);
            }
        }
        self.begins_by_sets(alloc, bytes, low, high, classes)
    }

    /// Returns whether a match begins at this offset if a comparison with the bytes there decides it, and `None` if
    /// sets are needed. `None` promises nothing.
    fn settled_from(&self, bytes: &[u8], at: usize) -> Option<bool>
        ensures { IfSome result (λ found. IsTrue found ↔ BeginsWithin self.now bytes.now at at) }
    {
        if bytes.len() < at {
            return Some(false);
        }
        settled_at(&self.packed.cells, &self.packed.pool, bytes, at)
    }

    /// Does the work of `begins_with` by sets of places: takes the offsets from `low` to `high`, and replaces them,
    /// cell by cell, by the places after the cell. A match is found if a place is left after the last cell.
    fn begins_by_sets(
        &self,
        alloc: Global,
        bytes: &[u8],
        low: usize,
        high: usize,
        classes: &mut ClassCache,
    ) -> Result<bool, AllocError>
        requires { AreOf bytes.now classes.old }
        ensures classes { AreOf bytes.now classes.new }
        ensures found { IfOk result (λ found. IsTrue found ↔ BeginsWithin self.now bytes.now low high) }
    {
        let len = bytes.len();
        classes.places.set_range(low, high.min(len))?;
        let pool = self.packed.pool.as_slice();
        for cell in &self.packed.cells {
            if classes.places.is_empty() {
                return Ok(false);
            }
            cell.step(
                pool,
                &mut classes.toward_end,
                &mut classes.places,
                alloc,
                bytes,
                Direction::End,
            )?;
        }
        Ok(!classes.places.is_empty())
    }

    /// Returns whether a match ends at an offset from `low` to `high`, both included, before the end of the bytes.
    /// `high` may be more than there are bytes.
    ///
    /// `classes` caches what is known of these bytes, so that the next pattern is faster.
    pub fn ends_with(
        &self,
        alloc: Global,
        bytes: &[u8],
        low: usize,
        high: usize,
        classes: &mut ClassCache,
    ) -> Result<bool, AllocError>
        requires { AreOf bytes.now classes.old }
        ensures classes { AreOf bytes.now classes.new }
        ensures found { IfOk result (λ found. IsTrue found ↔ EndsWithin self.now bytes.now low high) }
    {
        if high == low {
            if let Some(found) = self.settled_to(bytes, low) {
                return Ok(found);
            }
        }
        self.ends_by_sets(alloc, bytes, low, high, classes)
    }

    /// Returns whether a match ends at this offset from the end if a comparison with the bytes before it decides it,
    /// and `None` if sets are needed. `None` promises nothing.
    fn settled_to(&self, bytes: &[u8], offset: usize) -> Option<bool>
        ensures { IfSome result (λ found. IsTrue found ↔ EndsWithin self.now bytes.now offset offset) }
    {
        if bytes.len() < offset {
            return Some(false);
        }
        settled_before(&self.packed.cells, bytes, bytes.len() - offset)
    }

    /// Does the work of `ends_with` by sets of places, as `begins_by_sets`, but from the end of the bytes toward their
    /// start, and from the last cell to the first.
    fn ends_by_sets(
        &self,
        alloc: Global,
        bytes: &[u8],
        low: usize,
        high: usize,
        classes: &mut ClassCache,
    ) -> Result<bool, AllocError>
        requires { AreOf bytes.now classes.old }
        ensures classes { AreOf bytes.now classes.new }
        ensures found { IfOk result (λ found. IsTrue found ↔ EndsWithin self.now bytes.now low high) }
    {
        let len = bytes.len();
        classes.places.set_range(low, len.min(high))?;
        let pool = self.packed.pool.as_slice();
        let mut rest = self.packed.cells.as_slice();
        while let [before @ .., cell] = rest {
            if classes.places.is_empty() {
                return Ok(false);
            }
            cell.step(
                pool,
                &mut classes.toward_start,
                &mut classes.places,
                alloc,
                bytes,
                Direction::Start,
            )?;
            rest = before;
        }
        Ok(!classes.places.is_empty())
    }
}
