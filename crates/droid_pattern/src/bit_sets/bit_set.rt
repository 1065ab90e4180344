//! A set of places as 64-bit words: the type by which the rest of the crate uses this folder.

ghost use Rattle.std.specs.Prelude.{◌≡◌, ◌↔◌, ◌⊎◌, ◌<◌, ◌≤◌, ◌+◌, ◌^◌, ℕ, OnOk, OnErr, true, false, [], ◌∷◌, ◌++◌};
ghost use Rattle.std.specs.Prelude.{length};
ghost use Rattle.droid_pattern.specs.Places.{IsPlace};

use crate::bit_sets::combination::{join, keep};
use crate::bit_sets::ends::has_none;
use crate::bit_sets::gap::{cross, step};
use crate::bit_sets::masked_step::keep_step;
use crate::bit_sets::run::push_runs;
use std::alloc::{AllocError, Global};
use std::marker::Model;

/// A set of places, which are whole numbers from 0 on.
///
/// Its memory and the time of each call grow with the highest place that it has had. Contracts see its words, and
/// `IsPlace` says which places these words hold.
#[derive(Drop)]
pub struct BitSet {
    words: Vec<u64>,
}

impl Model for BitSet {
    ghost use Rattle.std.specs.Prelude.{List, ℕ};

    ghost Value = { List ℕ };

    ghost view = { λ set. set.words.items };
}

impl BitSet {
    /// Makes an empty set. Takes no memory.
    pub fn new(alloc: Global) -> BitSet
        ensures { result ≡ [] }
    {
        BitSet {
            words: Vec::new(alloc),
        }
    }

    /// Returns the number of words. Every place is below 64 times this number.
    pub fn len(&self) -> usize
        ensures { result ≡ length self.now }
    {
        self.words.len()
    }

    /// Adds a word at the end: its bit i stands for the place 64 × `len` + i, where `len` is the number of words
    /// before.
    pub fn push(&mut self, word: u64) -> Result<(), AllocError>
        ensures added { OnOk result (self.new ≡ self.old ++ word ∷ []) }
        ensures stays { OnErr result (self.new ≡ self.old) }
    {
        self.words.push(word)?;
        Ok(())
    }

    /// Returns whether the set is empty.
    pub fn is_empty(&self) -> bool
        ensures none { result ≡ true → (p : ℕ) → IsPlace self.now p → ⊥ }
        ensures some { result ≡ false → (p : ℕ) × IsPlace self.now p }
    {
        has_none(&self.words)
    }

    /// Replaces the places by those from `low` to `high`, both included; none if `low` is above `high`.
    pub fn set_range(&mut self, low: usize, high: usize) -> Result<(), AllocError>
        requires { high < 2 ^ 63 }
        ensures { OnOk result ((p : ℕ) → IsPlace self.new p ↔ ((low ≤ p) × (p ≤ high))) }
    {
        push_runs(&mut self.words, low, high)
    }

    /// Replaces the places by those of the other set.
    pub fn set_from(&mut self, other: &BitSet) -> Result<(), AllocError>
        ensures { OnOk result (self.new ≡ other.now) }
    {
        self.words.clear();
        self.words.extend_from_slice(&other.words)?;
        Ok(())
    }

    /// Keeps the places that both sets have: their intersection.
    pub fn keep(&mut self, other: &BitSet)
        ensures { (p : ℕ) → IsPlace self.new p ↔ (IsPlace self.old p × IsPlace other.now p) }
    {
        keep(&mut self.words, &other.words);
    }

    /// Keeps the places that both sets have, and moves each of them up by one.
    pub fn keep_step(&mut self, other: &BitSet) -> Result<(), AllocError>
        ensures { OnOk result ((q : ℕ)
            → IsPlace self.new q ↔ ((p : ℕ) × IsPlace self.old p × IsPlace other.now p × (q ≡ p + 1))) }
    {
        keep_step(&mut self.words, &other.words)
    }

    /// Adds the places of the other set: the union of both.
    pub fn join(&mut self, other: &BitSet) -> Result<(), AllocError>
        ensures { OnOk result ((p : ℕ) → IsPlace self.new p ↔ (IsPlace self.old p ⊎ IsPlace other.now p)) }
    {
        join(&mut self.words, &other.words)
    }

    /// Moves each place up by one.
    pub fn step(&mut self) -> Result<(), AllocError>
        ensures { OnOk result ((q : ℕ) → IsPlace self.new q ↔ ((p : ℕ) × IsPlace self.old p × (q ≡ p + 1))) }
    {
        step(&mut self.words)
    }

    /// Replaces the places by all those that lie from `least` to `least + more` above one of them and are at most
    /// `len`, the number of bytes: a move over a gap.
    pub fn cross(&mut self, least: usize, more: usize, len: usize) -> Result<(), AllocError>
        requires small { (least < 2 ^ 62) × (more < 2 ^ 63) × (len < 2 ^ 63) }
        ensures { OnOk result ((q : ℕ) → IsPlace self.new q
            ↔ ((q ≤ len) × ((p : ℕ) × IsPlace self.old p × (p + least ≤ q) × (q ≤ p + (least + more))))) }
    {
        cross(&mut self.words, least, more, len)
    }
}
