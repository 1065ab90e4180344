//! The bit sets of classes: computes the set of places at which a byte of a class stands, caches it, and moves a
//! pattern's places over one byte of a class with it.
//!
//! 64 is the number of bits of a word (`IsPlace` of `specs/Places.antt`), here as in `Direction::next_bytes`; the
//! prover ties them. After an error the cached sets are still right, as far as they go; of a pattern's places nothing
//! is promised then, since the match ends and the next one sets its places anew.

ghost use Rattle.std.specs.Prelude.{◌≡◌, ◌↔◌, ◌+◌, ◌*◌, ◌<◌, ◌≤◌, ℕ, IsTrue, true, [], OnOk, length};
ghost use Rattle.std.specs.Int.{bit_at};
ghost use Rattle.droid_pattern.specs.Places.{IsPlace};
ghost use Rattle.droid_pattern.specs.Tokens.{accepts};
ghost use Rattle.droid_pattern.specs.Positions.{byte_behind, IsSetOf, AreSetsOf};

use crate::bit_sets::bit_set::BitSet;
use crate::class::Class;
use crate::direction::Direction;
use memchr::memchr;
use std::alloc::{AllocError, Global};

/// A class and its bit set, computed for as many words as a pattern has needed so far.
///
/// Place p is in the set if the next byte after p, in the direction of the match, is in the class.
#[derive(Drop)]
pub(crate) struct ClassSet {
    pub(crate) class: Class,
    pub(crate) bits: BitSet,
}

impl ClassSet {
    /// Makes a set with no words. It is right for every class, so the class that it gets means nothing. Takes no
    /// memory.
    fn new(alloc: Global) -> ClassSet
        ensures { result.bits ≡ [] }
    {
        ClassSet {
            class: Class::Byte(0),
            bits: BitSet::new(alloc),
        }
    }

    /// Makes this the set of `class`, computed for at least `count` words. Words of this class that are there stay;
    /// those of another class are dropped.
    fn prepare(
        &mut self,
        alloc: Global,
        class: Class,
        count: usize,
        bytes: &[u8],
        direction: Direction,
    ) -> Result<(), AllocError>
        requires bits { IsSetOf direction bytes.now self.old.class self.old.bits }
        ensures bits { IsSetOf direction bytes.now self.new.class self.new.bits }
        ensures class { OnOk result (self.new.class ≡ class) }
        ensures count { OnOk result (count ≤ length self.new.bits) }
    {
        if self.class != class {
            self.class = class;
            self.bits = BitSet::new(alloc);
        }
        extend(&mut self.bits, class, count, bytes, direction)
    }
}

/// Adds words to the bit set of a class until it has at least `count`.
fn extend(
    bits: &mut BitSet,
    class: Class,
    count: usize,
    bytes: &[u8],
    direction: Direction,
) -> Result<(), AllocError>
    requires { IsSetOf direction bytes.now class bits.old }
    ensures bits { IsSetOf direction bytes.now class bits.new }
    ensures count { OnOk result (count ≤ length bits.new) }
{
    for place in bits.len()..count {
        bits.push(word_of(class, place, bytes, direction))?;
    }
    Ok(())
}

/// Returns the word at index `place` of the bit set of a class: its bit i says whether the byte after 64 × `place` + i
/// bytes, in this direction, is in the class. Bits past the end of the bytes are 0.
fn word_of(class: Class, place: usize, bytes: &[u8], direction: Direction) -> u64
    ensures { (i : ℕ) → i < 64 → (bit_at result i ≡ 1)
        ↔ ((64 * place + i < length bytes.now)
        × (accepts class (byte_behind direction bytes.now (64 * place + i)) ≡ true)) }
{
    let start = place.saturating_mul(64);
    // For speed; no clause needs it.
    let absent = lacks(class, start, bytes, direction);
    if absent {
        return 0;
    }
    word_by_byte(class, start, bytes, direction)
}

/// Returns whether the 64 bytes from `start` on, in this direction, are known to have none of the class. Only `true`
/// promises anything: it spares `word_of` a look at each byte.
fn lacks(class: Class, start: usize, bytes: &[u8], direction: Direction) -> bool
    ensures { IsTrue result → (i : ℕ) → i < 64 → start + i < length bytes.now
        → accepts class (byte_behind direction bytes.now (start + i)) ≡ true → ⊥ }
{
    match class {
        Class::Byte(wanted) => memchr(wanted, direction.next_bytes(bytes, start)).is_none(),
        Class::Range { .. } | Class::Except(_) => false,
    }
}

/// Returns the word for the 64 bytes after the first `start`, in this direction: bit i is 1 if the byte after `start` +
/// i bytes is in the class. Looks at each byte.
fn word_by_byte(class: Class, start: usize, bytes: &[u8], direction: Direction) -> u64
    ensures { (i : ℕ) → i < 64 → (bit_at result i ≡ 1)
        ↔ ((start + i < length bytes.now) × (accepts class (byte_behind direction bytes.now (start + i)) ≡ true)) }
{
    let mut word = 0;
    for i in 0..bytes.len().saturating_sub(start).min(64) {
        if class.accepts(direction.byte_behind(bytes, start + i)) {
            word |= 1u64 << i;
        }
    }
    word
}

/// Keeps the places whose next byte, in this direction, is in the class, and moves each of them up by one. `sets` has
/// the cached sets for these bytes and this direction.
pub(crate) fn one(
    sets: &mut Vec<ClassSet>,
    bits: &mut BitSet,
    class: Class,
    alloc: Global,
    bytes: &[u8],
    direction: Direction,
) -> Result<(), AllocError>
    requires sets { AreSetsOf direction bytes.now sets.old.items }
    ensures sets { AreSetsOf direction bytes.now sets.new.items }
    ensures moved { OnOk result ((q : ℕ) → IsPlace bits.new q ↔ ((p : ℕ) × IsPlace bits.old p × (q ≡ p + 1)
        × (p < length bytes.now) × (accepts class (byte_behind direction bytes.now p) ≡ true))) }
{
    match class {
        // A range is the intersection of two sets, so that many ranges need few sets.
        Class::Range { low, high } => {
            keep_class(
                sets,
                bits,
                Class::Range { low, high: 255 },
                alloc,
                bytes,
                direction,
            )?;
            step_class(
                sets,
                bits,
                Class::Range { low: 0, high },
                alloc,
                bytes,
                direction,
            )
        }
        Class::Byte(_) | Class::Except(_) => step_class(sets, bits, class, alloc, bytes, direction),
    }
}

/// Does the work of `one` with the set of the class itself, whatever the class is.
fn step_class(
    sets: &mut Vec<ClassSet>,
    bits: &mut BitSet,
    class: Class,
    alloc: Global,
    bytes: &[u8],
    direction: Direction,
) -> Result<(), AllocError>
    requires sets { AreSetsOf direction bytes.now sets.old.items }
    ensures sets { AreSetsOf direction bytes.now sets.new.items }
    ensures moved { OnOk result ((q : ℕ) → IsPlace bits.new q ↔ ((p : ℕ) × IsPlace bits.old p × (q ≡ p + 1)
        × (p < length bytes.now) × (accepts class (byte_behind direction bytes.now p) ≡ true))) }
{
    let slot = class.slot();
    fill_slots(sets, alloc, slot + 1, bytes, direction)?;
    // With one more word, `keep_step` does both steps in one pass.
    let count = bits.len().saturating_add(1);
    sets[slot].prepare(alloc, class, count, bytes, direction)?;
    bits.keep_step(&sets[slot].bits)
}

/// Keeps the places whose next byte, in this direction, is in the class, and doesn't move them.
fn keep_class(
    sets: &mut Vec<ClassSet>,
    bits: &mut BitSet,
    class: Class,
    alloc: Global,
    bytes: &[u8],
    direction: Direction,
) -> Result<(), AllocError>
    requires sets { AreSetsOf direction bytes.now sets.old.items }
    ensures sets { AreSetsOf direction bytes.now sets.new.items }
    ensures kept { OnOk result ((p : ℕ) → IsPlace bits.new p
        ↔ (IsPlace bits.old p × (p < length bytes.now) × (accepts class (byte_behind direction bytes.now p) ≡ true))) }
{
    let slot = class.slot();
    fill_slots(sets, alloc, slot + 1, bytes, direction)?;
    sets[slot].prepare(alloc, class, bits.len(), bytes, direction)?;
    bits.keep(&sets[slot].bits);
    Ok(())
}

/// Adds sets with no words until there are at least `count` sets, so that the slots below `count` can be used.
fn fill_slots(
    sets: &mut Vec<ClassSet>,
    alloc: Global,
    count: usize,
    bytes: &[u8],
    direction: Direction,
) -> Result<(), AllocError>
    requires sets { AreSetsOf direction bytes.now sets.old.items }
    ensures sets { AreSetsOf direction bytes.now sets.new.items }
    ensures count { OnOk result (count ≤ length sets.new.items) }
{
    while sets.len() < count {
        sets.push(ClassSet::new(alloc))?;
    }
    Ok(())
}
