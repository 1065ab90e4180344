//! Moves a set of places over a choice between runs of bytes: over each run by itself, byte by byte.

ghost use Rattle.std.specs.Prelude.{OnOk, length};
ghost use Rattle.droid_pattern.specs.Patterns.{Choice};
ghost use Rattle.droid_pattern.specs.Cells.{alternatives_in};
ghost use Rattle.droid_pattern.specs.Positions.{Reaches, IsAt, IsInside, AreSetsOf, IsChain};

use crate::bit_sets::bit_set::BitSet;
use crate::class::Class;
use crate::class_set::{ClassSet, one};
use crate::direction::Direction;
use crate::pool::{cut_run, rest_from};
use crate::short::front_number;
use std::alloc::{AllocError, Global};

/// Replaces the places by those after one of the alternatives. The alternatives stand at the front of `packed`, as
/// `put_choice` of `pool` writes them.
///
/// `sets` has the cached bit sets of classes for these bytes; the call may add some. After an error nothing is promised
/// of `bits`: the match ends, and the next one sets its places anew.
pub(crate) fn choice(
    sets: &mut Vec<ClassSet>,
    bits: &mut BitSet,
    packed: &[u8],
    alloc: Global,
    bytes: &[u8],
    direction: Direction,
) -> Result<(), AllocError>
    requires sets { AreSetsOf direction bytes.now sets.old.items }
    requires inside { IsInside bytes.now bits.old }
    ensures sets { AreSetsOf direction bytes.now sets.new.items }
    ensures inside { OnOk result (IsInside bytes.now bits.new) }
    ensures reaches { OnOk result
        (Reaches direction (Choice (alternatives_in packed.now)) bytes.now (IsAt direction bytes.now bits.old)
        (IsAt direction bytes.now bits.new)) }
{
    let mut found = BitSet::new(alloc);
    let mut chain = BitSet::new(alloc);
    let mut rest = rest_from(packed, 2);
    for _ in 0..front_number(packed) {
        let (run, after) = cut_run(rest);
        chain.set_from(bits)?;
        follow(sets, &mut chain, run, alloc, bytes, direction)?;
        found.join(&chain)?;
        rest = after;
    }
    bits.set_from(&found)
}

/// Keeps the places at which the run `literal` stands, and moves each of them up by its length. Toward the start, the
/// run is compared from its last byte to its first.
fn follow(
    sets: &mut Vec<ClassSet>,
    bits: &mut BitSet,
    literal: &[u8],
    alloc: Global,
    bytes: &[u8],
    direction: Direction,
) -> Result<(), AllocError>
    requires sets { AreSetsOf direction bytes.now sets.old.items }
    ensures sets { AreSetsOf direction bytes.now sets.new.items }
    ensures chain { OnOk result (IsChain direction bytes.now literal.now (length literal.now) bits.old bits.new) }
{
    for place in 0..literal.len() {
        let wanted = direction.byte_behind(literal, place);
        one(sets, bits, Class::Byte(wanted), alloc, bytes, direction)?;
    }
    Ok(())
}
