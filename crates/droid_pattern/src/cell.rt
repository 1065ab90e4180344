//! The cells of a compact pattern, three bytes each: how a cell is compared with a byte, moves a set of places over it,
//! limits the first byte of a match, and joins the next cell.

ghost use Rattle.std.specs.Prelude.{◌≡◌, ◌↔◌, ◌+◌, ◌++◌, ◌<◌, ◌≤◌, ℕ, List, IfSome, IsTrue, OnOk, length};
ghost use Rattle.droid_pattern.specs.FirstBytes.{BeginsIn};
ghost use Rattle.droid_pattern.specs.Cells.{element_at, elements_at};
ghost use Rattle.droid_pattern.specs.Positions.{Leads, Reaches, IsAt, IsInside, AreSetsOf};

use crate::alternatives::{first_bytes_of, none_stands};
use crate::bit_sets::bit_set::BitSet;
use crate::class::Class;
use crate::class_set::{ClassSet, one};
use crate::direction::Direction;
use crate::first_bytes::FirstBytes;
use crate::pool::{rest_from, short_of};
use crate::short::{Short, front_number};
use crate::step::choice;
use std::alloc::{AllocError, Global};

/// An element of a pattern, or several stars in a row. What needs more than two bytes stands in the pool, at `at`.
#[derive(Clone, Copy)]
pub(crate) enum Cell {
    /// Exactly this byte.
    Byte(u8),
    /// A byte from `low` to `high`, both included.
    Range { low: u8, high: u8 },
    /// Any byte but this one.
    Except(u8),
    /// Any one byte.
    AnyByte,
    /// Any bytes, at least `least`.
    OpenGap { least: Short },
    /// One star and `more` further stars.
    Stars { more: Short },
    /// A gap. The pool has its least length and the number of further bytes that it may have.
    Gap { at: Short },
    /// A choice between the runs of bytes in the pool.
    Choice { at: Short },
}

const _: () = prove!(size_of::<Cell>() == 3);

impl Cell {
    /// Returns whether the cell matches the byte at this place, or `None` if the cell may match other than one byte.
    ///
    /// A choice of which no alternative stands at this place is `Some(false)`. `None` promises nothing.
    pub(crate) fn passes(&self, pool: &[u8], bytes: &[u8], place: usize) -> Option<bool>
        ensures { IfSome result (λ passes.
            (q : ℕ) → Leads (element_at pool.now self.now) bytes.now place q ↔ (IsTrue passes × (q ≡ place + 1))) }
    {
        match self {
            Cell::Byte(wanted) => Some(Class::Byte(*wanted).is_at(bytes, place)),
            Cell::Range { low, high } => {
                let (low, high) = (*low, *high);
                Some(Class::Range { low, high }.is_at(bytes, place))
            }
            Cell::Except(barred) => Some(Class::Except(*barred).is_at(bytes, place)),
            Cell::AnyByte => Some(place < bytes.len()),
            Cell::Choice { at } => {
                let packed = rest_from(pool, at.get());
                let fails = none_stands(packed, bytes, place);
                if fails { Some(false) } else { None }
            }
            Cell::OpenGap { .. } | Cell::Stars { .. } | Cell::Gap { .. } => None,
        }
    }

    /// Returns whether the cell matches the byte just before this position, or `None` if the cell may match other than
    /// one byte. `None` promises nothing.
    pub(crate) fn passes_before(&self, bytes: &[u8], end: usize) -> Option<bool>
        requires { end ≤ length bytes.now }
        ensures some { IfSome result (λ passes. IsTrue passes → 0 < end) }
        ensures leads { IfSome result (λ passes.
            (pool : List ℕ) (p : ℕ)
            → Leads (element_at pool self.now) bytes.now p end ↔ (IsTrue passes × (p + 1 ≡ end))) }
    {
        match self {
            Cell::Byte(wanted) => Some(Class::Byte(*wanted).is_before(bytes, end)),
            Cell::Range { low, high } => {
                let (low, high) = (*low, *high);
                Some(Class::Range { low, high }.is_before(bytes, end))
            }
            Cell::Except(barred) => Some(Class::Except(*barred).is_before(bytes, end)),
            Cell::AnyByte => Some(end > 0),
            Cell::OpenGap { .. } | Cell::Stars { .. } | Cell::Gap { .. } | Cell::Choice { .. } =>
                None,
        }
    }

    /// Returns the bytes with which the cell's match can begin, if it is never empty and not any byte can. `None` is
    /// always right: it only means that nothing is known.
    pub(crate) fn first_bytes(&self, pool: &[u8]) -> Option<FirstBytes>
        ensures { IfSome result (λ few. BeginsIn few (element_at pool.now self.now)) }
    {
        match self {
            Cell::Byte(wanted) => Some(FirstBytes::range(*wanted, *wanted)),
            Cell::Range { low, high } => Some(FirstBytes::range(*low, *high)),
            Cell::Choice { at } => first_bytes_of(rest_from(pool, at.get())),
            Cell::Except(_)
            | Cell::AnyByte
            | Cell::OpenGap { .. }
            | Cell::Stars { .. }
            | Cell::Gap { .. } => None,
        }
    }

    /// Returns one cell for this cell and the next one, if both are stars and their number fits. This saves memory; no
    /// clause asks for `Some`.
    pub(crate) fn joined(self, next: Cell) -> Option<Cell>
        ensures { IfSome result (λ cell.
            (pool : List ℕ) → elements_at pool cell ≡ elements_at pool self ++ elements_at pool next) }
    {
        let Cell::Stars { more } = self else {
            return None;
        };
        let Cell::Stars { more: further } = next else {
            return None;
        };
        let Ok(stars) = short_of(more.get() + 1 + further.get()) else {
            return None;
        };
        Some(Cell::Stars {
            more: Short::new(stars),
        })
    }

    /// Replaces the places by those after this element, counted in the direction of the match. None lies past the end
    /// of `bytes`.
    ///
    /// `sets` has the cached bit sets of classes for these bytes and this direction; the call may add some. After an
    /// error nothing is promised of `bits`: the match ends, and the next one sets its places anew.
    pub(crate) fn step(
        &self,
        pool: &[u8],
        sets: &mut Vec<ClassSet>,
        bits: &mut BitSet,
        alloc: Global,
        bytes: &[u8],
        direction: Direction,
    ) -> Result<(), AllocError>
        requires sets { AreSetsOf direction bytes.now sets.old.items }
        requires inside { IsInside bytes.now bits.old }
        ensures sets { AreSetsOf direction bytes.now sets.new.items }
        ensures inside { OnOk result (IsInside bytes.now bits.new) }
        ensures reaches { OnOk result
            (Reaches direction (element_at pool.now self.now) bytes.now (IsAt direction bytes.now bits.old)
            (IsAt direction bytes.now bits.new)) }
    {
        let len = bytes.len();
        match self {
            Cell::Byte(wanted) => one(sets, bits, Class::Byte(*wanted), alloc, bytes, direction),
            Cell::Range { low, high } => {
                let (low, high) = (*low, *high);
                one(
                    sets,
                    bits,
                    Class::Range { low, high },
                    alloc,
                    bytes,
                    direction,
                )
            }
            Cell::Except(barred) => one(
                sets,
                bits,
                Class::Except(*barred),
                alloc,
                bytes,
                direction,
            ),
            Cell::AnyByte => bits.cross(1, 0, len),
            Cell::OpenGap { least } => bits.cross(least.get(), len, len),
            // Another star reaches no further places.
            Cell::Stars { .. } => bits.cross(0, len, len),
            Cell::Gap { at } => {
                let gap = rest_from(pool, at.get());
                let least = front_number(gap);
                let more = front_number(rest_from(gap, 2));
                bits.cross(least, more, len)
            }
            Cell::Choice { at } => {
                let packed = rest_from(pool, at.get());
                choice(sets, bits, packed, alloc, bytes, direction)
            }
        }
    }
}
