//! Whether bytes are UTF-16 text. UTF-16 writes a character as a unit of two bytes, or as a pair of units (surrogates):
//! the first of a pair is 55,296 to 56,319 (D800 to DBFF), the second 56,320 to 57,343 (DC00 to DFFF).
//!
//! `specs/TextKinds.antt` has the same numbers, and the prover ties them.

ghost use Rattle.std.specs.Prelude.{◌≡◌};
ghost use Rattle.droid_identity.specs.TextKinds.{is_back, is_high, is_low, is_text_char, is_units, mark, may_follow};
ghost use Rattle.droid_identity.specs.TextKinds.{order_of, unit, without_first};

use crate::ascii::is_usual;
use crate::parts::after;

/// Which byte of a unit comes first.
#[derive(Clone, Copy)]
pub(crate) enum Order {
    /// The higher one.
    Big,
    /// The lower one.
    Little,
}

/// Returns the order of the bytes in a unit that the mark at the beginning of a file names, or `None` if there is no
/// mark.
#[tactic(auto, using(crate::proofs::UnitLemmas::order_some, crate::proofs::UnitLemmas::order_none))]
pub(crate) fn order_of(bytes: &[u8]) -> Option<Order>
    ensures { result ≡ order_of bytes.now }
{
    match bytes {
        [a, b, ..] => mark(*a, *b),
        _ => None,
    }
}

/// Returns the order that these two bytes name as a mark, FE FF or FF FE, or `None` if they are none.
fn mark(a: u8, b: u8) -> Option<Order>
    ensures { result ≡ mark a b }
{
    if a == 254 && b == 255 {
        return Some(Order::Big);
    }
    if a == 255 && b == 254 {
        return Some(Order::Little);
    }
    None
}

/// Returns the unit of two bytes, where `a` stands before `b` in the file.
fn unit(order: Order, a: u8, b: u8) -> u32
    ensures { result ≡ unit order a b }
{
    match order {
        Order::Big => 256 * u32::from(a) + u32::from(b),
        Order::Little => 256 * u32::from(b) + u32::from(a),
    }
}

/// Returns whether the unit is the first of a pair.
fn is_high(unit: u32) -> bool
    ensures { result ≡ is_high unit }
{
    unit >= 55_296 && unit <= 56_319
}

/// Returns whether the unit is the second of a pair.
fn is_low(unit: u32) -> bool
    ensures { result ≡ is_low unit }
{
    unit >= 56_320 && unit <= 57_343
}

/// Returns whether the unit may stand in text: it is no control character (0 to 31, 127 to 159), or a usual one
/// (`is_usual` of `ascii`). A unit of a pair is none.
#[tactic(auto, unfolding(crate::specs::TextKinds::is_text_char))]
fn is_text_unit(unit: u32) -> bool
    ensures { result ≡ is_text_char unit }
{
    let control = unit <= 31 || (unit >= 127 && unit <= 159);
    !control || is_usual(unit)
}

/// Returns whether the unit may come next. `after` says whether the first of a pair stands before it: then it has to be
/// the second, and otherwise it may not be.
#[tactic(auto, unfolding(crate::specs::TextKinds::may_follow))]
fn may_follow(after: bool, unit: u32) -> bool
    ensures { result ≡ may_follow after unit }
{
    if after {
        return is_low(unit);
    }
    !is_low(unit) && is_text_unit(unit)
}

/// Returns whether the bytes are units of text; an odd number of bytes is not. `after` says whether the first of a pair
/// stands before them, and `cut` whether it may stand at their end, without its second.
pub(crate) fn is_units(order: Order, cut: bool, after: bool, bytes: &[u8]) -> bool
    ensures { result ≡ is_units order cut after bytes.now }
{
    let mut high = after;
    let mut left = bytes;
    while let [a, b, more @ ..] = left {
        let next = unit(order, *a, *b);
        if !may_follow(high, next) {
            return false;
        }
        high = is_high(next);
        left = more;
    }
    left.is_empty() && (!high || cut)
}

/// Returns whether the last bytes of a longer file are units of text. `odd` says whether a unit's second byte comes
/// first. The second of a pair may come first.
pub(crate) fn is_back(order: Order, odd: bool, bytes: &[u8]) -> bool
    ensures { result ≡ is_back order odd bytes.now }
{
    let even = without_first(odd, bytes);
    is_units(order, false, false, even) || is_units(order, false, true, even)
}

/// Returns the bytes without the first one if `odd` is set, and otherwise all of them.
fn without_first(odd: bool, bytes: &[u8]) -> &[u8]
    ensures { result.now ≡ without_first odd bytes.now }
{
    if odd { after(bytes, 1) } else { bytes }
}
