//! Compares names by their bytes, the first eight at once where both have them.

ghost use Rattle.std.specs.Prelude.{◌≡◌, IfSome};
ghost use Rattle.std.specs.Ordering.{nat_cmp};
ghost use Rattle.std.specs.Cmp.Lexicographic.{slice_cmp};
ghost use Rattle.droid_tree.specs.NameFronts.{IsFront};

use std::cmp::Ordering;

/// Compares two names by their bytes.
///
/// For speed alone, if both have eight or more, the first eight of each are compared as one number, which decides most
/// pairs: no clause needs that.
pub fn order_of_names(first: &[u8], second: &[u8]) -> Ordering
    ensures { result ≡ slice_cmp nat_cmp first.now second.now }
{
    let Some(front) = front_of(first) else {
        return first.cmp(second);
    };
    let Some(other) = front_of(second) else {
        return first.cmp(second);
    };
    match front.cmp(&other) {
        Ordering::Less => Ordering::Less,
        Ordering::Equal => first.cmp(second),
        Ordering::Greater => Ordering::Greater,
    }
}

/// Returns the first eight bytes of a name as a number, the first byte its highest, or `None` if it is shorter. No
/// clause asks for `Some`: `None` only makes `order_of_names` slower.
fn front_of(name: &[u8]) -> Option<u64>
    ensures { IfSome result (λ front. IsFront name.now front) }
{
    match name {
        [a, b, c, d, e, f, g, h, ..] => {
            Some(u64::from_be_bytes([*a, *b, *c, *d, *e, *f, *g, *h]))
        }
        _ => None,
    }
}
