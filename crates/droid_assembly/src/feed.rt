//! Passes several pieces to the front of a file: small ones joined, large ones each by itself. Both ways leave the same
//! front.

ghost use Rattle.std.specs.Prelude.{◌≡◌, ◌≤◌, ◌++◌, ℕ, List, length};
ghost use Rattle.std.specs.List.{concat};
ghost use Rattle.droid_assembly.specs.Fronts.{IsFront, FrontKnows};
ghost use Rattle.droid_frame.specs.RunningHashes.{running_kind};

use crate::front::Front;
use crate::several::Several;
use crate::small_pieces::Joined;

/// Joins small pieces, of at most 512 bytes in all, and passes their bytes to the front in one call, which is cheaper
/// than a call for each. 512 is `JOINED_LIMIT` of `small_pieces`; the prover ties them. This is
/// a function of its own so that large pieces don't pay for clearing the buffer.
#[inline(never)]
pub(crate) fn show_joined(front: &mut Front, several: &Several)
    requires sound { IsFront front.old }
    requires fits { length (concat several.now) ≤ 512 }
    ensures sound { IsFront front.new }
    ensures width { front.new.width ≡ front.old.width }
    ensures kind { running_kind front.new.hash ≡ running_kind front.old.hash }
    ensures knows { (before : List ℕ) → FrontKnows front.old before
        → FrontKnows front.new (before ++ concat several.now) }
{
    let mut joined = Joined::none();
    for place in 0..several.len() {
        if let Some(bytes) = several.get(place) {
            joined.push(bytes.as_slice());
        }
    }
    front.take(joined.bytes());
}

/// Passes the bytes of each piece to the front in its turn, without a copy into a buffer.
#[inline(never)]
pub(crate) fn show_each(front: &mut Front, several: &Several)
    requires sound { IsFront front.old }
    ensures sound { IsFront front.new }
    ensures width { front.new.width ≡ front.old.width }
    ensures kind { running_kind front.new.hash ≡ running_kind front.old.hash }
    ensures knows { (before : List ℕ) → FrontKnows front.old before
        → FrontKnows front.new (before ++ concat several.now) }
{
    for place in 0..several.len() {
        if let Some(bytes) = several.get(place) {
            front.take(bytes.as_slice());
        }
    }
}
