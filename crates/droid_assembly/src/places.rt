//! The places of pieces that wait for an earlier piece: a piece is at its index modulo 16. Takes in a piece, and passes
//! on those that no longer wait.

ghost use Rattle.std.specs.Prelude.{◌≡◌, ◌<◌, ◌≤◌, ◌+◌, ◌%◌, ◌-◌, ◌^◌, [], ℕ, List, length, min, None, Some, IfOk};
ghost use Rattle.std.specs.Prelude.{IsSome, IsTrue, replicate, slice_set, vec_capacity};
ghost use Rattle.std.specs.Bool.{OnFalse};
ghost use Rattle.std.specs.List.{concat};
ghost use Rattle.droid_assembly.specs.Pieces.{Piece};
ghost use Rattle.droid_assembly.specs.State.{slot};
ghost use Rattle.droid_assembly.specs.Fronts.{IsFront};
ghost use Rattle.droid_frame.specs.RunningHashes.{running_kind};
ghost use Rattle.droid_assembly.specs.Kept.{IsAlong, ArePlaced, pieces_from};

use crate::feed::{show_each, show_joined};
use crate::front::Front;
use crate::needless_pieces::Spent;
use crate::several::Several;
use crate::small_pieces::JOINED_LIMIT;
use droid_frame::Blob;
use std::alloc::{AllocError, Global};

/// A piece is accepted only if its index is less than this far past the first missing one. So each waiting piece has a
/// place of its own. The clauses and `slot` of `specs/State.antt` have the same number, and the prover ties them.
pub(crate) const AHEAD: u32 = 16;

/// Makes the places, all empty, with memory for exactly 16. Fails only when out of memory.
pub(crate) fn empty_places(alloc: Global) -> Result<Vec<Option<Blob>>, AllocError>
    ensures empty { IfOk result (λ places. places.items ≡ replicate 16 None) }
    ensures reserved { IfOk result (λ places. vec_capacity places ≡ 16) }
{
    let mut places = Vec::with_capacity(alloc, AHEAD as usize)?;
    for _ in 0..AHEAD {
        places.push_reserved(None);
    }
    Ok(places)
}

/// Accepts the piece `bytes` of this index, whose place is free. `from` is the index of the first missing piece. Passes
/// every piece that is now next, from there on, to the front, moves `from` past them, and returns them. Allocates
/// nothing.
#[inline(always)]
pub(crate) fn arrive(
    waiting: &mut [Option<Blob>],
    front: &mut Front,
    from: &mut u32,
    index: u32,
    bytes: Blob,
) -> Spent
    requires places { length waiting.old ≡ 16 }
    requires sound { IsFront front.old }
    requires small { from.old + 16 < 2 ^ 32 }
    requires free { slot waiting.old index ≡ None }
    ensures sound { IsFront front.new }
    ensures width { front.new.width ≡ front.old.width }
    ensures kind { running_kind front.new.hash ≡ running_kind front.old.hash }
    ensures along { (pieces : List Piece) (total count : ℕ)
        → IsAlong front.old (slice_set waiting.old (index % 16) (Some bytes)) from.old pieces total count
        → IsAlong front.new waiting.new from.new pieces total count }
    ensures passed { (pieces : List Piece) (total count : ℕ)
        → IsAlong front.old (slice_set waiting.old (index % 16) (Some bytes)) from.old pieces total count
        → result ≡ pieces_from from.old (length result) pieces }
    ensures stopped { slot waiting.new from.new ≡ None }
    ensures counted { from.new ≡ from.old + length result }
    ensures few { length result ≤ 16 }
{
    // The usual case: the piece is next, and no other waits for it. Then it needs no place.
    if index == *from && !waits(waiting, *from + 1) {
        front.take(bytes.as_slice());
        *from += 1;
        return Spent::one(bytes);
    }
    waiting[(index % AHEAD) as usize] = Some(bytes);
    if waits(waiting, *from) {
        return pass(waiting, front, from);
    }
    Spent::none()
}

/// Takes the consecutive pieces from index `from` on out of their places, passes them to the front, moves `from` past
/// them, and returns them. This is a function of its own so that the usual case doesn't pay for clearing the array of
/// `Several`.
#[inline(always)]
fn pass(waiting: &mut [Option<Blob>], front: &mut Front, from: &mut u32) -> Spent
    requires places { length waiting.old ≡ 16 }
    requires sound { IsFront front.old }
    requires small { from.old + 16 < 2 ^ 32 }
    ensures sound { IsFront front.new }
    ensures width { front.new.width ≡ front.old.width }
    ensures kind { running_kind front.new.hash ≡ running_kind front.old.hash }
    ensures along { (pieces : List Piece) (total count : ℕ) → IsAlong front.old waiting.old from.old pieces total count
        → IsAlong front.new waiting.new from.new pieces total count }
    ensures passed { (pieces : List Piece) (total count : ℕ) → IsAlong front.old waiting.old from.old pieces total count
        → result ≡ pieces_from from.old (length result) pieces }
    ensures stopped { slot waiting.new from.new ≡ None }
    ensures counted { from.new ≡ from.old + length result }
    ensures few { length result ≤ 16 }
{
    let mut several = Several::none();
    pass_several(waiting, front, *from, &mut several);
    *from += several.len() as u32;
    Spent::several(several)
}

/// Does the work of `pass`, but puts the pieces into `several`, which is empty before, and leaves `from` to the caller.
#[inline(never)]
fn pass_several(waiting: &mut [Option<Blob>], front: &mut Front, from: u32, several: &mut Several)
    requires places { length waiting.old ≡ 16 }
    requires sound { IsFront front.old }
    requires small { from + 16 < 2 ^ 32 }
    requires none { several.old ≡ [] }
    ensures sound { IsFront front.new }
    ensures width { front.new.width ≡ front.old.width }
    ensures kind { running_kind front.new.hash ≡ running_kind front.old.hash }
    ensures along { (pieces : List Piece) (total count : ℕ) → IsAlong front.old waiting.old from pieces total count
        → IsAlong front.new waiting.new (from + length several.new) pieces total count }
    ensures passed { (pieces : List Piece) (total count : ℕ) → IsAlong front.old waiting.old from pieces total count
        → several.new ≡ pieces_from from (length several.new) pieces }
    ensures stopped { slot waiting.new (from + length several.new) ≡ None }
    ensures few { length several.new ≤ 16 }
{
    // A call of the front costs more than copying a few bytes, so small pieces are joined first.
    let total = gather(waiting, from, several);
    if total <= JOINED_LIMIT {
        show_joined(front, several);
    } else {
        show_each(front, several);
    }
}

/// Takes the consecutive pieces from index `from` on out of their places, into `several`, which is empty before.
/// Returns the number of their bytes, or the largest `usize` if there are more.
#[inline(always)]
fn gather(waiting: &mut [Option<Blob>], from: u32, several: &mut Several) -> usize
    requires places { length waiting.old ≡ 16 }
    requires small { from + 16 < 2 ^ 32 }
    requires none { several.old ≡ [] }
    ensures placed { (pieces : List Piece) (total count : ℕ) → ArePlaced waiting.old from pieces total count
        → ArePlaced waiting.new (from + length several.new) pieces total count }
    ensures passed { (pieces : List Piece) (total count : ℕ) → ArePlaced waiting.old from pieces total count
        → several.new ≡ pieces_from from (length several.new) pieces }
    ensures stopped { slot waiting.new (from + length several.new) ≡ None }
    ensures few { length several.new ≤ 16 }
    ensures total { result ≡ min (length (concat several.new)) (2 ^ 64 - 1) }
{
    let mut total: usize = 0;
    for index in from..from + AHEAD {
        match take_out(waiting, index) {
            Some(bytes) => {
                total = total.saturating_add(bytes.len());
                several.push(bytes);
            }
            None => return total,
        }
    }
    total
}

/// Returns whether a piece waits in the place of this index. Of indexes that are 16 apart, at most one can wait.
fn waits(waiting: &[Option<Blob>], index: u32) -> bool
    requires { length waiting.now ≡ 16 }
    ensures there { IsTrue result → IsSome (slot waiting.now index) }
    ensures free { OnFalse result (slot waiting.now index ≡ None) }
{
    waiting[(index % AHEAD) as usize].is_some()
}

/// Takes the piece of this index out of its place, and leaves the place empty. Returns `None` if it was.
fn take_out(waiting: &mut [Option<Blob>], index: u32) -> Option<Blob>
    requires { length waiting.old ≡ 16 }
    ensures piece { result ≡ slot waiting.old index }
    ensures places { waiting.new ≡ slice_set waiting.old (index % 16) None }
{
    waiting[(index % AHEAD) as usize].take()
}
