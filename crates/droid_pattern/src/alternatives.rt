//! Compares the alternatives of a choice with the bytes at one place, and finds the bytes with which they begin. In the
//! pool their number comes first, and then each after its length.

ghost use Rattle.std.specs.Prelude.{◌≡◌, ℕ, IsTrue, IfSome, false};
ghost use Rattle.memchr.specs.Find.{OccursAt};
ghost use Rattle.droid_pattern.specs.FirstBytes.{BeginsIn};
ghost use Rattle.droid_pattern.specs.Patterns.{Choice};
ghost use Rattle.droid_pattern.specs.Cells.{alternatives_in};
ghost use Rattle.droid_pattern.specs.Positions.{Leads};

use crate::first_bytes::FirstBytes;
use crate::pool::{cut_run, rest_from};
use crate::short::front_number;

/// Returns whether none of the alternatives stands at this place. The alternatives stand at the front of `packed`, as
/// `put_choice` of `pool` writes them. Only `true` promises anything: it spares a match by sets of places.
pub(crate) fn none_stands(packed: &[u8], bytes: &[u8], place: usize) -> bool
    ensures { IsTrue result → (q : ℕ) → Leads (Choice (alternatives_in packed.now)) bytes.now place q → ⊥ }
{
    let mut rest = rest_from(packed, 2);
    for _ in 0..front_number(packed) {
        let (run, after) = cut_run(rest);
        if stands_at(run, bytes, place) {
            return false;
        }
        rest = after;
    }
    true
}

/// Returns whether the run of bytes stands in `bytes` at this place. Only `false` promises anything: a false `true`
/// would cost time, but change no result.
fn stands_at(run: &[u8], bytes: &[u8], place: usize) -> bool
    ensures { result ≡ false → OccursAt bytes.now run.now place → ⊥ }
{
    let rest = rest_from(bytes, place);
    if rest.len() < run.len() {
        return false;
    }
    for i in 0..run.len() {
        if rest[i] != run[i] {
            return false;
        }
    }
    true
}

/// Returns the bytes with which an alternative can begin, and `None` if one is empty. The alternatives stand at the
/// front of `packed`, as `put_choice` of `pool` writes them. `None` promises nothing.
pub(crate) fn first_bytes_of(packed: &[u8]) -> Option<FirstBytes>
    ensures { IfSome result (λ few. BeginsIn few (Choice (alternatives_in packed.now))) }
{
    let mut rest = rest_from(packed, 2);
    let (run, _) = cut_run(rest);
    let first = *run.first()?;
    let mut few = FirstBytes::range(first, first);
    let count = front_number(packed);
    for _ in 0..count {
        let (run, after) = cut_run(rest);
        let first = run.first()?;
        few = few.with(*first);
        rest = after;
    }
    Some(few)
}
