//! Cuts a list of rows or groups where the page stops showing it.

ghost use Rattle.std.specs.Prelude.{◌≡◌, drop, take};

/// Returns the first `limit` items, or all if there are fewer, and the rest.
#[tactic(auto, using(std::proofs::lemmas::List::take_min, std::proofs::lemmas::List::drop_min))]
pub(crate) fn cut<T>(items: &[T], limit: usize) -> (&[T], &[T])
    ensures first { result.0.now ≡ take limit items.now }
    ensures rest { result.1.now ≡ drop limit items.now }
{
    items.split_at(limit.min(items.len()))
}
