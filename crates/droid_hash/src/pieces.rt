//! Pieces of files that come side by side, one for each lane: their lengths in bytes, the places of the shortest one
//! and of one that alone has bytes, and the front and the rest of a piece. An empty piece is that of an idle lane.

ghost use Rattle.std.specs.Prelude.{◌≡◌, ◌≢◌, ℕ, ◌-◌, ◌<◌, ◌≤◌, length, take, drop, min, slice_index, IfSome};
ghost use Rattle.droid_hash.specs.Lanes.{piece};
ghost use Rattle.droid_hash.specs.Pieces.{Beats};

/// Returns how many bytes each piece has. `four_tails` has such a function for four pieces.
pub(crate) fn lens(pieces: [&[u8]; 8]) -> [usize; 8]
    ensures value { (j : ℕ) → j < 8 → slice_index result j ≡ length (piece j pieces.entry) }
    ensures count { length result ≡ 8 }
{
    let [a, b, c, d, e, f, g, h] = pieces;
    [
        a.len(),
        b.len(),
        c.len(),
        d.len(),
        e.len(),
        f.len(),
        g.len(),
        h.len(),
    ]
}

/// Returns, of the places of two pieces, that of the shorter one. A piece of 0 bytes counts as the longest.
fn better(lens: &[usize; 8], one: usize, other: usize) -> usize
    requires one { one < 8 }
    requires other { other < 8 }
    ensures inside { result < 8 }
    ensures first { Beats lens.now result one }
    ensures second { Beats lens.now result other }
{
    if lens[one] == 0 {
        return other;
    }
    if lens[other] == 0 {
        return one;
    }
    if lens[one] <= lens[other] { one } else { other }
}

/// Returns the place of the smallest length that isn't 0; any place if all are 0.
fn place_of_shortest(lens: &[usize; 8]) -> usize
    ensures inside { result < 8 }
    ensures shortest { (j : ℕ) → j < 8 → Beats lens.now result j }
{
    let mut best = 0;
    'places: for place in 1..8 {
        best = better(lens, best, place);
    }
    best
}

/// Returns the length of the shortest piece, of those that are not empty; 0 if all are empty.
pub(crate) fn shortest(pieces: [&[u8]; 8]) -> usize
    ensures some { (j : ℕ) → j < 8 → 0 < length (piece j pieces.entry) → 0 < result }
    ensures least { (j : ℕ) → j < 8 → 0 < length (piece j pieces.entry) → result ≤ length (piece j pieces.entry) }
    ensures exact { (j : ℕ) × ((j < 8) × (length (piece j pieces.entry) ≡ result)) }
{
    let lens = lens(pieces);
    let place = place_of_shortest(&lens);
    lens[place]
}

/// Returns the first place from `from` on whose length isn't 0, or the number of lengths if there is none. No clause
/// says that the length there isn't 0: with a place too early, `only` would return `None` too often.
fn busy(lens: &[usize], from: usize) -> usize
    requires { from ≤ length lens.now }
    ensures within { result ≤ length lens.now }
    ensures before { (k : ℕ) → from ≤ k → k < result → slice_index lens.now k ≡ 0 }
{
    for place in from..lens.len() {
        if lens[place] != 0 {
            return place;
        }
    }
    lens.len()
}

/// Returns the place of the only length that isn't 0, if there is exactly one. No clause asks for `Some`: after `None`
/// all lanes are taken side by side, which takes longer.
pub(crate) fn only(lens: &[usize]) -> Option<usize>
    ensures inside { IfSome result (λ index. index < length lens.now) }
    ensures alone { IfSome result (λ index. (j : ℕ) → j < length lens.now → j ≢ index → slice_index lens.now j ≡ 0) }
{
    let first = busy(lens, 0);
    if first == lens.len() {
        return None;
    }
    let second = busy(lens, first + 1);
    if second < lens.len() {
        return None;
    }
    Some(first)
}

/// Returns the first `count` bytes of a piece, or all of a shorter one.
pub(crate) fn front(piece: &[u8], count: usize) -> &[u8]
    ensures value { result.now ≡ take count piece.now }
    ensures len { length result.now ≡ min count (length piece.now) }
{
    &piece[..count.min(piece.len())]
}

/// Returns the bytes of a piece after its first `count` ones.
pub(crate) fn rest(piece: &[u8], count: usize) -> &[u8]
    requires { count ≤ length piece.now }
    ensures value { result.now ≡ drop count piece.now }
    ensures len { length result.now ≡ length piece.now - count }
{
    &piece[count..]
}

/// Returns the first `count` bytes of each piece, or all of a shorter one.
pub(crate) fn fronts<'a>(pieces: [&'a [u8]; 8], count: usize) -> [&'a [u8]; 8]
    ensures { (j : ℕ) → j < 8 → piece j result ≡ take count (piece j pieces.entry) }
{
    let [a, b, c, d, e, f, g, h] = pieces;
    [
        front(a, count),
        front(b, count),
        front(c, count),
        front(d, count),
        front(e, count),
        front(f, count),
        front(g, count),
        front(h, count),
    ]
}
