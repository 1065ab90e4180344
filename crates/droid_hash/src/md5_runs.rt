//! Takes runs of blocks into a state of eight MD5s side by side, one run for each lane and of any lengths;
//! `sha256_runs` does it for SHA-256. It goes part by part: as far as no run ends. A run is a message's next whole
//! blocks. `compress h b`, of the kit's `md5`, is the hash value after block b.

ghost use Rattle.std.specs.Prelude.{◌≡◌, ℕ, ◌+◌, ◌-◌, ◌*◌, ◌<◌, ◌≤◌, List, [], Bool, false, nat_lt, fold, length, take};
ghost use Rattle.std.specs.Prelude.{drop, slice_index, slice_index_or, if◌then◌else◌};
ghost use Rattle.md5.specs.Md5.{compress};
ghost use Rattle.droid_hash.specs.Lanes.{lane, piece};

use crate::md5_kernel::compress_run;
use crate::runs::{longer, one_of, part, within};
use std::simd::u32x8;

/// Returns the longest run, which serves as filler: the runs that end before it take its blocks to no effect.
fn longest<'a>(runs: [&'a [[u8; 64]]; 8]) -> &'a [[u8; 64]]
    ensures { (j : ℕ) → j < 8 → length (piece j runs.entry) ≤ length result.now }
{
    let [a, b, c, d, e, f, g, h] = runs;
    longer(
        longer(longer(a, b), longer(c, d)),
        longer(longer(e, f), longer(g, h)),
    )
}

/// Returns how many blocks from `at` on each run has that has not ended there: at most `most`, and `most` if all have
/// ended. That is the length of the next part.
fn common(runs: [&[[u8; 64]]; 8], at: usize, most: usize) -> usize
    ensures most { result ≤ most }
    ensures some { 0 < most → 0 < result }
    ensures inside { (j : ℕ) → j < 8 → at < length (piece j runs.entry) → at + result ≤ length (piece j runs.entry) }
{
    let [a, b, c, d, e, f, g, h] = runs;
    let low = within(most, a.len(), at);
    let low = within(low, b.len(), at);
    let low = within(low, c.len(), at);
    let low = within(low, d.len(), at);
    let low = within(low, e.len(), at);
    let low = within(low, f.len(), at);
    let low = within(low, g.len(), at);
    let low = within(low, h.len(), at);
    low
}

/// Returns each run from `at` on, or the filler from there on if the run has ended.
fn parts<'a>(runs: [&'a [[u8; 64]]; 8], filler: &'a [[u8; 64]], at: usize) -> [&'a [[u8; 64]]; 8]
    requires { at ≤ length filler.now }
    ensures { (j : ℕ) → j < 8 → piece j result
        ≡ (if nat_lt at (length (piece j runs.entry)) then drop at (piece j runs.entry) else drop at filler.now) }
{
    let [a, b, c, d, e, f, g, h] = runs;
    [
        part(a, filler, at),
        part(b, filler, at),
        part(c, filler, at),
        part(d, filler, at),
        part(e, filler, at),
        part(f, filler, at),
        part(g, filler, at),
        part(h, filler, at),
    ]
}

/// Returns a flag for each run: whether it has more than `at` blocks.
fn going(runs: [&[[u8; 64]]; 8], at: usize) -> [bool; 8]
    ensures { (j : ℕ) → j < 8 → slice_index_or result j false ≡ nat_lt at (length (piece j runs.entry)) }
{
    let [a, b, c, d, e, f, g, h] = runs;
    [
        at < a.len(),
        at < b.len(),
        at < c.len(),
        at < d.len(),
        at < e.len(),
        at < f.len(),
        at < g.len(),
        at < h.len(),
    ]
}

/// Returns a state with the new variables in each lane whose flag in `named` is true, and the old ones in each other.
fn chosen(named: [bool; 8], new: [u32x8; 4], old: [u32x8; 4]) -> [u32x8; 4]
    ensures { (j : ℕ) → j < 8 → lane j result ≡ (if slice_index_or named j false then lane j new else lane j old) }
{
    let [a, b, c, d, e, f, g, h] = named;
    // For speed; no clause needs it.
    if a && b && c && d && e && f && g && h {
        return new;
    }
    [
        chosen_lanes(named, new[0], old[0]),
        chosen_lanes(named, new[1], old[1]),
        chosen_lanes(named, new[2], old[2]),
        chosen_lanes(named, new[3], old[3]),
    ]
}

/// Does the work of `chosen` for one vector, that is one variable of all lanes.
fn chosen_lanes(named: [bool; 8], new: u32x8, old: u32x8) -> u32x8
    ensures { (j : ℕ) → j < 8
        → slice_index result j ≡ (if slice_index_or named j false then slice_index new j else slice_index old j) }
{
    let [n0, n1, n2, n3, n4, n5, n6, n7] = named;
    let [a0, a1, a2, a3, a4, a5, a6, a7] = new.to_array();
    let [b0, b1, b2, b3, b4, b5, b6, b7] = old.to_array();
    u32x8::from_array([
        one_of(n0, a0, b0),
        one_of(n1, a1, b1),
        one_of(n2, a2, b2),
        one_of(n3, a3, b3),
        one_of(n4, a4, b4),
        one_of(n5, a5, b5),
        one_of(n6, a6, b6),
        one_of(n7, a7, b7),
    ])
}

/// Takes `count` blocks from `at` on of each run that has not ended there. An idle lane takes the filler's blocks, and
/// its old state is put back.
fn take_part<'a>(
    state: &mut [u32x8; 4],
    runs: [&'a [[u8; 64]]; 8],
    filler: &'a [[u8; 64]],
    at: usize,
    count: usize,
)
    requires filled { at + count ≤ length filler.now }
    requires inside { (j : ℕ) → j < 8 → at < length (piece j runs) → at + count ≤ length (piece j runs) }
    ensures { (j : ℕ) → j < 8
        → lane j state.new ≡ fold compress (lane j state.old) (take count (drop at (piece j runs.entry))) }
{
    let old = *state;
    let mut new = old;
    compress_run(&mut new, parts(runs, filler, at), count);
    *state = chosen(going(runs, at), new, old);
}

/// Takes each run's blocks into its lane. A lane whose run has ended stays as it is while the others go on.
pub(crate) fn take_runs(state: &mut [u32x8; 4], runs: [&[[u8; 64]]; 8])
    ensures { (j : ℕ) → j < 8 → lane j state.new ≡ fold compress (lane j state.old) (piece j runs.entry) }
{
    let filler = longest(runs);
    let mut at = 0;
    'parts: while at < filler.len() {
        let count = common(runs, at, filler.len() - at);
        take_part(state, runs, filler, at, count);
        at += count;
    }
}
