//! The tails of four messages that SHA-256 hashes side by side, and what a piece of each does to them; `eight_tails`
//! does it for MD5. A tail has the bytes of its message after the last whole block, at the front of 64 bytes; what
//! stands behind them counts for nothing.
//!
//! Each function but `lens` and `longer` does for all messages what the function of this name in `tails` does for one;
//! `used` has what `used_of` returned, `totals` the messages' lengths modulo 2^64. `first_chunks 64 n`, of the standard
//! library, is the first n blocks.

ghost use Rattle.std.specs.Prelude.{◌≡◌, ◌≢◌, ℕ, ◌+◌, ◌*◌, ◌/◌, ◌%◌, ◌^◌, ◌<◌, List, [], ◌∷◌, ◌++◌, length, drop};
ghost use Rattle.std.specs.Prelude.{slice_index, slice_index_or};
ghost use Rattle.std.specs.Simd.{first_chunks};
ghost use Rattle.droid_hash.specs.Lanes.{piece};
ghost use Rattle.droid_hash.specs.Tails.{joining, IsJoined};

use crate::tails;

/// Returns how many bytes each piece has. `pieces` has such a function for eight.
pub(crate) fn lens(pieces: [&[u8]; 4]) -> [usize; 4]
    ensures value { (j : ℕ) → j < 4 → slice_index result j ≡ length (piece j pieces.entry) }
    ensures count { length result ≡ 4 }
{
    let [a, b, c, d] = pieces;
    [a.len(), b.len(), c.len(), d.len()]
}

/// Returns how many bytes of its last block each message has, 0 if that block is whole.
pub(crate) fn used_of(totals: &[u64; 4]) -> [usize; 4]
    ensures value { (j : ℕ) → j < 4 → slice_index result j ≡ slice_index totals.now j % 64 }
    ensures short { (j : ℕ) → j < 4 → slice_index result j < 64 }
{
    let [a, b, c, d] = *totals;
    [
        tails::used_of(a),
        tails::used_of(b),
        tails::used_of(c),
        tails::used_of(d),
    ]
}

/// Makes the block that each tail begins, with the piece's first bytes after the tail's. `blocks` has the tails so far.
pub(crate) fn joined(blocks: &[[u8; 64]; 4], used: [usize; 4], pieces: [&[u8]; 4]) -> [[u8; 64]; 4]
    requires { (j : ℕ) → j < 4 → slice_index used j < 64 }
    ensures { (j : ℕ) → j < 4
        → IsJoined (slice_index_or blocks.now j []) (slice_index used j) (piece j pieces.entry)
        (slice_index_or result j []) }
{
    let [a, b, c, d] = pieces;
    [
        tails::joined(&blocks[0], used[0], a),
        tails::joined(&blocks[1], used[1], b),
        tails::joined(&blocks[2], used[2], c),
        tails::joined(&blocks[3], used[3], d),
    ]
}

/// Returns, for each message, what `joined` made as a run of one block if the piece fills it up; otherwise no block.
pub(crate) fn completed<'a>(
    blocks: &'a [[u8; 64]; 4],
    used: [usize; 4],
    pieces: [&[u8]; 4],
) -> [&'a [[u8; 64]]; 4]
    requires { (j : ℕ) → j < 4 → slice_index used j < 64 }
    ensures full { (j : ℕ) → j < 4
        → slice_index used j + joining (slice_index used j) (length (piece j pieces.entry)) ≡ 64
        → piece j result ≡ slice_index_or blocks.now j [] ∷ [] }
    ensures none { (j : ℕ) → j < 4
        → slice_index used j + joining (slice_index used j) (length (piece j pieces.entry)) ≢ 64
        → piece j result ≡ [] }
{
    let [a, b, c, d] = pieces;
    [
        tails::completed(&blocks[0], used[0], a.len()),
        tails::completed(&blocks[1], used[1], b.len()),
        tails::completed(&blocks[2], used[2], c.len()),
        tails::completed(&blocks[3], used[3], d.len()),
    ]
}

/// Returns the bytes of each piece after those that `joined` puts behind the tail.
pub(crate) fn rests<'a>(pieces: [&'a [u8]; 4], used: [usize; 4]) -> [&'a [u8]; 4]
    requires { (j : ℕ) → j < 4 → slice_index used j < 64 }
    ensures { (j : ℕ) → j < 4
        → piece j result ≡ drop (joining (slice_index used j) (length (piece j pieces.entry))) (piece j pieces.entry) }
{
    let [a, b, c, d] = pieces;
    [
        tails::rest(a, used[0]),
        tails::rest(b, used[1]),
        tails::rest(c, used[2]),
        tails::rest(d, used[3]),
    ]
}

/// Returns the run of whole blocks at the front of what `rests` left of each piece.
pub(crate) fn chunks<'a>(rests: [&'a [u8]; 4]) -> [&'a [[u8; 64]]; 4]
    ensures { (j : ℕ) → j < 4
        → piece j result ≡ first_chunks 64 (length (piece j rests.entry) / 64) (piece j rests.entry) }
{
    let [a, b, c, d] = rests;
    [
        tails::chunks(a),
        tails::chunks(b),
        tails::chunks(c),
        tails::chunks(d),
    ]
}

/// Makes the new tails: each block of `joined`, with its first bytes replaced by those after the whole blocks of what
/// `rests` left.
pub(crate) fn kept(blocks: &[[u8; 64]; 4], rests: [&[u8]; 4]) -> [[u8; 64]; 4]
    ensures { (j : ℕ) → j < 4 → slice_index_or result j []
        ≡ drop (length (piece j rests.entry) / 64 * 64) (piece j rests.entry)
        ++ drop (length (piece j rests.entry) % 64) (slice_index_or blocks.now j []) }
{
    let [a, b, c, d] = rests;
    [
        tails::kept(&blocks[0], a),
        tails::kept(&blocks[1], b),
        tails::kept(&blocks[2], c),
        tails::kept(&blocks[3], d),
    ]
}

/// Adds the pieces' lengths to the messages' lengths, modulo 2^64.
pub(crate) fn longer(totals: &[u64; 4], pieces: [&[u8]; 4]) -> [u64; 4]
    ensures { (j : ℕ) → j < 4
        → slice_index result j ≡ (slice_index totals.now j + length (piece j pieces.entry)) % 2 ^ 64 }
{
    let [a, b, c, d] = pieces;
    [
        totals[0].wrapping_add(a.len() as u64),
        totals[1].wrapping_add(b.len() as u64),
        totals[2].wrapping_add(c.len() as u64),
        totals[3].wrapping_add(d.len() as u64),
    ]
}
