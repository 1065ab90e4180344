//! Reads and writes the pool of a pattern: numbers of two bytes, and runs of bytes, each after its length.

ghost use Rattle.std.specs.Prelude.{◌≡◌, ◌++◌, take, drop, map, IfOk, OnOk};
ghost use Rattle.droid_pattern.specs.Cells.{front_number, choice_bytes};

use crate::short::{front_number, put_number};
use std::alloc::AllocError;

/// Returns the bytes from this place on, none if it lies past the end. The place counts from the start of `bytes`.
pub(crate) fn rest_from(bytes: &[u8], place: usize) -> &[u8]
    ensures { result.now ≡ drop place bytes.now }
{
    let place = place.min(bytes.len());
    &bytes[place..]
}

/// Splits off the first run, which stands after its length of two bytes. Returns the run and the bytes after it. If the
/// length says more bytes than there are, the run is all of them; `put_choice` writes no such run.
pub(crate) fn cut_run(bytes: &[u8]) -> (&[u8], &[u8])
    ensures run { result.0.now ≡ take (front_number bytes.now) (drop 2 bytes.now) }
    ensures after { result.1.now ≡ drop (front_number bytes.now) (drop 2 bytes.now) }
{
    let rest = rest_from(bytes, 2);
    rest.split_at(front_number(bytes).min(rest.len()))
}

/// Adds a choice to the end of the pool: the number of alternatives, then the length and the bytes of each, where each
/// number has two bytes.
pub(crate) fn put_choice(pool: &mut Vec<u8>, alternatives: &[Vec<u8>]) -> Result<(), AllocError>
    ensures { OnOk result (pool.new.items ≡ pool.old.items ++ choice_bytes (map (λ v. v.items) alternatives.now)) }
{
    let count = short_of(alternatives.len())?;
    put_number(pool, count)?;
    for run in alternatives {
        let len = short_of(run.len())?;
        put_number(pool, len)?;
        pool.extend_from_slice(run)?;
    }
    Ok(())
}

/// Returns the number, for two bytes of a cell or of the pool, if it is at most 65,535, and otherwise reports out of
/// memory. Each number that a pattern of at most 4,096 bytes (`TEXT_LIMIT` of `pattern`) needs fits, so the error never
/// comes. No clause says so.
pub(crate) fn short_of(number: usize) -> Result<u16, AllocError>
    ensures { IfOk result (λ short. short ≡ number) }
{
    u16::try_from(number).ok().ok_or(AllocError)
}
