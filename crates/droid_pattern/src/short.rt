//! Numbers up to 65,535 as two bytes, the high one first: in a cell and in the pool of a pattern.

ghost use Rattle.std.specs.Prelude.{◌≡◌, ◌<◌, ◌++◌, OnOk};
ghost use Rattle.droid_pattern.specs.Cells.{number_of, number_bytes, front_number};

use std::alloc::AllocError;

/// A number up to 65,535 as two bytes, the high one first. Unlike a `u16` it needs no alignment.
#[derive(Clone, Copy)]
pub(crate) struct Short {
    high: u8,
    low: u8,
}

impl Short {
    /// Splits the number into two bytes.
    pub(crate) fn new(number: u16) -> Short
        ensures { number_of result ≡ number }
    {
        Short {
            high: (number / 256) as u8,
            low: (number % 256) as u8,
        }
    }

    /// Joins the two bytes into the number, which is at most 65,535.
    pub(crate) fn get(self) -> usize
        ensures value { result ≡ number_of self }
        ensures small { result < 65536 }
    {
        256 * usize::from(self.high) + usize::from(self.low)
    }
}

/// Adds the two bytes of this number to the end of the pool, the high one first.
pub(crate) fn put_number(pool: &mut Vec<u8>, number: u16) -> Result<(), AllocError>
    ensures { OnOk result (pool.new.items ≡ pool.old.items ++ number_bytes number) }
{
    let high = (number / 256) as u8;
    let low = (number % 256) as u8;
    pool.extend_from_slice(&[high, low])
}

/// Returns the number in the first two bytes, the high one first, and 0 if there are fewer than two.
pub(crate) fn front_number(bytes: &[u8]) -> usize
    ensures value { result ≡ front_number bytes.now }
    ensures small { result < 65536 }
{
    match bytes {
        [high, low, ..] => 256 * usize::from(*high) + usize::from(*low),
        _ => 0,
    }
}
