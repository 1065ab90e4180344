//! Counts of connections and bytes so far.

ghost use Rattle.std.specs.Prelude.{◌≡◌};
ghost use Rattle.droid_sockets.specs.Tallies.{counted};

/// Counts of connections and bytes so far. No count goes beyond 2^64 - 1.
#[derive(Clone, Copy)]
pub struct Tally {
    /// How many connections were accepted.
    pub opened: u64,
    /// How many were closed.
    pub closed: u64,
    /// How many bytes came.
    pub came: u64,
    /// How many bytes were written.
    pub went: u64,
}

impl Tally {
    /// Returns the tally of sockets that were just bound: all counts are 0.
    pub(crate) fn new() -> Tally
        ensures { result ≡ record { opened = 0; closed = 0; came = 0; went = 0 } }
    {
        Tally {
            opened: 0,
            closed: 0,
            came: 0,
            went: 0,
        }
    }
}

/// Adds bytes or connections to a count, but not beyond 2^64 - 1.
pub(crate) fn count(number: u64, more: usize) -> u64
    ensures { result ≡ counted number more }
{
    number.saturating_add(more as u64)
}
