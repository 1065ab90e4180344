//! Prints numbers of bytes and of seconds in a fitting unit, rounded down. `specs/Units.antt` has the same limits of
//! the units, which the prover compares.

ghost use Rattle.std.specs.Prelude.{◌≡◌, ◌<◌, Some};
ghost use Rattle.droid_terminal.specs.Units.{rate_of, span_text, speed_text, unit_bytes, unit_name};

use std::fmt::{self, Display, Formatter, Write};

/// A unit of bytes.
#[derive(Clone, Copy)]
pub(crate) struct Unit {
    /// How many bytes it is.
    pub bytes: u64,
    /// Its name.
    pub name: &'static str,
}

/// Returns the unit for a number of bytes: the first in which it has at most four digits, or GB. A kB is 1,000 bytes.
/// Callers divide by the unit's bytes, so these are never 0 (`some`).
#[tactic(auto, unfolding(crate::specs::Units::unit_bytes, crate::specs::Units::unit_name))]
pub(crate) fn unit_for(bytes: u64) -> Unit
    ensures some { 0 < result.bytes }
    ensures bytes { result.bytes ≡ unit_bytes bytes }
    ensures name { result.name.now ≡ unit_name bytes }
{
    let (bytes, name) = match bytes {
        0..=9_999 => (1, "bytes"),
        10_000..=9_999_999 => (1_000, "kB"),
        10_000_000..=9_999_999_999 => (1_000_000, "MB"),
        _ => (1_000_000_000, "GB"),
    };
    Unit { bytes, name }
}

/// Returns how many per second, given a number and the milliseconds it took. Less than one millisecond counts as one. A
/// number whose thousandfold does not fit 64 bits gives too little.
pub(crate) fn rate(count: u64, milliseconds: u64) -> u64
    ensures { result ≡ rate_of count milliseconds }
{
    count.saturating_mul(1_000) / milliseconds.max(1)
}

/// A number of bytes per second. Prints in the unit that fits it, as `12 MB/s`.
#[derive(Clone, Copy)]
pub(crate) struct Speed(pub u64);

impl Display for Speed {
    ghost output = { λ speed. Some (speed_text speed.0) };

    #[tactic(auto, unfolding(crate::specs::Units::speed_text))]
    fn fmt<W: Write>(&self, f: &mut Formatter<W>) -> fmt::Result {
        let unit = unit_for(self.0);
        write!(f, "{} {}/s", self.0 / unit.bytes, unit.name)
    }
}

/// A number of seconds. Prints as seconds below 100, as minutes below 100 minutes, or as hours and minutes.
#[derive(Clone, Copy)]
pub(crate) struct Span(pub u64);

impl Display for Span {
    ghost output = { λ span. Some (span_text span.0) };

    #[tactic(auto, unfolding(crate::specs::Units::span_text))]
    fn fmt<W: Write>(&self, f: &mut Formatter<W>) -> fmt::Result {
        let seconds = self.0;
        let minutes = seconds / 60;
        match seconds {
            0..=99 => write!(f, "{seconds} s"),
            100..=5_999 => write!(f, "{minutes} min"),
            _ => write!(f, "{} h {} min", minutes / 60, minutes % 60),
        }
    }
}
