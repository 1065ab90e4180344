//! Writes moments as text.

ghost use Rattle.std.specs.Prelude.{◌≡◌, ◌<◌, IfOk, IsAscii};
ghost use Rattle.jiff.specs.Words.{IsEpochDay, epoch_day};
ghost use Rattle.droid_export.specs.Moments.{IsMoment, date_of, second_of_day, two_digits};
ghost use Rattle.droid_export.specs.Moments as moments;

use droid_frame::Text;
use jiff::ToSpan;
use jiff::civil::{self, Date};
use std::alloc::{AllocError, Global};

/// The number of seconds of a day. `specs/Moments.antt` has it too, and the prover ties both.
const DAY: i64 = 86_400;

/// Writes a moment as `yyyy-mm-ddThh:mm:ss` in UTC. Fails only if memory runs out.
///
/// `modified` is in seconds since 1970-01-01T00:00:00. The number of whole days is rounded down, also before 1970. The
/// caller ensures that the moment lies from 0001-01-01T00:00:00 to 9999-12-31T23:59:59.
pub fn moment_text(alloc: Global, modified: i64) -> Result<Text, AllocError>
    requires { IsMoment modified }
    ensures { IfOk result (λ text. text ≡ moments.moment_text modified) }
{
    let bytes = moment_bytes(modified);
    let text = str::from_utf8(&bytes).unwrap();
    Text::copy_of(alloc, text)
}

/// Returns the bytes of the text that [`moment_text`] writes. Takes no memory.
///
/// The caller ensures that the moment has a text, as there.
#[tactic(auto, unfolding(crate::specs::Moments::moment_text))]
pub fn moment_bytes(modified: i64) -> [u8; 19]
    requires { IsMoment modified }
    ensures value { result ≡ moments.moment_text modified }
    ensures ascii { IsAscii result }
{
    let date = date_of(modified);
    let second = modified.rem_euclid(DAY) as u32;
    let [y1, y2] = two_digits((date.year / 100) as u8);
    let [y3, y4] = two_digits((date.year % 100) as u8);
    let [mo1, mo2] = two_digits(date.month);
    let [d1, d2] = two_digits(date.day);
    let [h1, h2] = two_digits((second / 3_600) as u8);
    let [mi1, mi2] = two_digits((second / 60 % 60) as u8);
    let [s1, s2] = two_digits((second % 60) as u8);
    [
        y1, y2, y3, y4, b'-', mo1, mo2, b'-', d1, d2, b'T', h1, h2, b':', mi1, mi2, b':', s1, s2,
    ]
}

/// A date of the civil calendar.
#[derive(Clone, Copy)]
struct Civil {
    year: u16,
    month: u8,
    day: u8,
}

/// Returns the date of a moment, in UTC.
fn date_of(modified: i64) -> Civil
    requires { IsMoment modified }
    ensures year { result.year ≡ (date_of modified).year }
    ensures month { result.month ≡ (date_of modified).month }
    ensures day { result.day ≡ (date_of modified).day }
    ensures four_digits { result.year < 10000 }
    ensures two_digits { (result.month < 100) × (result.day < 100) }
{
    let date = date_of_day(modified.div_euclid(DAY));
    Civil {
        year: date.year() as u16,
        month: date.month() as u8,
        day: date.day() as u8,
    }
}

/// Returns the date that lies this number of days after 1970-01-01, or before it. `epoch_day` is that number in the
/// kit's calendar, `jiff`.
fn date_of_day(days: i64) -> Date
    requires { IsEpochDay days }
    ensures { epoch_day result ≡ days }
{
    civil::date(1970, 1, 1).checked_add(days.days()).unwrap()
}

/// Returns a number below 100 as two decimal digits.
fn two_digits(n: u8) -> [u8; 2]
    requires { n < 100 }
    ensures value { result ≡ two_digits n }
    ensures ascii { IsAscii result }
{
    [b'0' + n / 10, b'0' + n % 10]
}
