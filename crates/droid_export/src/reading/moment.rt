//! Whether a text is a moment, that is has the one form in which `src/moment.rt` writes moments.

ghost use Rattle.std.specs.Prelude.{◌≡◌, ◌≤◌, pos};
ghost use Rattle.jiff_core.specs.Calendar.{days_in_month, is_leap_year};
ghost use Rattle.droid_export.specs.ReadMoments as moments;

/// Returns whether this is a moment: a date from 0001-01-01 to 9999-12-31 and a time of day, as `yyyy-mm-ddThh:mm:ss`.
#[tactic(auto, unfolding(crate::specs::ReadMoments::is_moment))]
pub fn is_moment(text: &[u8; 19]) -> bool
    ensures { result ≡ moments.is_moment text.now }
{
    let year = two_of(text[0], text[1]) * 100 + two_of(text[2], text[3]);
    let month = two_of(text[5], text[6]);
    let day = two_of(text[8], text[9]);
    let hour = two_of(text[11], text[12]);
    let minute = two_of(text[14], text[15]);
    let second = two_of(text[17], text[18]);
    has_marks(text) && is_date(year, month, day) && is_time(hour, minute, second)
}

/// Returns whether `-`, `T` and `:` stand in their places between the numbers.
fn has_marks(text: &[u8; 19]) -> bool
    ensures { result ≡ moments.has_marks text.now }
{
    text[4] == b'-' && text[7] == b'-' && text[10] == b'T' && text[13] == b':' && text[16] == b':'
}

/// Returns the number that two decimal digits stand for, and 10,000 for other bytes, which no part of a moment reaches.
fn two_of(a: u8, b: u8) -> u32
    ensures value { result ≡ moments.two_of a b }
    ensures small { result ≤ 10000 }
{
    if a.is_ascii_digit() && b.is_ascii_digit() {
        u32::from(a - b'0') * 10 + u32::from(b - b'0')
    } else {
        10_000
    }
}

/// Returns whether the calendar has a date, from the year 1 to 9999.
fn is_date(year: u32, month: u32, day: u32) -> bool
    ensures { result ≡ moments.is_date year month day }
{
    0 < year
        && year < 10_000
        && 0 < month
        && month < 13
        && 0 < day
        && day <= days_in_month(year, month)
}

/// Returns the number of days of a month, from 1 to 12; 31 for another number, which `is_date` refuses before.
fn days_in_month(year: u32, month: u32) -> u32
    ensures { result ≡ days_in_month (pos year) month }
{
    if month == 2 {
        if is_leap_year(year) { 29 } else { 28 }
    } else if month == 4 || month == 6 || month == 9 || month == 11 {
        30
    } else {
        31
    }
}

/// Returns whether a year has 366 days, in the calendar of ISO 8601.
fn is_leap_year(year: u32) -> bool
    ensures { result ≡ is_leap_year (pos year) }
{
    year % 4 == 0 && (year % 100 != 0 || year % 400 == 0)
}

/// Returns whether a day has this time; no minute has a second 60.
fn is_time(hour: u32, minute: u32, second: u32) -> bool
    ensures { result ≡ moments.is_time hour minute second }
{
    hour < 24 && minute < 60 && second < 60
}
