//! Times, as they are written in UTC and as they are counted: in milliseconds since the beginning of 1970.

ghost use Rattle.std.specs.Prelude.{◌≤◌, IfSome};

use std::io::{self, Write};

/// How many bytes a time has.
pub(crate) const TIME_BYTES: usize = 24;

/// The days from 0000-03-01 to 1970-01-01.
const DAYS_BEFORE_1970: u64 = 719_468;

/// The days of 400 years.
const DAYS_OF_400_YEARS: u64 = 146_097;

const MILLISECONDS_OF_A_DAY: u64 = 86_400_000;

/// Returns the number that digits stand for; None if they are not digits alone.
fn digits(text: &[u8]) -> Option<u64> {
    let mut value: u64 = 0;
    for byte in text {
        if *byte < b'0' || *byte > b'9' {
            return None;
        }
        value = value.wrapping_mul(10).wrapping_add(u64::from(*byte - b'0'));
    }
    Some(value)
}

fn is_leap_year(year: u64) -> bool {
    year % 4 == 0 && (year % 100 != 0 || year % 400 == 0)
}

fn days_of_month(year: u64, month: u64) -> u64 {
    match month {
        2 if is_leap_year(year) => 29,
        2 => 28,
        4 | 6 | 9 | 11 => 30,
        _ => 31,
    }
}

/// Returns the days from the beginning of 1970 to a day. A year is taken to begin in March, so that a leap day is its
/// last.
fn days_since_1970(year: u64, month: u64, day: u64) -> u64 {
    let (year, months) = if month > 2 {
        (year, month.saturating_sub(3))
    } else {
        (year.saturating_sub(1), month.saturating_add(9))
    };
    let years = year % 400;
    let days_of_year = (153 * (months % 12) + 2) / 5 + (day % 32).saturating_sub(1);
    let days = (years * 365 + years / 4 + days_of_year).saturating_sub(years / 100);
    (year / 400)
        .saturating_mul(DAYS_OF_400_YEARS)
        .saturating_add(days)
        .saturating_sub(DAYS_BEFORE_1970)
}

/// Returns the number of two digits at a place of a time, if it is within a range.
fn two_digits(text: &[u8], place: usize, least: u64, most: u64) -> Option<u64>
    ensures { IfSome result (λ value. value ≤ most) }
{
    let value = digits(text.get(place..place.saturating_add(2))?)?;
    if least <= value && value <= most {
        Some(value)
    } else {
        None
    }
}

/// Returns true if a text has the marks of a time, as `2026-11-28T17:45:00.123Z`, and as many bytes.
fn has_marks(text: &[u8]) -> bool {
    text.len() == TIME_BYTES
        && text[4] == b'-'
        && text[7] == b'-'
        && text[10] == b'T'
        && text[13] == b':'
        && text[16] == b':'
        && text[19] == b'.'
        && text[23] == b'Z'
}

/// Returns the time that a text says, in milliseconds since the beginning of 1970; None if it is none from 1970 on.
pub(crate) fn time_of(text: &[u8]) -> Option<u64> {
    if !has_marks(text) {
        return None;
    }
    let year = digits(text.get(..4)?)?;
    let month = two_digits(text, 5, 1, 12)?;
    let day = two_digits(text, 8, 1, 31)?;
    if year < 1970 || day > days_of_month(year, month) {
        return None;
    }
    let hours = two_digits(text, 11, 0, 23)?;
    let minutes = two_digits(text, 14, 0, 59)?;
    let seconds = two_digits(text, 17, 0, 59)?;
    let milliseconds = digits(text.get(20..23)?)?;
    let of_day = ((hours * 60 + minutes) * 60 + seconds) * 1000;
    Some(
        days_since_1970(year, month, day)
            .saturating_mul(MILLISECONDS_OF_A_DAY)
            .saturating_add(of_day)
            .saturating_add(milliseconds),
    )
}

/// Writes a time to the second, as `2026-11-28T17:45:00Z`.
pub(crate) fn write_time<W: Write>(out: &mut W, time: u64) -> io::Result<()> {
    let days = time / MILLISECONDS_OF_A_DAY + DAYS_BEFORE_1970;
    let day_of_era = days % DAYS_OF_400_YEARS;
    let years = (day_of_era + day_of_era / 36_524)
        .saturating_sub(day_of_era / 1460)
        .saturating_sub(day_of_era / 146_096)
        / 365;
    let day_of_year = (day_of_era + years / 100).saturating_sub(years * 365 + years / 4);
    let months = (5 * day_of_year + 2) / 153;
    let day = day_of_year.saturating_sub((153 * months + 2) / 5) + 1;
    let month = if months < 10 {
        months + 3
    } else {
        months.saturating_sub(9)
    };
    let year = (days / DAYS_OF_400_YEARS) * 400 + years + if month <= 2 { 1 } else { 0 };
    let seconds = (time / 1000) % 86_400;
    let hours = seconds / 3600;
    let minutes = seconds / 60 % 60;
    let rest = seconds % 60;
    write!(
        out,
        "{year:04}-{month:02}-{day:02}T{hours:02}:{minutes:02}:{rest:02}Z"
    )
}
