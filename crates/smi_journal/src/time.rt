//! The time that a line begins with, and a file is named by.

use jiff_core::civil::DateTime;
use std::alloc::AllocError;
use std::io::Write;

/// How many milliseconds a day has.
pub(crate) const DAY: u64 = 86_400_000;

/// Returns the date and time in UTC of these milliseconds since 1970; none past the year 9999.
fn date_time(millis: u64) -> Option<DateTime> {
    DateTime::from_nanosecond(i128::from(millis) * 1_000_000).ok()
}

/// Adds a time to a text: that of these milliseconds since 1970, in UTC, as `2026-11-27T22:00:01.123Z`.
///
/// One past the year 9999 is told as its milliseconds.
pub fn push_time(text: &mut Vec<u8>, millis: u64) -> Result<(), AllocError> {
    let Some(DateTime { date, time }) = date_time(millis) else {
        return write!(text, "{millis}").map_err(|_| AllocError);
    };
    write!(text, "{:04}-{:02}-{:02}T", date.year, date.month, date.day).map_err(|_| AllocError)?;
    write!(
        text,
        "{:02}:{:02}:{:02}",
        time.hour, time.minute, time.second
    )
    .map_err(|_| AllocError)?;
    write!(text, ".{:03}Z", millis % 1000).map_err(|_| AllocError)
}

/// Adds a time to the name of a file: in UTC and with whole seconds, as `20261127T220001Z`.
pub(crate) fn push_name_time(text: &mut Vec<u8>, millis: u64) -> Result<(), AllocError> {
    let Some(DateTime { date, time }) = date_time(millis) else {
        return write!(text, "{millis}").map_err(|_| AllocError);
    };
    write!(text, "{:04}{:02}{:02}T", date.year, date.month, date.day).map_err(|_| AllocError)?;
    write!(
        text,
        "{:02}{:02}{:02}Z",
        time.hour, time.minute, time.second
    )
    .map_err(|_| AllocError)
}
