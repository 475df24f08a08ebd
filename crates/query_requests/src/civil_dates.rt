//! Dates with times of day, in UTC.
ghost use Rattle.std.specs.Prelude.{◌≡◌, ◌≤◌, ◌+◌, length, IfSome};
ghost use Rattle.tsd_base.specs.declared.times.TheConstants.{LAST_TIME};
ghost use Rattle.query_requests.specs.CivilMoments.{IsSmall, IsMoment};
ghost use Rattle.query_requests.specs.CivilDates.{civil_time, clock_at, clock_of, date_of, milli_of, number_at};

use jiff::civil::DateTime;
use tsd_base::digits::read_digits;
use tsd_base::times::LAST_SECOND;

/// A time of day.
#[derive(Clone, Copy)]
struct Clock {
    hour: u64,
    minute: u64,
    second: u64,
}

/// The first millisecond of the date that a text is, in UTC, if it is one.
///
/// A date is `yyyy/MM/dd`, alone or with `HH:mm` or `HH:mm:ss` behind a `-` or one space, in exactly these numbers of
/// digits. The calendar has to have it, its seconds are at most 59, and it is one of the times that points can have, or
/// 0.
#[tactic(auto, unfolding(crate::specs::CivilDates::date_of))]
pub fn read_date(text: &[u8]) -> Option<u64>
    ensures date { result ≡ date_of text.now }
    ensures most { IfSome result (λ time. time ≤ LAST_TIME) }
{
    let clock = clock_of(text)?;
    let year = number_at(text, 0, 4)?;
    let month = number_at(text, 5, 2)?;
    let day = number_at(text, 8, 2)?;
    if text[4] == b'/' && text[7] == b'/' {
        civil_time(year, month, day, clock)
    } else {
        None
    }
}

/// The time of day behind a date.
fn clock_of(text: &[u8]) -> Option<Clock>
    ensures clock { result ≡ clock_of text.now }
    ensures long { IfSome result (λ _. 10 ≤ length text.now) }
{
    if text.len() == 10 {
        return Some(Clock {
            hour: 0,
            minute: 0,
            second: 0,
        });
    }
    if text.len() == 16 {
        return clock_at(text, 0);
    }
    if text.len() == 19 && text[16] == b':' {
        return clock_at(text, number_at(text, 17, 2)?);
    }
    None
}

/// The time of day of a `-` or a space, `HH:mm` and a second.
fn clock_at(text: &[u8], second: u64) -> Option<Clock>
    requires { 16 ≤ length text.now }
    ensures { result ≡ clock_at second text.now }
{
    let hour = number_at(text, 11, 2)?;
    let minute = number_at(text, 14, 2)?;
    if (text[10] == b'-' || text[10] == b' ') && text[13] == b':' {
        Some(Clock {
            hour,
            minute,
            second,
        })
    } else {
        None
    }
}

/// The number of so many digits from a place on.
fn number_at(text: &[u8], at: usize, len: usize) -> Option<u64>
    requires within { at + len ≤ length text.now }
    requires few { len ≤ 4 }
    ensures { result ≡ number_at at len text.now }
{
    read_digits(&text[at..at + len])
}

/// The time of a date and a time of day, where the calendar has them.
fn civil_time(year: u64, month: u64, day: u64, clock: Clock) -> Option<u64>
    ensures most { IfSome result (λ time. time ≤ LAST_TIME) }
    ensures time { result ≡ civil_time (record { year = year; month = month; day = day; hour = clock.hour; minute = clock.minute; second = clock.second }) }
{
    let Clock {
        hour,
        minute,
        second,
    } = clock;
    if year > 9999 || month > 12 || day > 31 || hour > 23 || minute > 59 || second > 59 {
        return None;
    }
    let moment = moment_of(
        year as u16,
        month as u8,
        day as u8,
        hour as u8,
        minute as u8,
        second as u8,
    )?;
    milli_of(moment.to_plain().to_second())
}

/// A date and a time of day, where the calendar has them.
fn moment_of(year: u16, month: u8, day: u8, hour: u8, minute: u8, second: u8) -> Option<DateTime>
    requires { IsSmall year month day hour minute second }
    ensures { IsMoment year month day hour minute second result }
{
    match DateTime::new(
        year as i16,
        month as i8,
        day as i8,
        hour as i8,
        minute as i8,
        second as i8,
        0,
    ) {
        Ok(moment) => Some(moment),
        Err(_) => None,
    }
}

/// The first millisecond of a second, from 0 to the last time.
fn milli_of(second: i64) -> Option<u64>
    ensures milli { result ≡ milli_of second }
    ensures most { IfSome result (λ time. time ≤ LAST_TIME) }
{
    if 0 <= second && second <= LAST_SECOND as i64 {
        Some(second as u64 * 1000)
    } else {
        None
    }
}
