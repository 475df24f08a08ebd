//! The times that a query names.
ghost use Rattle.std.specs.Prelude.{◌≡◌, ◌≤◌, length, IfOk, IfSome, Some};
ghost use Rattle.std.specs.Char.{is_ascii_digit};
ghost use Rattle.std.specs.List.{prefix_len};
ghost use Rattle.query_requests.specs.QueryTimes.{fixed_time, is_zero, span_before, time_ago, time_before, time_named};

use crate::civil_dates::read_date;
use tsd_base::digits::read_digits;
use tsd_base::times::{LAST_TIME, read_time};
use tsd_base::units::{MOST_UNITS, unit_millis};

/// A text that is no time of a query.
#[derive(Clone, Copy, Debug, PartialEq, Eq)]
pub struct BadTimes;

/// Reads the time that a query names, in milliseconds, where the clock shows `now`, in milliseconds too.
///
/// It is a time that `read_fixed_time` reads, or a number from 1 to 4294967295 in digits, a unit and `-ago`: so long
/// before now, but not before 0, and not behind the last time. Every other text is `BadTimes`.
#[tactic(auto, unfolding(crate::specs::QueryTimes::time_named))]
pub fn read_time_arg(text: &[u8], now: u64) -> Result<u64, BadTimes>
    ensures time { result ≡ time_named now text.now }
    ensures most { IfOk result (λ time. time ≤ LAST_TIME) }
{
    if let Some(time) = read_fixed_time(text) {
        return Ok(time);
    }
    match time_ago(text, now) {
        Some(time) => Ok(time),
        None => Err(BadTimes),
    }
}

/// The time, in milliseconds, that a text names whatever the clock shows, if it does: the number 0, a time as a
/// point has it, or a date as `read_date` reads it.
#[tactic(auto, unfolding(crate::specs::QueryTimes::fixed_time))]
pub fn read_fixed_time(text: &[u8]) -> Option<u64>
    ensures time { result ≡ fixed_time text.now }
    ensures most { IfSome result (λ time. time ≤ LAST_TIME) }
{
    if is_zero(text) {
        return Some(0);
    }
    match read_time(text) {
        Ok((time, _)) => Some(time),
        Err(_) => read_date(text),
    }
}

/// Whether a text is the number 0.
fn is_zero(text: &[u8]) -> bool
    ensures { result ≡ is_zero text.now }
{
    read_digits(text) == Some(0)
}

/// The time of digits, a unit and `-ago`.
fn time_ago(text: &[u8], now: u64) -> Option<u64>
    ensures time { result ≡ time_ago now text.now }
    ensures most { IfSome result (λ time. time ≤ LAST_TIME) }
{
    if text.len() < 4 || &text[text.len() - 4..] != b"-ago".as_slice() {
        return None;
    }
    span_before(&text[..text.len() - 4], now)
}

/// The time of digits and a unit, before now.
fn span_before(text: &[u8], now: u64) -> Option<u64>
    ensures time { result ≡ span_before now text.now }
    ensures most { IfSome result (λ time. time ≤ LAST_TIME) }
{
    let digits = digits_len(text);
    let n = read_digits(&text[..digits])?;
    let unit = unit_millis(&text[digits..])?;
    time_before(now, n, unit)
}

/// The time of so many units before now, from 0 to the last time.
fn time_before(now: u64, n: u64, unit: u64) -> Option<u64>
    requires { unit ≤ 31536000000 }
    ensures time { result ≡ time_before now n (Some unit) }
    ensures most { IfSome result (λ time. time ≤ LAST_TIME) }
{
    if n == 0 || n > MOST_UNITS {
        return None;
    }
    let span = u128::from(n) * u128::from(unit);
    let time = u128::from(now).saturating_sub(span);
    Some(time.min(u128::from(LAST_TIME)) as u64)
}

/// How many digits a text begins with.
fn digits_len(text: &[u8]) -> usize
    ensures len { result ≡ prefix_len is_ascii_digit text.now }
    ensures within { result ≤ length text.now }
{
    text.iter().take_while(|b| b.is_ascii_digit()).count()
}
