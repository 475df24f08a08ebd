//! Times in text.
ghost use Rattle.std.specs.Prelude.{◌≡◌, length, IfOk};
ghost use Rattle.tsd_base.specs.Moments.{IsTime};
ghost use Rattle.tsd_base.specs.Times.{time_of, whole_time, dotted_of, is_dotted};

use crate::digits::read_digits;

/// The last second that a time can have.
pub const LAST_SECOND: u64 = 4_294_967_295;

/// The last time, in milliseconds.
pub const LAST_TIME: u64 = 4_294_967_295_999;

/// A text that is no time.
#[derive(Clone, Copy, Debug, PartialEq, Eq)]
pub struct BadTime;

/// Reads a time: its milliseconds, and whether it was given in milliseconds.
///
/// Digits alone are seconds up to 4294967295 and milliseconds from there to 4294967295999; 0 is no time. Ten digits,
/// a dot and three digits are milliseconds of a second up to 4294967295, and not 0.
#[inline]
#[tactic(auto, using(crate::proofs::TimesLemmas::times))]
pub fn read_time(text: &[u8]) -> Result<(u64, bool), BadTime>
    ensures gives { result ≡ time_of text.now }
    ensures timed { IfOk result (λ t. IsTime t.0 t.1) }
{
    if is_dotted(text) {
        return read_dotted(&text[..10], &text[11..]);
    }
    match read_digits(text) {
        Some(n) => whole_time(n),
        None => Err(BadTime),
    }
}

/// Whether a text has the form of seconds, a dot and three digits.
#[inline]
fn is_dotted(text: &[u8]) -> bool
    ensures { result ≡ is_dotted text.now }
{
    text.len() == 14 && text[10] == b'.'
}

/// The time of a number: of seconds, or from 2 ^ 32 on of milliseconds.
#[inline]
fn whole_time(n: u64) -> Result<(u64, bool), BadTime>
    ensures { result ≡ whole_time n }
{
    match n {
        1..=LAST_SECOND => Ok((n * 1000, false)),
        0 => Err(BadTime),
        _ if n <= LAST_TIME => Ok((n, true)),
        _ => Err(BadTime),
    }
}

/// The time of seconds and milliseconds, each in digits alone.
#[inline(never)]
#[tactic(auto, using(crate::proofs::TimesLemmas::times))]
fn read_dotted(seconds: &[u8], millis: &[u8]) -> Result<(u64, bool), BadTime>
    requires { length millis.now ≡ 3 }
    ensures gives { result ≡ dotted_of seconds.now millis.now }
    ensures timed { IfOk result (λ t. IsTime t.0 t.1) }
{
    match (read_digits(seconds), read_digits(millis)) {
        (Some(second), Some(milli)) if second <= LAST_SECOND && 0 < second + milli => {
            Ok((second * 1000 + milli, true))
        }
        _ => Err(BadTime),
    }
}
