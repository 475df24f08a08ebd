//! Downsamples in text.
ghost use Rattle.std.specs.Prelude.{◌≡◌, ◌≤◌, length, IfSome};
ghost use Rattle.std.specs.Char.{is_ascii_digit};
ghost use Rattle.std.specs.List.{prefix_len};
ghost use Rattle.query_text.specs.Downs.{down_of, fill_named, function_named, interval_by, interval_of, IsInterval};

use crate::cuts::cut;
use tsd_base::digits::read_digits;
use tsd_base::kinds::{Down, Fill, Function};
use tsd_base::times::LAST_TIME;
use tsd_base::units::{MOST_UNITS, unit_millis};

/// The downsample that a text is, if it is one: an interval, a function and perhaps a fill. Where `ms` is false the interval
/// has to be whole seconds.
pub fn read_down(text: &[u8], ms: bool) -> Option<Down>
    ensures down { result ≡ down_of ms text.now }
    ensures interval { IfSome result (λ down. IsInterval ms down.interval) }
{
    let (interval, shape) = cut(text, b'-');
    let (function, fill) = cut(shape?, b'-');
    let interval = read_interval(interval)?;
    let function = function_named(function)?;
    let fill = match fill {
        Some(name) => fill_named(name)?,
        None => Fill::NoFill,
    };
    if ms || interval % 1000 == 0 {
        Some(Down {
            interval,
            function,
            fill,
        })
    } else {
        None
    }
}

/// The milliseconds of a number and a unit.
fn read_interval(text: &[u8]) -> Option<u64>
    ensures { result ≡ interval_of text.now }
{
    let digits = digits_len(text);
    interval_by(&text[..digits], unit_millis(&text[digits..]))
}

/// How many digits a text begins with.
fn digits_len(text: &[u8]) -> usize
    ensures len { result ≡ prefix_len is_ascii_digit text.now }
    ensures within { result ≤ length text.now }
{
    text.iter().take_while(|b| b.is_ascii_digit()).count()
}

fn interval_by(number: &[u8], unit: Option<u64>) -> Option<u64>
    ensures { result ≡ interval_by number.now unit }
{
    let unit = unit?;
    let n = read_digits(number)?;
    if 1 <= n && n <= MOST_UNITS && n.saturating_mul(unit) <= LAST_TIME {
        Some(n.saturating_mul(unit))
    } else {
        None
    }
}

/// The function with this name, if there is one.
fn function_named(name: &[u8]) -> Option<Function>
    ensures { result ≡ function_named name.now }
{
    let function = if name == b"sum".as_slice() {
        Function::Sum
    } else if name == b"min".as_slice() {
        Function::Min
    } else if name == b"max".as_slice() {
        Function::Max
    } else if name == b"avg".as_slice() {
        Function::Avg
    } else if name == b"count".as_slice() {
        Function::Count
    } else if name == b"first".as_slice() {
        Function::First
    } else if name == b"last".as_slice() {
        Function::Last
    } else if name == b"zimsum".as_slice() {
        Function::Zimsum
    } else if name == b"mimmin".as_slice() {
        Function::Mimmin
    } else if name == b"mimmax".as_slice() {
        Function::Mimmax
    } else {
        return None;
    };
    Some(function)
}

/// The fill with this name, if there is one.
fn fill_named(name: &[u8]) -> Option<Fill>
    ensures { result ≡ fill_named name.now }
{
    if name == b"none".as_slice() {
        Some(Fill::NoFill)
    } else if name == b"zero".as_slice() {
        Some(Fill::Zero)
    } else {
        None
    }
}
