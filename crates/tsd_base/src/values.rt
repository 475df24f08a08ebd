//! Values in text.
ghost use Rattle.std.specs.Prelude.{◌≡◌, Bool, false, length, take_while, Err};
ghost use Rattle.std.specs.Char.{is_ascii_digit};
ghost use Rattle.tsd_base.specs.Digits.{is_number};
ghost use Rattle.tsd_base.specs.Values.{value_of, unsigned_of, signed_of, is_float_mark};

use crate::digits::read_digits;

/// Why a text is no value.
#[derive(Clone, Copy, Debug, PartialEq, Eq)]
pub enum ValueFault {
    /// Digits followed by `.`, `e` or `E`.
    Float,
    /// No digit behind the sign, or digits followed by any other byte.
    BadValue,
    /// A number outside `i64`.
    ValueTooLarge,
}

/// Reads a value: an optional `+` or `-`, and then one or more digits to the end.
#[inline(always)]
#[tactic(auto, unfolding(crate::specs::Values::value_of))]
pub fn read_value(text: &[u8]) -> Result<i64, ValueFault>
    ensures { result ≡ value_of text.now }
{
    let Some((first, rest)) = text.split_first() else {
        return Err(ValueFault::BadValue);
    };
    match *first {
        b'+' => read_unsigned(rest, false),
        b'-' => read_unsigned(rest, true),
        _ => read_unsigned(text, false),
    }
}

/// The value of what stands behind the sign.
#[inline]
#[tactic(auto, using(crate::proofs::Numerals::values))]
fn read_unsigned(text: &[u8], negative: bool) -> Result<i64, ValueFault>
    ensures { result ≡ unsigned_of negative text.now }
{
    match read_digits(text) {
        Some(n) => signed(n, negative),
        None => Err(fault_of(text)),
    }
}

/// The number with its sign, where an `i64` has it.
#[inline]
fn signed(n: u64, negative: bool) -> Result<i64, ValueFault>
    ensures { result ≡ signed_of negative n }
{
    let value = if negative {
        0i64.checked_sub_unsigned(n)
    } else {
        0i64.checked_add_unsigned(n)
    };
    value.ok_or(ValueFault::ValueTooLarge)
}

/// What is wrong with a text that is not digits alone.
#[inline(never)]
#[tactic(auto, using(crate::proofs::Numerals::values))]
fn fault_of(text: &[u8]) -> ValueFault
    requires { is_number text.now ≡ false }
    ensures { (negative : Bool) → unsigned_of negative text.now ≡ Err result }
{
    match digits_len(text) {
        0 => ValueFault::BadValue,
        count if is_float_mark(text[count]) => ValueFault::Float,
        _ => ValueFault::BadValue,
    }
}

/// How many digits a text begins with.
fn digits_len(text: &[u8]) -> usize
    ensures { result ≡ length (take_while is_ascii_digit text.now) }
{
    text.iter().take_while(|b| b.is_ascii_digit()).count()
}

fn is_float_mark(b: u8) -> bool
    ensures { result ≡ is_float_mark b }
{
    matches!(b, b'.' | b'e' | b'E')
}
