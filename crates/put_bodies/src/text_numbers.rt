//! A number at the front of a text of JSON.
ghost use Rattle.std.specs.Prelude.{◌≡◌, ◌<◌, ◌≤◌, ◌^◌, ◌∷◌, ◌||◌, length, not, position, true, IfSome, IsSome};
ghost use Rattle.std.specs.Char.{is_ascii_digit};
ghost use Rattle.std.specs.List.{list_all, position_or_len};
ghost use Rattle.std.specs.Str.Parse.{digits_value};
ghost use Rattle.json.specs.Print.{IsNumber};
ghost use Rattle.json.specs.Token.{number};
ghost use Rattle.json.specs.Lex.{token};
ghost use Rattle.json.specs.Word as word;
ghost use Rattle.put_bodies.specs.TextNumbers.{IsFraction, IsNegative, IsOfKind, IsWhole, leads_well};
ghost use Rattle.put_bodies.specs.TextScans.{is_other, lexemes};

use crate::text_scan::is_blank;
use serde_json::Value;
use std::alloc::Global;
use tsd_base::digits::read_digits;

/// The form of a number.
#[derive(Clone, Copy, PartialEq, Eq, Debug)]
pub enum NumberKind {
    /// 1 to 19 digits.
    Whole,
    /// A minus and such digits, no less than the least `i64`.
    Negative,
    /// Any other that JSON values have as a float.
    Fraction,
}

/// A number, its form, and what stands behind it. The text has no blank at its front.
#[inline(always)]
pub fn next_number(alloc: Global, text: &[u8]) -> Option<(NumberKind, &[u8], &[u8])>
    ensures lexeme { IfSome result (λ found. lexemes text.now ≡ token (number found.1.now) ∷ lexemes found.2.now) }
    ensures kind { IfSome result (λ found. IsOfKind found.0 found.1.now) }
    ensures shorter { IfSome result (λ found. length found.2.now < length text.now) }
{
    if let Some((digits, rest)) = next_whole(text) {
        return Some((NumberKind::Whole, digits, rest));
    }
    next_unusual(alloc, text)
}

#[inline(never)]
fn next_unusual(alloc: Global, text: &[u8]) -> Option<(NumberKind, &[u8], &[u8])>
    ensures lexeme { IfSome result (λ found. lexemes text.now ≡ token (number found.1.now) ∷ lexemes found.2.now) }
    ensures kind { IfSome result (λ found. IsOfKind found.0 found.1.now) }
    ensures shorter { IfSome result (λ found. length found.2.now < length text.now) }
{
    if let Some((number, rest)) = next_negative(text) {
        return Some((NumberKind::Negative, number, rest));
    }
    let (number, rest) = next_fraction(alloc, text)?;
    Some((NumberKind::Fraction, number, rest))
}

/// A number of digits alone.
#[inline(always)]
fn next_whole(text: &[u8]) -> Option<(&[u8], &[u8])>
    ensures lexeme { IfSome result (λ found. lexemes text.now ≡ token (number found.0.now) ∷ lexemes found.1.now) }
    ensures whole { IfSome result (λ found. IsWhole found.0.now) }
    ensures shorter { IfSome result (λ found. length found.1.now < length text.now) }
{
    let (digits, rest) = text.split_at(digits_len(text));
    if is_whole(digits) && ends_word(rest) {
        Some((digits, rest))
    } else {
        None
    }
}

/// A number below 0 of a minus and digits.
fn next_negative(text: &[u8]) -> Option<(&[u8], &[u8])>
    ensures lexeme { IfSome result (λ found. lexemes text.now ≡ token (number found.0.now) ∷ lexemes found.1.now) }
    ensures negative { IfSome result (λ found. IsNegative found.0.now) }
    ensures shorter { IfSome result (λ found. length found.1.now < length text.now) }
{
    let (sign, behind) = text.split_first()?;
    let (number, rest) = text.split_at(1 + digits_len(behind));
    if *sign == b'-' && is_below(&number[1..]) && ends_word(rest) {
        Some((number, rest))
    } else {
        None
    }
}

/// Whether digits are those of a number below 0 that fits `i64`.
fn is_below(digits: &[u8]) -> bool
    ensures { result ≡ true → list_all is_ascii_digit digits.now ≡ true → IsWhole digits.now × (0 < digits_value 10 digits.now) × (digits_value 10 digits.now ≤ 2 ^ 63) }
{
    is_whole(digits) && is_size(digits)
}

fn is_size(digits: &[u8]) -> bool
    ensures { result ≡ true → (0 < digits_value 10 digits.now) × (digits_value 10 digits.now ≤ 2 ^ 63) }
{
    match read_digits(digits) {
        Some(size) => 0 < size && size <= 1 << 63,
        None => false,
    }
}

/// A number that JSON values have as a float.
fn next_fraction(alloc: Global, text: &[u8]) -> Option<(&[u8], &[u8])>
    ensures lexeme { IfSome result (λ found. lexemes text.now ≡ token (number found.0.now) ∷ lexemes found.1.now) }
    ensures fraction { IfSome result (λ found. IsFraction found.0.now) }
    ensures shorter { IfSome result (λ found. length found.1.now < length text.now) }
{
    let (number, rest) = text.split_at(number_len(text));
    if is_fraction(alloc, number) && ends_word(rest) {
        Some((number, rest))
    } else {
        None
    }
}

fn is_fraction(alloc: Global, number: &[u8]) -> bool
    ensures { result ≡ true → IsNumber number.now × IsFraction number.now × (0 < length number.now) }
{
    match std::str::from_utf8(number) {
        Ok(text) => json::is_number(text) && is_float(alloc, text),
        Err(_) => false,
    }
}

fn is_float(alloc: Global, text: &str) -> bool
    ensures { result ≡ true → IsNumber text.now → IsFraction text.now × (0 < length text.now) }
{
    match Value::from_str(alloc, text) {
        Ok(value) => value.is_f64(),
        Err(_) => false,
    }
}

/// How many digits a text begins with.
#[inline(always)]
#[tactic(auto, using(crate::proofs::ScanLemmas::position_or_whole, crate::proofs::ScanLemmas::position_within))]
fn digits_len(text: &[u8]) -> usize
    ensures place { result ≡ position_or_len (λ b. not (is_ascii_digit b)) text.now }
    ensures bound { result ≤ length text.now }
{
    digits_end(text).unwrap_or(text.len())
}

#[inline(always)]
fn digits_end(text: &[u8]) -> Option<usize>
    ensures { result ≡ position (λ b. not (is_ascii_digit b)) text.now }
{
    text.iter().position(|b| !b.is_ascii_digit())
}

/// How many bytes of a number a text begins with.
#[tactic(auto, using(crate::proofs::ScanLemmas::position_or_whole, crate::proofs::ScanLemmas::position_within))]
fn number_len(text: &[u8]) -> usize
    ensures bound { result ≤ length text.now }
{
    number_end(text).unwrap_or(text.len())
}

fn number_end(text: &[u8]) -> Option<usize>
    ensures { result ≡ position is_other text.now }
{
    text.iter().position(|b| !is_number_byte(*b))
}

fn is_number_byte(b: u8) -> bool
    ensures { result ≡ not (is_other b) }
{
    b.is_ascii_digit() || b == b'-' || b == b'+' || b == b'.' || b == b'e' || b == b'E'
}

/// Whether digits are few, and none is a 0 before others.
#[inline(always)]
fn is_whole(digits: &[u8]) -> bool
    ensures { result ≡ true → list_all is_ascii_digit digits.now ≡ true → IsWhole digits.now }
{
    leads_well(digits) && digits.len() <= 19
}

#[inline(always)]
fn leads_well(digits: &[u8]) -> bool
    ensures { result ≡ leads_well digits.now }
{
    match digits {
        [] => false,
        [_] => true,
        [first, ..] => *first != b'0',
    }
}

/// Whether a number may end before a text.
#[inline(always)]
fn ends_word(rest: &[u8]) -> bool
    ensures { result ≡ true → word.ends_word rest.now ≡ true }
{
    match rest {
        [] => true,
        [first, ..] => is_delimiter(*first),
    }
}

#[inline(always)]
fn is_delimiter(b: u8) -> bool
    ensures { result ≡ true → (word.is_operator b || word.is_space b) ≡ true }
{
    b == b',' || b == b'}' || b == b']' || is_blank(b)
}
