//! Decimal digits.
ghost use Rattle.std.specs.Prelude.{◌≡◌, ◌<◌, ◌≤◌, ◌^◌, ◌*◌, ◌+◌, ◌-◌, length, min, MatchOption, true, false};
ghost use Rattle.std.specs.Char.{is_ascii_digit};
ghost use Rattle.std.specs.List.{list_all};
ghost use Rattle.std.specs.Str.Parse.{digits_value};
ghost use Rattle.tsd_base.specs.Digits.{is_number};

/// The number of a text of one or more decimal digits, of any length; at most the last `u64`.
pub fn read_digits(text: &[u8]) -> Option<u64>
    ensures { MatchOption result (is_number text.now ≡ false)
        (λ n. (is_number text.now ≡ true) × (n ≡ min (digits_value 10 text.now) (2 ^ 64 - 1))) }
{
    if text.len() <= 18 {
        read_short(text)
    } else {
        read_long(text)
    }
}

/// The number of a text of so few digits that every `u64` on the way has room.
#[inline]
fn read_short(text: &[u8]) -> Option<u64>
    requires { length text.now ≤ 18 }
    ensures { MatchOption result (is_number text.now ≡ false)
        (λ n. (is_number text.now ≡ true) × (n ≡ min (digits_value 10 text.now) (2 ^ 64 - 1))) }
{
    if let Some(first) = text.first_chunk::<8>() {
        return read_behind(read_eight(first)?, &text[8..]);
    }
    if let Some(first) = text.first_chunk::<4>() {
        return read_behind(read_four(first)?, &text[4..]);
    }
    if text.is_empty() {
        return None;
    }
    read_behind(0, text)
}

/// The number with a few more digits behind it.
#[inline(always)]
fn read_behind(number: u64, text: &[u8]) -> Option<u64>
    requires { (number < 10 ^ 8) × (length text.now ≤ 10) }
    ensures { MatchOption result (list_all is_ascii_digit text.now ≡ false)
        (λ n. (list_all is_ascii_digit text.now ≡ true) × (n ≡ number * 10 ^ length text.now + digits_value 10 text.now)) }
{
    match text.as_array::<2>() {
        Some(pair) => read_pair(number, pair),
        None => read_each(number, text),
    }
}

/// The number with two more digits behind it.
#[inline(always)]
fn read_pair(number: u64, text: &[u8; 2]) -> Option<u64>
    requires { number < 10 ^ 8 }
    ensures { MatchOption result (list_all is_ascii_digit text.now ≡ false)
        (λ n. (list_all is_ascii_digit text.now ≡ true) × (n ≡ number * 10 ^ length text.now + digits_value 10 text.now)) }
{
    if !text[0].is_ascii_digit() || !text[1].is_ascii_digit() {
        return None;
    }
    Some((number * 10 + u64::from(text[0] - b'0')) * 10 + u64::from(text[1] - b'0'))
}

/// The number with each digit of a text behind it.
#[inline(always)]
fn read_each(number: u64, text: &[u8]) -> Option<u64>
    requires { (number < 10 ^ 8) × (length text.now ≤ 10) }
    ensures { MatchOption result (list_all is_ascii_digit text.now ≡ false)
        (λ n. (list_all is_ascii_digit text.now ≡ true) × (n ≡ number * 10 ^ length text.now + digits_value 10 text.now)) }
{
    let mut n = number;
    for b in text {
        if !b.is_ascii_digit() {
            return None;
        }
        n = n * 10 + u64::from(*b - b'0');
    }
    Some(n)
}

/// The number of eight digits.
#[inline(always)]
fn read_eight(text: &[u8; 8]) -> Option<u64>
    ensures { MatchOption result (list_all is_ascii_digit text.now ≡ false)
        (λ n. (list_all is_ascii_digit text.now ≡ true) × (n ≡ digits_value 10 text.now)) }
{
    if are_digits(text) {
        Some(value_of_eight(text))
    } else {
        None
    }
}

/// The number of four digits.
#[inline(always)]
fn read_four(text: &[u8; 4]) -> Option<u64>
    ensures { MatchOption result (list_all is_ascii_digit text.now ≡ false)
        (λ n. (list_all is_ascii_digit text.now ≡ true) × (n ≡ digits_value 10 text.now)) }
{
    if are_digits(text) {
        Some(value_of_four(text))
    } else {
        None
    }
}

/// Whether each byte is a digit. It looks at all of them, so that those of an array are compared at once.
#[inline(always)]
fn are_digits(text: &[u8]) -> bool
    ensures { result ≡ list_all is_ascii_digit text.now }
{
    let mut all = true;
    for b in text {
        all = all & b.is_ascii_digit();
    }
    all
}

/// The value of eight digits.
#[inline(always)]
fn value_of_eight(text: &[u8; 8]) -> u64
    requires { list_all is_ascii_digit text.now ≡ true }
    ensures { result ≡ digits_value 10 text.now }
{
    // A digit in each byte, the first one in the lowest.
    let digits = u64::from_le_bytes(*text) - 0x3030_3030_3030_3030;
    // In every second byte, from the lowest on, the number of a digit and the next one.
    let pairs = digits * 10 + (digits >> 8);
    let first = pairs % 256 * 100 + (pairs >> 16) % 256;
    let last = (pairs >> 32) % 256 * 100 + (pairs >> 48) % 256;
    first * 10_000 + last
}

/// The value of four digits.
#[inline(always)]
fn value_of_four(text: &[u8; 4]) -> u64
    requires { list_all is_ascii_digit text.now ≡ true }
    ensures { result ≡ digits_value 10 text.now }
{
    let digits = u32::from_le_bytes(*text) - 0x3030_3030;
    let pairs = digits * 10 + (digits >> 8);
    u64::from(pairs % 256 * 100 + (pairs >> 16) % 256)
}

/// The number of a text of any length.
fn read_long(text: &[u8]) -> Option<u64>
    ensures { MatchOption result (is_number text.now ≡ false)
        (λ n. (is_number text.now ≡ true) × (n ≡ min (digits_value 10 text.now) (2 ^ 64 - 1))) }
{
    if text.is_empty() {
        return None;
    }
    let mut n: u64 = 0;
    for b in text {
        if !b.is_ascii_digit() {
            return None;
        }
        n = with_digit(n, *b - b'0');
    }
    Some(n)
}

/// The number with one more digit behind it; at most the last `u64`.
#[inline]
fn with_digit(n: u64, digit: u8) -> u64
    requires { digit ≤ 9 }
    ensures { result ≡ min (n * 10 + digit) (2 ^ 64 - 1) }
{
    n.saturating_mul(10).saturating_add(u64::from(digit))
}
