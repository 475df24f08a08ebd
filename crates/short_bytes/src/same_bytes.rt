//! Whether lists of bytes are the same, up to eight bytes at a time.
ghost use Rattle.std.specs.Prelude.{◌≡◌, ◌≤◌, length, IsTrue};

use crate::loads::{same_eight, same_four, same_two};

/// Whether two lists are the same. Up to 24 bytes are compared as numbers, without a call.
#[inline(always)]
pub fn is_same(one: &[u8], other: &[u8]) -> bool
    ensures same { IsTrue result → one.now ≡ other.now }
    ensures all { one.now ≡ other.now → IsTrue result }
{
    if one.len() != other.len() {
        return false;
    }
    of_one_length(one, other)
}

/// Whether two lists of one length are the same.
#[inline(always)]
fn of_one_length(one: &[u8], other: &[u8]) -> bool
    requires { length one.now ≡ length other.now }
    ensures same { IsTrue result → one.now ≡ other.now }
    ensures all { one.now ≡ other.now → IsTrue result }
{
    match one.len() {
        1 => one[0] == other[0],
        2..=3 => by_two(one, other),
        4..=7 => by_four(one, other),
        8..=16 => by_eight(one, other),
        17..=24 => by_eights(one, other),
        _ => are_equal(one, other),
    }
}

/// Whether two lists are the same, of whatever length.
#[inline(never)]
fn are_equal(one: &[u8], other: &[u8]) -> bool
    ensures same { IsTrue result → one.now ≡ other.now }
    ensures all { one.now ≡ other.now → IsTrue result }
{
    one == other
}

/// Whether two lists of 8 to 16 bytes are the same, by their first 8 and their last 8.
#[inline(always)]
fn by_eight(one: &[u8], other: &[u8]) -> bool
    requires length { length one.now ≡ length other.now }
    requires least { 8 ≤ length one.now }
    requires most { length one.now ≤ 16 }
    ensures same { IsTrue result → one.now ≡ other.now }
    ensures all { one.now ≡ other.now → IsTrue result }
{
    same_eight(one, other, 0) && same_eight(one, other, one.len() - 8)
}

/// Whether two lists of 17 to 24 bytes are the same, by their first eight and by the others.
#[inline(always)]
fn by_eights(one: &[u8], other: &[u8]) -> bool
    requires length { length one.now ≡ length other.now }
    requires least { 17 ≤ length one.now }
    requires most { length one.now ≤ 24 }
    ensures same { IsTrue result → one.now ≡ other.now }
    ensures all { one.now ≡ other.now → IsTrue result }
{
    let (first, rest) = one.split_at(8);
    let (other_first, other_rest) = other.split_at(8);
    by_eight(first, other_first) && by_eight(rest, other_rest)
}

/// Whether two lists of 4 to 8 bytes are the same, by their first 4 and their last 4.
#[inline(always)]
fn by_four(one: &[u8], other: &[u8]) -> bool
    requires length { length one.now ≡ length other.now }
    requires least { 4 ≤ length one.now }
    requires most { length one.now ≤ 8 }
    ensures same { IsTrue result → one.now ≡ other.now }
    ensures all { one.now ≡ other.now → IsTrue result }
{
    same_four(one, other, 0) && same_four(one, other, one.len() - 4)
}

/// Whether two lists of 2 to 4 bytes are the same, by their first 2 and their last 2.
#[inline(always)]
fn by_two(one: &[u8], other: &[u8]) -> bool
    requires length { length one.now ≡ length other.now }
    requires least { 2 ≤ length one.now }
    requires most { length one.now ≤ 4 }
    ensures same { IsTrue result → one.now ≡ other.now }
    ensures all { one.now ≡ other.now → IsTrue result }
{
    same_two(one, other, 0) && same_two(one, other, one.len() - 2)
}
