//! The order and equality of bytes, eight at a time.
ghost use Rattle.std.specs.Prelude.{◌≡◌, ◌+◌, ◌≤◌, length, take, drop, nat_eq};
ghost use Rattle.std.specs.Int.Digits.{AllBelowBase, number_from_digits};
ghost use Rattle.std.specs.Ordering.{nat_cmp};
ghost use Rattle.std.specs.Cmp.Lexicographic.{slice_cmp, pointwise};
ghost use Rattle.short_bytes.specs.Kept.{IsFilled};

use crate::loads::{same_eight, same_four, same_two};
use std::cmp::Ordering;

/// Eight bytes as one number, of which the first byte counts most.
#[inline]
fn word(list: &[u8], at: usize) -> u64
    requires { at + 8 ≤ length list.now }
    ensures value { result ≡ number_from_digits 256 (take 8 (drop at list.now)) }
    ensures bytes { AllBelowBase 256 (take 8 (drop at list.now)) }
{
    u64::from_be_bytes([
        list[at],
        list[at + 1],
        list[at + 2],
        list[at + 3],
        list[at + 4],
        list[at + 5],
        list[at + 6],
        list[at + 7],
    ])
}

/// The order of eight bytes of each list.
#[inline]
fn order_words(one: &[u8], other: &[u8], at: usize) -> Ordering
    requires { (at + 8 ≤ length one.now) × (at + 8 ≤ length other.now) }
    ensures { result ≡ slice_cmp nat_cmp (take 8 (drop at one.now)) (take 8 (drop at other.now)) }
{
    word(one, at).cmp(&word(other, at))
}

/// The order of two blocks. The last word begins within the one before, since 30 is not a multiple of 8.
#[inline]
fn order_blocks(one: &[u8; 30], other: &[u8; 30]) -> Ordering
    ensures { result ≡ slice_cmp nat_cmp one.now other.now }
{
    let first = order_words(one, other, 0);
    if first.is_ne() {
        return first;
    }
    let second = order_words(one, other, 8);
    if second.is_ne() {
        return second;
    }
    let third = order_words(one, other, 16);
    if third.is_ne() {
        return third;
    }
    order_words(one, other, 22)
}

/// The order of the bytes that count of two blocks: that of the blocks, and then of the lengths.
#[inline]
pub(crate) fn order_filled(
    len: u8,
    block: &[u8; 30],
    other_len: u8,
    other_block: &[u8; 30],
) -> Ordering
    requires { IsFilled len block.now × IsFilled other_len other_block.now }
    ensures { result ≡ slice_cmp nat_cmp (take len block.now) (take other_len other_block.now) }
{
    let blocks = order_blocks(block, other_block);
    if blocks.is_ne() {
        return blocks;
    }
    len.cmp(&other_len)
}

/// Whether two blocks are the same. It has no branches, and no two numbers share a byte: then each is compiled into one load.
#[inline(always)]
fn same_blocks(one: &[u8; 30], other: &[u8; 30]) -> bool
    ensures { result ≡ pointwise nat_eq one.now other.now }
{
    same_eight(one, other, 0)
        & same_eight(one, other, 8)
        & same_eight(one, other, 16)
        & same_four(one, other, 24)
        & same_two(one, other, 28)
}

/// Whether the bytes that count of two blocks are the same.
#[inline(always)]
pub(crate) fn same_filled(len: u8, block: &[u8; 30], other_len: u8, other_block: &[u8; 30]) -> bool
    requires { IsFilled len block.now × IsFilled other_len other_block.now }
    ensures { result ≡ pointwise nat_eq (take len block.now) (take other_len other_block.now) }
{
    if len != other_len {
        return false;
    }
    same_blocks(block, other_block)
}

/// The order of two lists of any length.
#[inline]
pub(crate) fn order_lists(one: &[u8], other: &[u8]) -> Ordering
    ensures { result ≡ slice_cmp nat_cmp one.now other.now }
{
    let words = one.len().min(other.len()) / 8;
    for i in 0..words {
        let order = order_words(one, other, i * 8);
        if order.is_ne() {
            return order;
        }
    }
    let (_, one_rest) = one.split_at(words * 8);
    let (_, other_rest) = other.split_at(words * 8);
    one_rest.cmp(other_rest)
}
