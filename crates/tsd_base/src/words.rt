//! The words of a line, between spaces.
ghost use Rattle.std.specs.Prelude.{◌≡◌, ◌<◌, ◌≤◌, [], ◌∷◌, length, map, not, position, MatchOption, IfSome};
ghost use Rattle.std.specs.List.{position_or_len};
ghost use Rattle.std.specs.Simd.Lanes.{mask_l};
ghost use Rattle.tsd_base.specs.Words.{begins_with_space, is_space, words_of};

use std::simd::prelude::*;

// How many bytes are searched at a time.
const LANES: usize = 16;

/// The first word of a text, and what stands behind it.
#[inline]
#[tactic(auto, using(crate::proofs::Parts::words))]
pub fn next_word(text: &[u8]) -> Option<(&[u8], &[u8])>
    ensures words { MatchOption result (words_of text.now ≡ [])
        (λ found. words_of text.now ≡ found.0.now ∷ words_of found.1.now) }
    ensures shorter { IfSome result (λ found. length found.1.now < length text.now) }
{
    let text = behind_space(text);
    let (_, text) = text.split_at(word_start(text)?);
    Some(text.split_at(word_len(text)))
}

/// The text without one space at its front, behind which mostly a word stands.
#[inline(always)]
#[tactic(auto, using(crate::proofs::Parts::words_of_space))]
fn behind_space(text: &[u8]) -> &[u8]
    ensures words { words_of result.now ≡ words_of text.now }
    ensures shorter { length result.now ≤ length text.now }
{
    if begins_with_space(text) {
        &text[1..]
    } else {
        text
    }
}

#[inline(always)]
fn begins_with_space(text: &[u8]) -> bool
    ensures { result ≡ begins_with_space text.now }
{
    0 < text.len() && text[0] == b' '
}

/// The place of the first byte that is no space.
#[inline(always)]
#[tactic(auto, using(crate::proofs::Parts::position_at_front))]
fn word_start(text: &[u8]) -> Option<usize>
    ensures { result ≡ position (λ b. not (is_space b)) text.now }
{
    if begins_with_space(text) {
        first_other(text)
    } else if text.is_empty() {
        None
    } else {
        Some(0)
    }
}

/// The same by a search, behind more spaces than one.
#[inline(never)]
fn first_other(text: &[u8]) -> Option<usize>
    ensures { result ≡ position (λ b. not (is_space b)) text.now }
{
    text.iter().position(|b| *b != b' ')
}

/// How many bytes stand before the first space.
#[inline(always)]
fn word_len(text: &[u8]) -> usize
    ensures place { result ≡ position_or_len is_space text.now }
    ensures bound { result ≤ length text.now }
{
    if LANES <= text.len() {
        let spaces = spaces_of(u8x16::from_slice(text));
        if spaces != 0 {
            return spaces.trailing_zeros() as usize;
        }
    }
    long_word_len(text)
}

/// The same, where the first bytes have no space or the text is short.
#[inline(never)]
fn long_word_len(text: &[u8]) -> usize
    ensures place { result ≡ position_or_len is_space text.now }
    ensures bound { result ≤ length text.now }
{
    let mut at = 0;
    while LANES <= text.len() - at {
        let spaces = spaces_of(u8x16::from_slice(&text[at..]));
        if spaces != 0 {
            return at + spaces.trailing_zeros() as usize;
        }
        at += LANES;
    }
    at + short_word_len(&text[at..])
}

/// The same, byte by byte.
#[tactic(auto, using(crate::proofs::Parts::position_or_whole, crate::proofs::Parts::position_within))]
fn short_word_len(text: &[u8]) -> usize
    ensures place { result ≡ position_or_len is_space text.now }
    ensures bound { result ≤ length text.now }
{
    word_end(text).unwrap_or(text.len())
}

/// The place of the first space.
fn word_end(text: &[u8]) -> Option<usize>
    ensures { result ≡ position is_space text.now }
{
    text.iter().position(|b| *b == b' ')
}

/// A bit for each byte that is a space.
#[inline(always)]
fn spaces_of(bytes: u8x16) -> u64
    ensures { result ≡ mask_l (map is_space bytes) }
{
    bytes.simd_eq(u8x16::splat(b' ')).to_bitmask()
}
