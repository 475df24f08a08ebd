//! Byte strings, which contracts see as lists of bytes.
ghost use Rattle.std.specs.Prelude.{◌≡◌, ◌≤◌, [], length, nat_eq, IfOk, IsOk};
ghost use Rattle.std.specs.Ordering.{nat_cmp};
ghost use Rattle.std.specs.Cmp.Lexicographic.{slice_cmp, pointwise};
ghost use Rattle.short_bytes.specs.Kept.{IsSpelled};

use crate::blocks::{order_filled, order_lists, same_filled};
use crate::fills::fill;
use crate::loads::word_of;
use std::alloc::{AllocError, Global};
use std::cmp::Ordering;
use std::fmt;
use std::marker::Model;

/// The greatest length, in bytes, at which no memory is taken.
pub const SHORT: usize = 30;

// The block of a short string is filled up with zeros.
#[derive(Drop)]
enum Kept {
    Short { len: u8, block: [u8; 30] },
    Long { list: Vec<u8> },
}

/// A byte string. Up to [`SHORT`] bytes are kept inline, and take no memory.
#[derive(Drop)]
pub struct Bytes {
    kept: Kept,
}

impl Model for Bytes {
    ghost use Rattle.std.specs.Prelude.{List, ℕ};
    ghost use Rattle.short_bytes.specs.Kept.{listed, IsKept};

    ghost Value = { List ℕ };

    ghost view = { λ b. listed b.kept };

    ghost invariant = { λ b. IsKept b.kept };
}

impl Bytes {
    /// The empty string.
    pub fn none() -> Bytes
        ensures { result ≡ [] }
    {
        Bytes {
            kept: Kept::Short {
                len: 0,
                block: [0; 30],
            },
        }
    }

    /// A copy of these bytes. It fails only for want of memory, and never where they are short.
    #[inline]
    pub fn of(alloc: Global, bytes: &[u8]) -> Result<Bytes, AllocError>
        ensures made { IfOk result (λ made. made ≡ bytes.now) }
        ensures short { length bytes.now ≤ 30 → IsOk result }
    {
        if bytes.len() <= SHORT {
            Ok(Bytes::short(bytes))
        } else {
            Ok(Bytes {
                kept: Kept::Long {
                    list: Vec::from_slice(alloc, bytes)?,
                },
            })
        }
    }

    /// A copy of these bytes, which takes no memory.
    #[inline]
    pub fn short(bytes: &[u8]) -> Bytes
        requires { length bytes.now ≤ 30 }
        ensures { result ≡ bytes.now }
    {
        match word_of(bytes) {
            Some(word) => Bytes::of_word(bytes, word),
            None => Bytes::filled(bytes),
        }
    }

    // The bytes that a word spells. It is written at once, whatever their number, so that nothing has to be copied behind it.
    #[inline(always)]
    fn of_word(bytes: &[u8], word: u64) -> Bytes
        requires { IsSpelled bytes.now word }
        ensures { result ≡ bytes.now }
    {
        let len = bytes.len() as u8;
        let mut block = [0u8; 30];
        block[..8].copy_from_slice(&word.to_le_bytes());
        Bytes {
            kept: Kept::Short { len, block },
        }
    }

    #[inline]
    fn filled(bytes: &[u8]) -> Bytes
        requires { length bytes.now ≤ 30 }
        ensures { result ≡ bytes.now }
    {
        let mut block = [0u8; 30];
        fill(&mut block, bytes);
        Bytes {
            kept: Kept::Short {
                len: bytes.len() as u8,
                block,
            },
        }
    }

    /// The bytes.
    #[inline]
    pub fn list(&self) -> &[u8]
        ensures { result.now ≡ self.now }
    {
        match &self.kept {
            Kept::Short { len, block } => &block[..*len as usize],
            Kept::Long { list } => list.as_slice(),
        }
    }

    /// The same bytes once more. It fails only for want of memory, and never where they are short.
    #[inline]
    pub fn again(&self, alloc: Global) -> Result<Bytes, AllocError>
        ensures made { IfOk result (λ made. made ≡ self.now) }
        ensures short { length self.now ≤ 30 → IsOk result }
    {
        match &self.kept {
            Kept::Short { len, block } => Ok(Bytes {
                kept: Kept::Short {
                    len: *len,
                    block: *block,
                },
            }),
            Kept::Long { list } => Bytes::of(alloc, list.as_slice()),
        }
    }

    /// The order of the bytes. Short strings are compared by their blocks, which are zeros behind
    /// the bytes, and then by their lengths.
    #[inline(always)]
    pub(crate) fn order(&self, other: &Bytes) -> Ordering
        ensures { result ≡ slice_cmp nat_cmp self.now other.now }
    {
        if let Kept::Short { len, block } = &self.kept {
            if let Kept::Short {
                len: other_len,
                block: other_block,
            } = &other.kept
            {
                return order_filled(*len, block, *other_len, other_block);
            }
        }
        self.order_long(other)
    }

    // Kept apart, so that the order of short strings is small enough to be compiled into its callers.
    #[inline(never)]
    fn order_long(&self, other: &Bytes) -> Ordering
        ensures { result ≡ slice_cmp nat_cmp self.now other.now }
    {
        order_lists(self.list(), other.list())
    }

    /// Whether the bytes are the same.
    #[inline(always)]
    pub(crate) fn same(&self, other: &Bytes) -> bool
        ensures { result ≡ pointwise nat_eq self.now other.now }
    {
        if let Kept::Short { len, block } = &self.kept {
            if let Kept::Short {
                len: other_len,
                block: other_block,
            } = &other.kept
            {
                return same_filled(*len, block, *other_len, other_block);
            }
        }
        self.order_long(other).is_eq()
    }
}

impl fmt::Debug for Bytes {
    fn fmt<W: fmt::Write>(&self, f: &mut fmt::Formatter<W>) -> fmt::Result {
        let list = self.list();
        write!(f, "{list:?}")
    }
}
