//! Names of metrics, tag keys and tag values.
ghost use Rattle.std.specs.Prelude.{◌≡◌, ◌≢◌, ◌≤◌, length, position, IfOk, IsOk, MatchResult, Err};
ghost use Rattle.tsd_base.specs.Alphabet.{IsName, is_name_byte};
ghost use Rattle.tsd_base.specs.Names.{GivesName, is_bad_byte};
ghost use Rattle.tsd_base.specs.declared.names.NameFault.TheVariants.{OutOfMemory};
ghost use Rattle.std.specs.Prelude.{nat_eq, Some, refl};
ghost use Rattle.std.specs.Ordering.{nat_cmp};
ghost use Rattle.std.specs.Hash as fed;
ghost use Rattle.std.specs.Cmp as laws;
ghost use Rattle.std.specs.Cmp.Lexicographic.{slice_cmp, pointwise, nat_list_eq_equiv, nat_list_cmp_total, texts_po, texts_ties};
ghost use Rattle.short_bytes.specs.Alike.{same_input};

use short_bytes::short::Bytes;
use std::alloc::{AllocError, Global};
use std::cmp::Ordering;
use std::fmt;
use std::hash::{Hash, Hasher};
use std::marker::Model;

/// The greatest length of a name, in bytes.
pub const LONGEST_NAME: usize = 255;

/// A name of 1 to 255 bytes out of `a` to `z`, `A` to `Z`, `0` to `9`, `-`, `_`, `.` and `/`.
///
/// Contracts see it as the list of its bytes. One of up to 30 bytes takes no memory.
#[derive(Drop)]
pub struct Name {
    bytes: Bytes,
}

impl Model for Name {
    ghost use Rattle.std.specs.Prelude.{List, ℕ};
    ghost use Rattle.tsd_base.specs.Alphabet.{IsName};

    ghost Value = { List ℕ };

    ghost view = { λ n. n.bytes };

    ghost invariant = { λ n. IsName n.bytes };
}

/// Why bytes are no name.
#[derive(Clone, Copy, Debug, PartialEq, Eq)]
pub enum NameFault {
    /// There is no byte.
    Empty,
    /// There are `len` bytes, more than 255.
    TooLong { len: usize },
    /// The leftmost byte that no name has, and its place from 0.
    BadByte { at: usize, byte: u8 },
    /// There was no memory for the name.
    OutOfMemory,
}

impl Name {
    /// Reads a name. Length comes before bytes, and the leftmost bad byte is the one that is told.
    #[tactic(auto, using(crate::proofs::NamesLemmas::names))]
    pub fn read(alloc: Global, bytes: &[u8]) -> Result<Name, NameFault>
        ensures gives { GivesName result bytes.now }
        ensures named { IfOk result (λ name. (name ≡ bytes.now) × IsName bytes.now) }
        ensures only { IsName bytes.now → MatchResult result (λ name. name ≡ bytes.now) (λ fault. fault ≡ OutOfMemory) }
        ensures short { length bytes.now ≤ 30 → result ≢ Err OutOfMemory }
    {
        if bytes.is_empty() {
            return Err(NameFault::Empty);
        }
        if bytes.len() > LONGEST_NAME {
            return Err(NameFault::TooLong { len: bytes.len() });
        }
        if let Some(at) = first_bad_byte(bytes) {
            let byte = bytes[at];
            return Err(NameFault::BadByte { at, byte });
        }
        match Bytes::of(alloc, bytes) {
            Ok(bytes) => Ok(Name { bytes }),
            Err(AllocError) => Err(NameFault::OutOfMemory),
        }
    }

    /// The bytes of the name.
    #[inline]
    pub fn bytes(&self) -> &[u8]
        ensures bytes { result.now ≡ self.now }
        ensures named { IsName self.now }
    {
        self.bytes.list()
    }

    /// A copy of the bytes of the name. It fails only for want of memory, and never where there are up to 30.
    #[inline]
    pub fn copy_bytes(&self, alloc: Global) -> Result<Bytes, AllocError>
        ensures same { IfOk result (λ bytes. bytes ≡ self.now) }
        ensures short { length self.now ≤ 30 → IsOk result }
        ensures named { IsName self.now }
    {
        self.bytes.again(alloc)
    }

    /// The same name once more. It fails only for want of memory, and never where it has up to 30 bytes.
    pub fn again(&self, alloc: Global) -> Result<Name, AllocError>
        ensures same { IfOk result (λ name. name ≡ self.now) }
        ensures short { length self.now ≤ 30 → IsOk result }
    {
        Ok(Name {
            bytes: self.bytes.again(alloc)?,
        })
    }
}

/// The place of the leftmost byte that no name has.
fn first_bad_byte(bytes: &[u8]) -> Option<usize>
    ensures { result ≡ position is_bad_byte bytes.now }
{
    bytes.iter().position(|b| !is_name_byte(*b))
}

fn is_name_byte(b: u8) -> bool
    ensures { result ≡ is_name_byte b }
{
    matches!(b, b'a'..=b'z' | b'A'..=b'Z' | b'0'..=b'9' | b'-' | b'_' | b'.' | b'/')
}

impl fmt::Debug for Name {
    fn fmt<W: fmt::Write>(&self, f: &mut fmt::Formatter<W>) -> fmt::Result {
        let bytes = self.bytes();
        write!(f, "{bytes:?}")
    }
}

impl PartialEq for Name {
    ghost eq = { λ x y. pointwise nat_eq x y };

    ghost laws = { laws.partial_equiv_from_equiv nat_list_eq_equiv };

    #[inline]
    fn eq(&self, other: &Self) -> bool {
        self.bytes == other.bytes
    }
}

impl Eq for Name {
    ghost laws = { nat_list_eq_equiv };
}

impl PartialOrd for Name {
    ghost partial_cmp = { λ x y. Some (slice_cmp nat_cmp x y) };

    ghost laws = { texts_po };

    #[inline]
    fn partial_cmp(&self, other: &Self) -> Option<Ordering> {
        Some(self.cmp(other))
    }
}

impl Ord for Name {
    ghost cmp = { slice_cmp nat_cmp };

    ghost total = { nat_list_cmp_total };

    ghost matches_partial_cmp = { λ x y. refl };

    ghost matches_eq = { texts_ties };

    #[inline]
    fn cmp(&self, other: &Self) -> Ordering {
        self.bytes.cmp(&other.bytes)
    }
}

impl Hash for Name {
    ghost hash_input = { λ n. fed.str n };

    ghost respects_eq = { same_input };

    #[inline]
    fn hash<H: Hasher>(&self, state: &mut H) {
        self.bytes.hash(state);
    }
}
