//! Bytes of lists as numbers, and whether those of two lists are the same.
ghost use Rattle.std.specs.Prelude.{◌≡◌, ◌+◌, ◌≤◌, length, take, drop, IfSome};
ghost use Rattle.std.specs.Int.{w16, w32, w64, from_le_bytes};
ghost use Rattle.std.specs.Int.Digits.{AllBelowBase};
ghost use Rattle.std.specs.Ordering.{is_eq, nat_cmp};
ghost use Rattle.std.specs.Cmp.Lexicographic.{slice_cmp};
ghost use Rattle.short_bytes.specs.Kept.{IsSpelled};

/// Eight bytes as one number, of which the first byte counts least. It is compiled into one load.
#[inline(always)]
fn eight(list: &[u8], at: usize) -> u64
    requires { at + 8 ≤ length list.now }
    ensures value { result ≡ from_le_bytes w64 (take 8 (drop at list.now)) }
    ensures bytes { AllBelowBase 256 (take 8 (drop at list.now)) }
{
    u64::from_le_bytes([
        list[at],
        list[at + 1],
        list[at + 2],
        list[at + 3],
        list[at + 4],
        list[at + 5],
        list[at + 6],
        list[at + 7],
    ])
}

/// Four bytes as one number.
#[inline(always)]
fn four(list: &[u8], at: usize) -> u32
    requires { at + 4 ≤ length list.now }
    ensures value { result ≡ from_le_bytes w32 (take 4 (drop at list.now)) }
    ensures bytes { AllBelowBase 256 (take 4 (drop at list.now)) }
{
    u32::from_le_bytes([list[at], list[at + 1], list[at + 2], list[at + 3]])
}

/// Two bytes as one number.
#[inline(always)]
fn two(list: &[u8], at: usize) -> u16
    requires { at + 2 ≤ length list.now }
    ensures value { result ≡ from_le_bytes w16 (take 2 (drop at list.now)) }
    ensures bytes { AllBelowBase 256 (take 2 (drop at list.now)) }
{
    u16::from_le_bytes([list[at], list[at + 1]])
}

/// Whether eight bytes of each list are the same.
#[inline(always)]
pub(crate) fn same_eight(one: &[u8], other: &[u8], at: usize) -> bool
    requires { (at + 8 ≤ length one.now) × (at + 8 ≤ length other.now) }
    ensures { result ≡ is_eq (slice_cmp nat_cmp (take 8 (drop at one.now)) (take 8 (drop at other.now))) }
{
    eight(one, at) == eight(other, at)
}

/// Whether four bytes of each list are the same.
#[inline(always)]
pub(crate) fn same_four(one: &[u8], other: &[u8], at: usize) -> bool
    requires { (at + 4 ≤ length one.now) × (at + 4 ≤ length other.now) }
    ensures { result ≡ is_eq (slice_cmp nat_cmp (take 4 (drop at one.now)) (take 4 (drop at other.now))) }
{
    four(one, at) == four(other, at)
}

/// Whether two bytes of each list are the same.
#[inline(always)]
pub(crate) fn same_two(one: &[u8], other: &[u8], at: usize) -> bool
    requires { (at + 2 ≤ length one.now) × (at + 2 ≤ length other.now) }
    ensures { result ≡ is_eq (slice_cmp nat_cmp (take 2 (drop at one.now)) (take 2 (drop at other.now))) }
{
    two(one, at) == two(other, at)
}

/// The word that 1, 2, 4 or 8 bytes spell, filled up with zeros. No other number of bytes is spelled.
#[inline(always)]
pub(crate) fn word_of(bytes: &[u8]) -> Option<u64>
    ensures { IfSome result (λ word. IsSpelled bytes.now word) }
{
    match bytes.len() {
        1 => Some(u64::from(bytes[0])),
        2 => Some(u64::from(two(bytes, 0))),
        4 => Some(u64::from(four(bytes, 0))),
        8 => Some(eight(bytes, 0)),
        _ => None,
    }
}
