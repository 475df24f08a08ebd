//! The order of two bytes.
ghost use Rattle.std.specs.Prelude.{◌≡◌};
ghost use Rattle.list_lemmas.specs.BytesOrder.{bytes_cmp};

use std::cmp::Ordering;

/// The order of two bytes and two others: that of the numbers of which the first byte counts most.
#[inline(always)]
pub fn order_two(two: [u8; 2], others: [u8; 2]) -> Ordering
    ensures { result ≡ bytes_cmp two others }
{
    u16::from_be_bytes(two).cmp(&u16::from_be_bytes(others))
}
