//! A search among cells.
ghost use Rattle.std.specs.Prelude.{◌≡◌, ◌≤◌, ◌<◌, ◌+◌, ◌-◌, ℕ, IfOk, IfErr, length};
ghost use Rattle.list_lemmas.specs.BytesOrder.{bytes_cmp};
ghost use Rattle.cell_blocks.specs.Seeks.{Rises, AllBehind, IsCellAt, IsCellGap};

use crate::block::Block;
use crate::two_bytes::order_two;
use std::cmp::Ordering;

/// Where the qualifier's cell is, or where it would go. The last cell is tried first, since most cells come in order.
#[inline]
pub fn seek(cells: &Block, qual: &[u8]) -> Result<usize, usize>
    requires { Rises cells.now }
    ensures found { IfOk result (λ i. IsCellAt qual.now cells.now i) }
    ensures absent { IfErr result (λ i. IsCellGap qual.now cells.now i) }
{
    let len = cells.len();
    if len == 0 {
        return Err(0);
    }
    match order(qual, cells.qual(len - 1)) {
        Ordering::Less => search(cells, qual, len - 1),
        Ordering::Equal => Ok(len - 1),
        Ordering::Greater => Err(len),
    }
}

// The order of two qualifiers. Nearly all have two bytes.
#[inline]
fn order(qual: &[u8], other: &[u8]) -> Ordering
    ensures { result ≡ bytes_cmp qual.now other.now }
{
    if let (Some(two), Some(others)) = (qual.as_array::<2>(), other.as_array::<2>()) {
        return order_two(*two, *others);
    }
    qual.cmp(other)
}

// The same as `seek`, where the cells from `end` on are behind the qualifier.
#[inline(never)]
fn search(cells: &Block, qual: &[u8], end: usize) -> Result<usize, usize>
    requires rises { Rises cells.now }
    requires end { end ≤ length cells.now }
    requires behind { AllBehind qual.now cells.now end }
    ensures found { IfOk result (λ i. IsCellAt qual.now cells.now i) }
    ensures absent { IfErr result (λ i. IsCellGap qual.now cells.now i) }
{
    let mut low = 0;
    let mut high = end;
    let mut step = high / 2 + 1;
    while low < high {
        let middle = high - step;
        match qual.cmp(&cells.qual(middle)) {
            Ordering::Less => high = middle,
            Ordering::Equal => return Ok(middle),
            Ordering::Greater => low = middle + 1,
        }
        step = (high - low) / 2 + 1;
    }
    Err(low)
}
