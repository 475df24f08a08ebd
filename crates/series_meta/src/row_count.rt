//! At how many times of its hour a row has data points.
ghost use Rattle.std.specs.Prelude.{◌≡◌, map, All, IfOk, IfSome};
ghost use Rattle.qual_codec.specs.CellDots.{Reads};
ghost use Rattle.series_meta.specs.RowCounts.{CountsOffsets, without_value};

use crate::latest_dot::gather;
use cell_blocks::small_value::SmallValue;
use cell_blocks::strip::Strip;
use cell_model::Cells;
use qual_codec::merge::merge_dots;
use qual_codec::{Dot, MergeFault, short_dot};
use row_hours::LAST_OFFSET;
use std::alloc::{AllocError, Global};

/// How many cells these are, where each is one item of two bytes and their offsets rise from cell to cell, and None for other cells.
fn rising_count<V: SmallValue>(cells: &Strip<V>) -> Option<u64>
    ensures { IfSome result (CountsOffsets cells.now) }
{
    let mut least = 0;
    for i in 0..cells.len() {
        let dot = short_dot(cells.qual(i), cells.value(i))?;
        if dot.item.offset < least {
            return None;
        }
        least = dot.item.offset + 1;
    }
    Some(cells.len() as u64)
}

/// The same of cells that are a strip.
fn strip_count(cells: &Cells) -> Option<u64>
    ensures { IfSome result (CountsOffsets cells.now) }
{
    if let Some(strip) = cells.narrow() {
        return rising_count(strip);
    }
    match cells.wide() {
        Some(strip) => rising_count(strip),
        None => None,
    }
}

/// The data points with the value 0 in place of theirs, so that no two conflict.
fn without_values(alloc: Global, dots: &[Dot]) -> Result<Vec<Dot>, AllocError>
    ensures { IfOk result (λ list. list.items ≡ map without_value dots.now) }
{
    let mut list = Vec::with_capacity(alloc, dots.len())?;
    for dot in dots {
        list.push(Dot {
            item: dot.item,
            value: 0,
        })?;
    }
    Ok(list)
}

/// How many offsets data points have.
fn offset_count(alloc: Global, cells: &Cells) -> Result<u64, AllocError>
    requires { All (λ c. Reads c.qual c.value) cells.now }
    ensures { IfOk result (CountsOffsets cells.now) }
{
    let dots = gather(alloc, cells)?;
    match merge_dots(without_values(alloc, dots.as_slice())?, 0, LAST_OFFSET) {
        Ok(kept) => Ok(kept.len() as u64),
        Err(fault) => match fault {
            MergeFault::OutOfMemory => Err(AllocError),
            MergeFault::Conflict { .. } => unreachable!(),
        },
    }
}

/// At how many times a row's cells have data points. Several values at one time count once.
///
/// Where each cell has one item and their offsets rise, no data point is collected.
pub(crate) fn row_count(alloc: Global, cells: &Cells) -> Result<u64, AllocError>
    requires { All (λ c. Reads c.qual c.value) cells.now }
    ensures { IfOk result (CountsOffsets cells.now) }
{
    match strip_count(cells) {
        Some(count) => Ok(count),
        None => offset_count(alloc, cells),
    }
}
