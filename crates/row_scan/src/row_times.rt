//! The points of one row at their times.
ghost use Rattle.std.specs.Prelude.{◌≡◌, ◌+◌, ◌*◌, ◌<◌, ◌++◌, ◌∷◌, [], map, All, AllPairs, IfOk, IfErr, IfSome, OnOk, if◌then◌else◌};
ghost use Rattle.qual_codec.specs.CellDots.{Reads};
ghost use Rattle.qual_codec.specs.Merge.{TellsConflict, is_within as tests_within};
ghost use Rattle.tsd_base.specs.Dots.{IsAboveAll};
ghost use Rattle.row_scan.specs.RowTimes.{IsColumnRead, KeepsPoints, dot_at};

use crate::merged_points::row_points;
use cell_blocks::small_value::SmallValue;
use cell_blocks::strip::Strip;
use cell_model::Cells;
use qual_codec::merge::is_within;
use qual_codec::{Dot, MergeFault, is_column, next_piece, short_dot};
use std::alloc::{AllocError, Global};
use tsd_base::dots::Dots;

/// The points of a row's data points, whose hour begins at this second.
fn points_of(alloc: Global, base: u32, dots: &[Dot]) -> Result<Dots, AllocError>
    requires { AllPairs (λ d e. d.item.offset < e.item.offset) dots.now }
    ensures { IfOk result (λ points. points ≡ map (dot_at base) dots.now) }
{
    let mut points = Dots::with_room(alloc, dots.len())?;
    for dot in dots {
        points.push(base as u64 * 1000 + dot.item.offset as u64, dot.value)?;
    }
    Ok(points)
}

/// Adds the point of a data point that is later than all points, where its offset is in the range.
#[inline]
fn add_within(
    points: &mut Dots,
    base: u32,
    dot: Dot,
    first: u32,
    last: u32,
) -> Result<(), AllocError>
    requires { IsAboveAll (base * 1000 + dot.item.offset) points.old }
    ensures { OnOk result (points.new ≡ (if tests_within first last dot then points.old ++ dot_at base dot ∷ [] else points.old)) }
{
    if is_within(&dot, first, last) {
        points.push(base as u64 * 1000 + dot.item.offset as u64, dot.value)?;
    }
    Ok(())
}

/// The points of cells of which each is one item of two bytes, with offsets that rise from cell to cell, and None for other cells.
fn rising_points<V: SmallValue>(
    alloc: Global,
    cells: &Strip<V>,
    base: u32,
    first: u32,
    last: u32,
) -> Result<Option<Dots>, AllocError>
    ensures { IfOk result (λ answer. IfSome answer (KeepsPoints cells.now base first last)) }
{
    let mut points = Dots::with_room(alloc, cells.len())?;
    let mut least = 0;
    for i in 0..cells.len() {
        let Some(dot) = short_dot(cells.qual(i), cells.value(i)) else {
            return Ok(None);
        };
        if dot.item.offset < least {
            return Ok(None);
        }
        add_within(&mut points, base, dot, first, last)?;
        least = dot.item.offset + 1;
    }
    Ok(Some(points))
}

/// The points of cells that are a strip, with offsets that rise from cell to cell, and None for other cells.
fn strip_points(
    alloc: Global,
    cells: &Cells,
    base: u32,
    first: u32,
    last: u32,
) -> Result<Option<Dots>, AllocError>
    ensures { IfOk result (λ answer. IfSome answer (KeepsPoints cells.now base first last)) }
{
    if let Some(strip) = cells.narrow() {
        return rising_points(alloc, strip, base, first, last);
    }
    match cells.wide() {
        Some(strip) => rising_points(alloc, strip, base, first, last),
        None => Ok(None),
    }
}

/// The points of a column's value, with offsets that rise from item to item, and None for other values.
fn piece_points(
    alloc: Global,
    value: &[u8],
    base: u32,
    first: u32,
    last: u32,
) -> Result<Option<Dots>, AllocError>
    ensures { IfOk result (λ answer. IfSome answer (IsColumnRead value.now base first last)) }
{
    if value.is_empty() {
        return Ok(None);
    }
    let mut points = Dots::with_room(alloc, value.len() / 3)?;
    let mut rest = value;
    let mut least = 0;
    'pieces: while !rest.is_empty() {
        let Ok((dot, behind)) = next_piece(rest, 0) else {
            return Ok(None);
        };
        let offset = dot.item.offset as u64;
        if offset < least {
            return Ok(None);
        }
        add_within(&mut points, base, dot, first, last)?;
        least = offset + 1;
        rest = behind;
    }
    Ok(Some(points))
}

/// The points of cells that are the column alone, with offsets that rise from item to item, and None for other cells.
fn column_points(
    alloc: Global,
    cells: &Cells,
    base: u32,
    first: u32,
    last: u32,
) -> Result<Option<Dots>, AllocError>
    ensures { IfOk result (λ answer. IfSome answer (KeepsPoints cells.now base first last)) }
{
    if cells.len() != 1 {
        return Ok(None);
    }
    let cell = cells.cell(0);
    if !is_column(cell.qual) {
        return Ok(None);
    }
    piece_points(alloc, cell.value, base, first, last)
}

/// The points of a row's cells whose offset is from `first` to `last`, both included, at rising times in milliseconds: those that
/// [`row_points`] gives, where the row's hour begins at the second `base`. `Conflict` comes as it comes there.
///
/// Cells of a strip, with offsets that rise, are read straight into the points. So is a column that is alone in its row.
pub fn timed_points(
    alloc: Global,
    cells: &Cells,
    base: u32,
    first: u32,
    last: u32,
) -> Result<Dots, MergeFault>
    requires { All (λ c. Reads c.qual c.value) cells.now }
    ensures kept { IfOk result (KeepsPoints cells.now base first last) }
    ensures conflict { IfErr result (TellsConflict cells.now first last) }
{
    if let Some(points) = strip_points(alloc, cells, base, first, last)? {
        return Ok(points);
    }
    if let Some(points) = column_points(alloc, cells, base, first, last)? {
        return Ok(points);
    }
    let dots = row_points(alloc, cells, first, last)?;
    Ok(points_of(alloc, base, dots.as_slice())?)
}
