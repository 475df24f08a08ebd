//! The latest data point of a row.
ghost use Rattle.std.specs.Prelude.{All, IfOk};
ghost use Rattle.qual_codec.specs.CellDots.{Reads};
ghost use Rattle.qual_codec.specs.Merge.{AreDots};
ghost use Rattle.series_meta.specs.HourWalks.{GivesDot, GivesLater, GivesLatest};

use cell_model::Cells;
use qual_codec::merge::{add_dots, merge_dots};
use qual_codec::{Dot, MergeFault};
use std::alloc::{AllocError, Global};

/// The data points of cells that read, one cell after the other, and within the column in its order.
pub(crate) fn gather(alloc: Global, cells: &Cells) -> Result<Vec<Dot>, AllocError>
    requires { All (λ c. Reads c.qual c.value) cells.now }
    ensures { IfOk result (λ dots. AreDots cells.now dots.items) }
{
    let mut dots = Vec::new(alloc);
    for i in 0..cells.len() {
        let cell = cells.cell(i);
        add_dots(cell.qual, cell.value, &mut dots)?;
    }
    Ok(dots)
}

/// The latest of the offsets up to this one that data points have.
fn latest_offset(dots: &[Dot], most: u32) -> Option<u32>
    ensures { GivesLatest dots.now most result }
{
    let mut latest = None;
    for dot in dots {
        latest = later(latest, dot.item.offset, most);
    }
    latest
}

/// The later of an offset, or of none, and one more, where that is at most this one.
fn later(latest: Option<u32>, offset: u32, most: u32) -> Option<u32>
    ensures { GivesLater latest offset most result }
{
    if most < offset {
        return latest;
    }
    match latest {
        Some(other) => Some(other.max(offset)),
        None => Some(offset),
    }
}

/// The data point of a row's cells that is the latest of those whose offset is at most this one, of several there the one that merging keeps.
///
/// `Conflict` exactly where they have two values at that offset.
pub(crate) fn latest_dot(alloc: Global, cells: &Cells, most: u32) -> Result<Option<Dot>, MergeFault>
    requires { All (λ c. Reads c.qual c.value) cells.now }
    ensures { GivesDot cells.now most result }
{
    let dots = gather(alloc, cells)?;
    let Some(offset) = latest_offset(dots.as_slice(), most) else {
        return Ok(None);
    };
    let kept = merge_dots(dots, offset, offset)?;
    Ok(Some(kept[0]))
}
