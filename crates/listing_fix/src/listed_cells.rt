//! The first change: the cells of a listing's lines, in order.
ghost use Rattle.std.specs.Prelude.{◌≡◌, ◌++◌, IfOk, OnOk};
ghost use Rattle.cell_model.specs.Counts.{lines_of};
ghost use Rattle.cell_model.specs.Rising.{LinesRise};
ghost use Rattle.listing_fix.specs.Fixes.{in_order};
ghost use Rattle.listing_fix.specs.Steps.{cell_or_none, other_cells};

use crate::cell_order::with_more;
use cell_listing::{LineRead, Listed, OtherLine};
use cell_model::ListLine;
use std::alloc::{AllocError, Global};

/// Adds the cell of a line, if it tells one.
fn push_cell(cells: &mut Vec<ListLine>, line: LineRead) -> Result<(), AllocError>
    ensures { OnOk result (cells.new.items ≡ cells.old.items ++ cell_or_none line) }
{
    match line {
        LineRead::Cell { cell } => {
            cells.push(cell)?;
            Ok(())
        }
        LineRead::Other { bytes } => {
            let _bytes = bytes;
            Ok(())
        }
    }
}

/// The cells that lines tell which don't count. It fails only for want of memory.
fn other_cells(alloc: Global, others: Vec<OtherLine>) -> Result<Vec<ListLine>, AllocError>
    ensures { IfOk result (λ cells. cells.items ≡ other_cells others.items) }
{
    let mut cells = Vec::new(alloc);
    for other in others {
        push_cell(&mut cells, other.line)?;
    }
    Ok(cells)
}

/// The first change: the cells of the lines, in the order of their places, and of those of one place the first. It fails only for want
/// of memory.
pub(crate) fn listed_cells(alloc: Global, listed: Listed) -> Result<Vec<ListLine>, AllocError>
    ensures rising { IfOk result (λ cells. LinesRise cells.items) }
    ensures told { IfOk result (λ cells. cells.items ≡ lines_of (in_order listed)) }
{
    let (cells, others) = listed.into_parts();
    let more = other_cells(alloc, others)?;
    with_more(cells.into_lines(), more)
}
