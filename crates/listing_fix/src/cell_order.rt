//! Cells in the order of their places.
ghost use Rattle.std.specs.Prelude.{◌≡◌, ◌++◌, None, IfOk};
ghost use Rattle.cell_model.specs.Counts.{lines_of};
ghost use Rattle.cell_model.specs.KindWidths.{Widths};
ghost use Rattle.cell_model.specs.Rising.{LinesRise, place_of_line};
ghost use Rattle.cell_listing.specs.ListedLines.{is_above, last_place};
ghost use Rattle.listing_check.specs.Laws.{store_in};
ghost use Rattle.listing_fix.specs.Fixes.{firsts};

use crate::stayers::keep_if;
use cell_listing::listed::order_of;
use cell_model::ListLine;
use std::alloc::AllocError;

/// Whether a cell stands behind the last of others.
fn is_behind(cells: &[ListLine], cell: &ListLine) -> bool
    ensures { result ≡ is_above (last_place cells.now) (place_of_line cell.now) }
{
    match cells.last() {
        None => true,
        Some(last) => order_of(last, cell.table, cell.row.list(), cell.qual.list()).is_lt(),
    }
}

/// Takes away the cells that aren't the first one of their place, of cells whose places don't fall.
fn keep_firsts(cells: &mut Vec<ListLine>)
    ensures { cells.new.items ≡ firsts None cells.old.items }
{
    let mut kept = 0;
    for at in 0..cells.len() {
        let front = &cells[..kept];
        let cell = &cells[at];
        let stays = is_behind(front, cell);
        kept = keep_if(cells, kept, at, stays);
    }
    cells.truncate(kept);
}

/// Cells in the order of their places, and of those of one place the first: the lines of their store, whatever its widths are. It fails
/// only for want of memory.
fn in_order(cells: Vec<ListLine>) -> Result<Vec<ListLine>, AllocError>
    ensures { IfOk result (λ sorted. (w : Widths) → sorted.items ≡ lines_of (store_in w cells.items)) }
{
    let mut cells = cells;
    cells.sort_by(|one, other| {
        order_of(one, other.table, other.row.list(), other.qual.list())
    })?;
    keep_firsts(&mut cells);
    Ok(cells)
}

/// Cells that rise and more behind them, in the order of their places, and of those of one place the first. Where there are no more,
/// nothing is done. It fails only for want of memory.
pub(crate) fn with_more(
    cells: Vec<ListLine>,
    more: Vec<ListLine>,
) -> Result<Vec<ListLine>, AllocError>
    requires { LinesRise cells.items }
    ensures rising { IfOk result (λ all. LinesRise all.items) }
    ensures lines { IfOk result (λ all. (w : Widths) → all.items ≡ lines_of (store_in w (cells.items ++ more.items))) }
{
    if more.is_empty() {
        return Ok(cells);
    }
    let mut cells = cells;
    let mut more = more;
    cells.reserve_exact(more.len())?;
    cells.append(&mut more)?;
    in_order(cells)
}
