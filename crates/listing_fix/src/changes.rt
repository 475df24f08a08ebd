//! The changes that mend cells, but for the first.
ghost use Rattle.std.specs.Prelude.{◌≡◌, filter};
ghost use Rattle.cell_model.specs.Counts.{lines_of};
ghost use Rattle.cell_model.specs.Rising.{LinesRise};
ghost use Rattle.cell_model.specs.Store.{Store};
ghost use Rattle.listing_fix.specs.Fixes.{is_points, without_unread};
ghost use Rattle.listing_fix.specs.Steps.{reads};

use crate::uid_cells::id_cell;
use cell_model::ListLine;
use row_key::{Table, Widths};

/// Whether a cell is one of points.
pub(crate) fn is_points(cell: &ListLine) -> bool
    ensures { result ≡ is_points cell.now.table }
{
    match cell.table {
        Table::Ids => false,
        Table::Names => false,
        Table::Points => true,
    }
}

/// Whether a cell reads, if it is one of ids or of names.
fn reads(widths: Widths, cell: &ListLine) -> bool
    ensures { result ≡ reads widths cell.now }
{
    is_points(cell) || id_cell(widths, cell).is_some()
}

/// Takes away the cells of ids and of names that don't read.
fn retain_read(cells: &mut Vec<ListLine>, widths: Widths)
    ensures { cells.new.items ≡ filter (reads widths) cells.old.items }
{
    cells.retain(|cell| reads(widths, cell));
}

/// The second change: cells of ids and of names that don't read go.
pub(crate) fn drop_unread(cells: &mut Vec<ListLine>, widths: Widths)
    ensures rising { LinesRise cells.old.items → LinesRise cells.new.items }
    ensures told { (s : Store) → s.widths ≡ widths → cells.old.items ≡ lines_of s → cells.new.items ≡ lines_of (without_unread s) }
{
    retain_read(cells, widths);
}
