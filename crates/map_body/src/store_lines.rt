//! Cells as their lines, and as a list.
ghost use Rattle.std.specs.Prelude.{◌≡◌, true, ◌∷◌, ◌++◌, [], map, IfOk, OnOk};
ghost use Rattle.std.specs.FinMap.{entries};
ghost use Rattle.cell_model.specs.Counts.{line_of};
ghost use Rattle.cell_model.specs.Rising.{LinesRise, is_above};
ghost use Rattle.packed_cells.specs.Keyed.{cells_in};
ghost use Rattle.map_body.specs.Whole.{placed, lines_in};

use cell_model::{Cells, LineList, ListLine};
use packed_cells::row_cells::RowCells;
use qual_codec::Bytes;
use row_key::Table;
use row_pages::RowWalk;
use std::alloc::{AllocError, Global};

/// The cells of a row once more.
pub fn copy_cells(alloc: Global, row: &RowCells) -> Result<Cells, AllocError>
    ensures { IfOk result (λ cells. cells ≡ cells_in row.now) }
{
    let block = row.again(alloc)?;
    Ok(Cells::of(block))
}

/// Adds a line that is above each. It fails only for want of memory.
pub fn add_line(
    listing: &mut LineList,
    alloc: Global,
    table: Table,
    row: &[u8],
    qual: &[u8],
    value: &[u8],
) -> Result<(), AllocError>
    requires { is_above listing.old (record { row = record { table = table; bytes = row.now }; qual = qual.now }) ≡ true }
    ensures { OnOk result (listing.new ≡ listing.old ++ (record { table = table; row = row.now; qual = qual.now; value = value.now }) ∷ []) }
{
    let line = ListLine {
        table,
        row: Bytes::of(alloc, row)?,
        qual: Bytes::of(alloc, qual)?,
        value: Bytes::of(alloc, value)?,
    };
    listing.push(line)?;
    Ok(())
}

/// Adds the lines of a row.
fn add_row(
    listing: &mut LineList,
    alloc: Global,
    table: Table,
    bytes: &Bytes,
    row: &RowCells,
) -> Result<(), AllocError>
    requires { LinesRise (listing.old ++ map line_of (map (placed (record { table = table; bytes = bytes.now })) (entries row.now))) }
    ensures { OnOk result (listing.new ≡ listing.old ++ map line_of (map (placed (record { table = table; bytes = bytes.now })) (entries row.now))) }
{
    let copy = row.again(alloc)?;
    let packed = &copy;
    for i in 0..packed.len() {
        add_line(
            listing,
            alloc,
            table,
            bytes.list(),
            packed.qual(i),
            packed.value(i),
        )?;
    }
    Ok(())
}

/// Adds the lines of rows, in their order.
pub fn add_rows(
    listing: &mut LineList,
    alloc: Global,
    table: Table,
    mut rows: RowWalk<'_>,
) -> Result<(), AllocError>
    requires { LinesRise (listing.old ++ lines_in table rows) }
    ensures { OnOk result (listing.new ≡ listing.old ++ lines_in table rows.entry) }
{
    while let Some((bytes, row)) = rows.next() {
        add_row(listing, alloc, table, bytes, row)?;
    }
    Ok(())
}
