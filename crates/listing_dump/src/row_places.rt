//! The point rows of cells, in the order in which they are dumped.
ghost use Rattle.std.specs.Prelude.{◌≡◌, ◌≢◌, ◌<◌, ◌≤◌, ◌^◌, length, IfOk, OnOk, ℕ, true, None, Some, Contains};
ghost use Rattle.std.specs.BTreeMap.{get};
ghost use Rattle.std.specs.List.{slice_get};
ghost use Rattle.std.specs.Ordering.{nat_cmp};
ghost use Rattle.row_key.specs.declared.keys.RowKey.{RowKey};
ghost use Rattle.row_key.specs.Key.{IsKey, key_bytes};
ghost use Rattle.cell_model.specs.Rising.{LinesRise};
ghost use Rattle.cell_model.specs.declared.row.ListLine.{ListLine};
ghost use Rattle.listing_dump.specs.RowLines.{EndsRow, begins_row, is_of_row, is_points};
ghost use Rattle.listing_dump.specs.RowPlaces.{AreAllRanks, AreRowPlaces, AreRowsTo, AreRanked, HasRankedKey, HasRanks, HaveRankedKeys, IsKeyOf, IsRanked, TagsHaveRanks};

use crate::name_ranks::{NameRanks, rank_of};
use arrayvec::ArrayVec;
use cell_model::ListLine;
use row_key::{RowKey, Table, Widths, read_key};
use std::alloc::{AllocError, Global};
use std::collections::BTreeMap;

/// A point row: the ranks of its metric and of its tags, which rise by the first, its hour, and the line on which it begins.
#[derive(Debug, PartialEq, Eq, PartialOrd, Ord, Drop)]
pub struct RowPlace {
    pub metric: u32,
    pub tags: ArrayVec<(u32, u32), 8>,
    pub base: u32,
    pub line: u32,
}

/// Whether a table is that of points.
fn is_points(table: Table) -> bool
    ensures { result ≡ is_points table }
{
    match table {
        Table::Ids => false,
        Table::Names => false,
        Table::Points => true,
    }
}

/// Whether a cell is of a point row.
pub fn is_of_row(row: &[u8], cell: &ListLine) -> bool
    ensures { result ≡ is_of_row row.now cell.now }
{
    is_points(cell.table) && cell.row.list() == row
}

/// Whether a point row begins on a line.
fn begins_row(cells: &[ListLine], at: usize) -> bool
    requires { at < length cells.now }
    ensures { (l : ListLine) → slice_get cells.now at ≡ Some l → result ≡ begins_row cells.now at l }
{
    let cell = &cells[at];
    is_points(cell.table) && !(at > 0 && is_of_row(cell.row.list(), &cells[at - 1]))
}

/// The ranks of the ids of tags, in their order.
fn ranks_of_tags(ranks: &NameRanks, pairs: &[(u32, u32)]) -> ArrayVec<(u32, u32), 8>
    requires most { length pairs.now ≤ 8 }
    requires ranks { TagsHaveRanks ranks.now pairs.now }
    ensures { AreRanked ranks.now pairs.now result.items }
{
    let mut tags = ArrayVec::new();
    for pair in pairs {
        let key = rank_of(&ranks.tag_keys, pair.0);
        let value = rank_of(&ranks.tag_values, pair.1);
        tags.push((key, value));
    }
    tags
}

/// The row of a key that begins on a line.
fn row_place(ranks: &NameRanks, key: &RowKey, line: u32) -> RowPlace
    requires most { length key.now.pairs.items ≤ 8 }
    requires ranks { HasRanks ranks.now key.now }
    ensures { IsRanked ranks.now key.now line result }
{
    let mut tags = ranks_of_tags(ranks, key.pairs.as_slice());
    tags.sort_unstable();
    RowPlace {
        metric: rank_of(&ranks.metrics, key.metric),
        tags,
        base: key.base,
        line,
    }
}

/// The row of a line on which a point row begins.
fn place_of_row(widths: Widths, ranks: &NameRanks, row: &[u8], line: u32) -> RowPlace
    requires { HasRankedKey widths ranks.now row.now }
    ensures { (key : RowKey) × IsKeyOf widths row.now key × IsRanked ranks.now key line result }
{
    match read_key(row, widths) {
        Ok(key) => row_place(ranks, &key, line),
        Err(_) => unreachable!(),
    }
}

/// The point rows of cells in order of lines. It fails only for want of memory.
fn rows_by_line(
    alloc: Global,
    widths: Widths,
    cells: &[ListLine],
    ranks: &NameRanks,
) -> Result<Vec<RowPlace>, AllocError>
    requires few { length cells.now < 2 ^ 32 }
    requires ranks { AreAllRanks widths cells.now ranks.now }
    requires keys { HaveRankedKeys widths cells.now ranks.now }
    ensures { IfOk result (λ rows. AreRowsTo widths cells.now rows.items (length cells.now)) }
{
    let mut rows = Vec::new(alloc);
    for at in 0..cells.len() {
        if begins_row(cells, at) {
            rows.push(place_of_row(widths, ranks, cells[at].row.list(), at as u32))?;
        }
    }
    Ok(rows)
}

/// The point rows of cells in the order in which they are dumped. It fails only for want of memory.
pub fn row_places(
    alloc: Global,
    widths: Widths,
    cells: &[ListLine],
    ranks: &NameRanks,
) -> Result<Vec<RowPlace>, AllocError>
    requires few { length cells.now < 2 ^ 32 }
    requires ranks { AreAllRanks widths cells.now ranks.now }
    requires keys { HaveRankedKeys widths cells.now ranks.now }
    ensures { IfOk result (λ rows. AreRowPlaces widths cells.now rows.items) }
{
    let mut rows = rows_by_line(alloc, widths, cells, ranks)?;
    rows.sort_unstable();
    Ok(rows)
}

/// The line behind the last one of the point row that begins on a line.
pub fn row_end(cells: &[ListLine], from: usize) -> usize
    requires { from < length cells.now }
    ensures later { from < result }
    ensures within { result ≤ length cells.now }
    ensures rows { (l : ListLine) → slice_get cells.now from ≡ Some l → is_points l.table ≡ true → EndsRow cells.now from result l.row }
{
    let row = cells[from].row.list();
    let mut end = from + 1;
    'lines: while end < cells.len() && is_of_row(row, &cells[end]) {
        end += 1;
    }
    end
}
