//! The rows of one table.
ghost use Rattle.std.specs.Prelude.{◌≡◌, ◌+◌, ◌++◌, IfOk, OnOk, OnErr, None, length, find, option_map, if◌then◌else◌};
ghost use Rattle.std.specs.Option.{option_copied};
ghost use Rattle.std.specs.FinMap.{empty, get, insert, len, entries};
ghost use Rattle.std.specs.Ordering.{is_lt};
ghost use Rattle.cell_model.specs.Rising.{LinesRise};
ghost use Rattle.list_lemmas.specs.BytesOrder.{bytes_cmp};
ghost use Rattle.packed_cells.specs.Keyed.{CellMap, appended, stamped};
ghost use Rattle.map_body.specs.TableRows.{count_of, row_in, NoneEmpty, ChangesRow, left, gone, is_within, cells_among};
ghost use Rattle.row_pages.specs.RowMaps.{Rows, rows_below, rows_from};
ghost use Rattle.map_body.specs.Whole.{lines_in};

use crate::store_lines::add_rows;
use cell_model::LineList;
use packed_cells::row_cells::RowCells;
use qual_codec::Bytes;
use row_key::Table;
use row_pages::RowPages;
use std::alloc::{AllocError, Global};
use std::marker::Model;

/// The rows of one table, each with a cell.
///
/// Contracts see them as the finite map from a row's bytes to its cells.
#[derive(Drop)]
pub struct TableRows {
    rows: RowPages,
    // How many cells they have.
    count: u64,
}

impl Model for TableRows {
    ghost use Rattle.row_pages.specs.RowMaps.{Rows, coded_rows};

    ghost Value = { Rows };

    ghost coded = { coded_rows };

    ghost use Rattle.std.specs.Prelude.{◌≡◌};
    ghost use Rattle.map_body.specs.TableRows.{count_of, NoneEmpty};

    ghost view = { λ t. t.rows };

    ghost invariant = { λ t. NoneEmpty t.rows × (t.count ≡ count_of t.rows) };
}

impl TableRows {
    /// No rows.
    pub fn make(alloc: Global) -> TableRows
        ensures { result ≡ empty }
    {
        TableRows {
            rows: RowPages::make(alloc),
            count: 0,
        }
    }

    /// The cells of a row, if it is there.
    #[inline]
    pub fn row(&self, row: &Bytes) -> Option<&RowCells>
        ensures { option_copied result ≡ get self.now row.now }
    {
        self.rows.get(row)
    }

    /// The value of a cell, if it is there.
    pub fn value(&self, row: &Bytes, qual: &[u8]) -> Option<&[u8]>
        ensures { option_map (λ v. v.now) result ≡ option_map (λ c. c.0) (get (row_in self.now row.now) qual.now) }
    {
        match self.rows.get(row) {
            Some(cells) => cells.value(qual),
            None => None,
        }
    }

    /// The first row from `from` on and below `to`.
    pub fn next(&self, from: &Bytes, to: &Bytes) -> Option<(&Bytes, &RowCells)>
        ensures first { option_map (λ r. (r.0.now, r.1.now)) result ≡ find (λ r. is_within from.now to.now r.0) (entries self.now) }
        ensures none_empty { NoneEmpty self.now }
    {
        let mut walk = self.rows.walk_from(from);
        match walk.next() {
            Some(found) => {
                if is_below(found.0, to) {
                    Some(found)
                } else {
                    None
                }
            }
            None => None,
        }
    }

    /// How many rows there are.
    pub fn len(&self) -> usize
        ensures rows { result ≡ length (entries self.now) }
        ensures none_empty { NoneEmpty self.now }
    {
        self.rows.len()
    }

    /// How many cells they have.
    pub fn count(&self) -> u64
        ensures { result ≡ cells_among (entries self.now) }
    {
        self.count
    }

    /// Adds the lines of the rows below this one.
    pub fn list_below(
        &self,
        alloc: Global,
        table: Table,
        to: &Bytes,
        listing: &mut LineList,
    ) -> Result<(), AllocError>
        requires { LinesRise (listing.old ++ lines_in table (rows_below to.now (entries self.now))) }
        ensures lines { OnOk result (listing.new ≡ listing.old ++ lines_in table (rows_below to.now (entries self.now))) }
        ensures none_empty { NoneEmpty self.now }
    {
        add_rows(listing, alloc, table, self.rows.walk_below(to))?;
        Ok(())
    }

    /// Adds the lines of the rows from this one on.
    pub fn list_from(
        &self,
        alloc: Global,
        table: Table,
        from: &Bytes,
        listing: &mut LineList,
    ) -> Result<(), AllocError>
        requires { LinesRise (listing.old ++ lines_in table (rows_from from.now (entries self.now))) }
        ensures { OnOk result (listing.new ≡ listing.old ++ lines_in table (rows_from from.now (entries self.now))) }
    {
        add_rows(listing, alloc, table, self.rows.walk_from(from))?;
        Ok(())
    }

    /// Writes a cell of a row with version 0, over an older one too.
    #[inline(always)]
    pub fn put(
        &mut self,
        alloc: Global,
        row: &Bytes,
        qual: &[u8],
        value: &[u8],
    ) -> Result<(), AllocError>
        ensures ok { OnOk result (ChangesRow self.old self.new row.now (insert (row_in self.old row.now) qual.now (value.now, 0))) }
        ensures err { OnErr result (self.new ≡ self.old) }
    {
        if self.count == u64::MAX {
            return Err(AllocError);
        }
        if put_cell(&mut self.rows, alloc, row, qual, value)? {
            self.count += 1;
        }
        Ok(())
    }

    /// Adds a piece to the column of a row, behind what stands there, and gives it version 0. Once the row has a column, the piece
    /// alone is copied.
    #[inline(always)]
    pub fn append(&mut self, alloc: Global, row: &Bytes, piece: &[u8]) -> Result<(), AllocError>
        ensures ok { OnOk result (ChangesRow self.old self.new row.now (appended (row_in self.old row.now) piece.now 0)) }
        ensures err { OnErr result (self.new ≡ self.old) }
    {
        if self.count == u64::MAX {
            return Err(AllocError);
        }
        if append_to(&mut self.rows, alloc, row, piece)? {
            self.count += 1;
        }
        Ok(())
    }

    /// Removes each cell of a row that is named and has a version not above the one named, and answers how many.
    pub fn drop_cells(&mut self, row: &Bytes, which: &[(Bytes, u64)]) -> u64
        ensures count { result ≡ gone (row_in self.old row.now) which.now }
        ensures rest { ChangesRow self.old self.new row.now (left (row_in self.old row.now) which.now) }
    {
        let count = drop_in(&mut self.rows, row, which);
        self.count -= count;
        count
    }

    /// Sets the version of a cell, if it is there.
    #[inline(always)]
    pub fn stamp(&mut self, row: &Bytes, qual: &[u8], version: u64)
        ensures { ChangesRow self.old self.new row.now (stamped (row_in self.old row.now) qual.now version) }
    {
        stamp_in(&mut self.rows, row, qual, version);
    }
}

// Whether a row is below these bytes.
fn is_below(row: &Bytes, to: &Bytes) -> bool
    ensures { result ≡ is_lt (bytes_cmp row.now to.now) }
{
    row.cmp(to).is_lt()
}

// Sets the version of a cell, if it is there.
#[inline(always)]
fn stamp_in(rows: &mut RowPages, row: &Bytes, qual: &[u8], version: u64)
    ensures rest { ChangesRow rows.old rows.new row.now (stamped (row_in rows.old row.now) qual.now version) }
    ensures none_empty { NoneEmpty rows.old → NoneEmpty rows.new }
    ensures same { count_of rows.new ≡ count_of rows.old }
{
    match rows.get_mut_again(row) {
        Some(cells) => cells.stamp(qual, version),
        None => {}
    }
}

// Writes a cell with version 0, and answers whether there was none of this row and qualifier.
#[inline(always)]
fn put_cell(
    rows: &mut RowPages,
    alloc: Global,
    row: &Bytes,
    qual: &[u8],
    value: &[u8],
) -> Result<bool, AllocError>
    ensures ok { OnOk result (rows.new ≡ insert rows.old row.now (insert (row_in rows.old row.now) qual.now (value.now, 0))) }
    ensures count { IfOk result (λ added. count_of rows.new ≡ count_of rows.old + (if added then 1 else 0)) }
    ensures err { OnErr result (rows.new ≡ rows.old) }
{
    match rows.get_mut(row) {
        Some(cells) => {
            let added = put_more(cells, qual, value)?;
            Ok(added)
        }
        None => {
            put_first(rows, alloc, row, qual, value)?;
            Ok(true)
        }
    }
}

// Writes a cell with version 0 among others of its row, and answers whether there was none of this qualifier.
#[tactic(auto, using(crate::proofs::CellLemmas::len_put))]
#[inline(always)]
fn put_more(cells: &mut RowCells, qual: &[u8], value: &[u8]) -> Result<bool, AllocError>
    ensures ok { OnOk result (cells.new ≡ insert cells.old qual.now (value.now, 0)) }
    ensures count { IfOk result (λ added. len cells.new ≡ len cells.old + (if added then 1 else 0)) }
    ensures err { OnErr result (cells.new ≡ cells.old) }
{
    let before = cells.len();
    cells.put(qual, value, 0)?;
    Ok(cells.len() > before)
}

// Writes the first cell of a row, with version 0.
#[inline(never)]
fn put_first(
    rows: &mut RowPages,
    alloc: Global,
    row: &Bytes,
    qual: &[u8],
    value: &[u8],
) -> Result<(), AllocError>
    requires { get rows.old row.now ≡ None }
    ensures ok { OnOk result (rows.new ≡ insert rows.old row.now (insert empty qual.now (value.now, 0))) }
    ensures count { OnOk result (count_of rows.new ≡ count_of rows.old + 1) }
    ensures err { OnErr result (rows.new ≡ rows.old) }
{
    let mut cells = RowCells::make(alloc);
    cells.put(qual, value, 0)?;
    rows.insert(row.again(alloc)?, cells)?;
    Ok(())
}

// Adds a piece to the column of a row, which then has version 0, and answers whether there was none.
#[inline(always)]
fn append_to(
    rows: &mut RowPages,
    alloc: Global,
    row: &Bytes,
    piece: &[u8],
) -> Result<bool, AllocError>
    ensures ok { OnOk result (rows.new ≡ insert rows.old row.now (appended (row_in rows.old row.now) piece.now 0)) }
    ensures count { IfOk result (λ added. count_of rows.new ≡ count_of rows.old + (if added then 1 else 0)) }
    ensures err { OnErr result (rows.new ≡ rows.old) }
{
    match rows.get_mut(row) {
        Some(cells) => {
            let added = append_more(cells, alloc, piece)?;
            Ok(added)
        }
        None => {
            append_first(rows, alloc, row, piece)?;
            Ok(true)
        }
    }
}

// Adds a piece to the column among the cells of its row, and answers whether there was none.
#[tactic(auto, using(crate::proofs::CellLemmas::len_put))]
#[inline(always)]
fn append_more(cells: &mut RowCells, alloc: Global, piece: &[u8]) -> Result<bool, AllocError>
    ensures ok { OnOk result (cells.new ≡ appended cells.old piece.now 0) }
    ensures count { IfOk result (λ added. len cells.new ≡ len cells.old + (if added then 1 else 0)) }
    ensures err { OnErr result (cells.new ≡ cells.old) }
{
    let before = cells.len();
    cells.append(alloc, piece, 0)?;
    Ok(cells.len() > before)
}

// Writes a row with a column that is this piece, with version 0.
#[inline(never)]
fn append_first(
    rows: &mut RowPages,
    alloc: Global,
    row: &Bytes,
    piece: &[u8],
) -> Result<(), AllocError>
    requires { get rows.old row.now ≡ None }
    ensures ok { OnOk result (rows.new ≡ insert rows.old row.now (appended empty piece.now 0)) }
    ensures count { OnOk result (count_of rows.new ≡ count_of rows.old + 1) }
    ensures err { OnErr result (rows.new ≡ rows.old) }
{
    let mut first = RowCells::make(alloc);
    first.append(alloc, piece, 0)?;
    rows.insert(row.again(alloc)?, first)?;
    Ok(())
}

// Drops cells of a row, and the row if none is left, and answers how many.
fn drop_in(rows: &mut RowPages, row: &Bytes, which: &[(Bytes, u64)]) -> u64
    ensures count { result ≡ gone (row_in rows.old row.now) which.now }
    ensures rest { ChangesRow rows.old rows.new row.now (left (row_in rows.old row.now) which.now) }
    ensures none_empty { NoneEmpty rows.old → NoneEmpty rows.new }
    ensures fewer { result + count_of rows.new ≡ count_of rows.old }
{
    let Some(cells) = rows.get_mut(row) else {
        return 0;
    };
    let count = drop_from(cells, which);
    if cells.is_empty() {
        rows.remove(row);
    }
    count
}

// Drops cells of one row, and answers how many.
fn drop_from(cells: &mut RowCells, which: &[(Bytes, u64)]) -> u64
    ensures count { result ≡ gone cells.old which.now }
    ensures rest { cells.new ≡ left cells.old which.now }
    ensures fewer { result + len cells.new ≡ len cells.old }
{
    let before = cells.len();
    for (qual, version) in which {
        cells.remove(qual.list(), *version);
    }
    (before - cells.len()) as u64
}
