//! The fourth change: each counter is the greatest number of its kind.
ghost use Rattle.std.specs.Prelude.{◌≡◌, Some, IfOk, OnOk};
ghost use Rattle.cell_model.specs.Counts.{lines_of};
ghost use Rattle.cell_model.specs.Rising.{LinesRise, place_of_line};
ghost use Rattle.cell_model.specs.Store.{Store};
ghost use Rattle.listing_check.specs.UidCells.{uid_cell};
ghost use Rattle.listing_fix.specs.Fixes.{counted_to, greater, kind_number, number_if, with_counters};
ghost use Rattle.listing_fix.specs.Steps.{IsPlaceIn, Writes, counter_line, greatest_in, plain_number, without_name};

use crate::uid_cells::{IdCell, id_cell};
use cell_listing::listed::order_of;
use cell_model::ListLine;
use listing_check::cell_flaws::{COUNTERS, qualifier};
use qual_codec::Bytes;
use row_key::{Table, Widths};
use std::alloc::{AllocError, Global};
use tsd_base::kinds::Kind;

/// The place of a kind among the kinds.
fn kind_number(kind: Kind) -> u8
    ensures { result ≡ kind_number kind }
{
    match kind {
        Kind::Metric => 0,
        Kind::TagKey => 1,
        Kind::TagValue => 2,
    }
}

/// The number, if it is of the kind; else 0.
fn number_if(kind: Kind, other: Kind, number: u64) -> u64
    ensures { result ≡ number_if kind other number }
{
    if kind_number(kind) == kind_number(other) {
        number
    } else {
        0
    }
}

/// The number that a cell says, if it is of the kind; else 0.
fn said_number(kind: Kind, said: IdCell) -> u64
    ensures { result ≡ plain_number kind (Some said) }
{
    match said {
        IdCell::Counter {
            kind: other,
            number,
        } => number_if(kind, other, number),
        IdCell::Forward { kind: other, id } => number_if(kind, other, u64::from(id)),
        IdCell::Reverse { kind: other, id } => number_if(kind, other, u64::from(id)),
    }
}

/// The number of a cell, if it is of the kind; else 0.
fn number_of(widths: Widths, kind: Kind, cell: &ListLine) -> u64
    ensures { result ≡ plain_number kind (without_name (uid_cell widths cell.now)) }
{
    match id_cell(widths, cell) {
        Some(said) => said_number(kind, said),
        None => 0,
    }
}

/// The greater one of two numbers.
fn greater(one: u64, other: u64) -> u64
    ensures { result ≡ greater one other }
{
    if one < other { other } else { one }
}

/// The greatest number of a kind among cells.
fn greatest_in(widths: Widths, kind: Kind, cells: &[ListLine]) -> u64
    ensures { result ≡ greatest_in widths kind cells.now }
{
    let mut most = 0;
    for at in 0..cells.len() {
        most = greater(most, number_of(widths, kind, &cells[at]));
    }
    most
}

/// The cell of a counter. It fails only for want of memory.
fn counter_line(alloc: Global, kind: Kind, number: u64) -> Result<ListLine, AllocError>
    ensures { IfOk result (λ line. line ≡ counter_line kind number) }
{
    let row = Bytes::of(alloc, COUNTERS)?;
    let qual = Bytes::of(alloc, qualifier(kind))?;
    let value = Bytes::of(alloc, &number.to_be_bytes())?;
    Ok(ListLine {
        table: Table::Ids,
        row,
        qual,
        value,
    })
}

/// Where a cell of the same place stands, or else where the cell would.
fn place_in(cells: &[ListLine], line: &ListLine) -> Result<usize, usize>
    requires { LinesRise cells.now }
    ensures { IsPlaceIn cells.now (place_of_line line.now) result }
{
    let table = line.table;
    let row = line.row.list();
    let qual = line.qual.list();
    match cells.binary_search_by(|cell| order_of(cell, table, row, qual)) {
        Ok(at) => Ok(at),
        Err(at) => Err(at),
    }
}

/// Writes a cell among others that rise, over an older one of its place too. It fails only for want of memory.
fn write(cells: &mut Vec<ListLine>, line: ListLine) -> Result<(), AllocError>
    requires { LinesRise cells.old.items }
    ensures { OnOk result (Writes line cells.old.items cells.new.items) }
{
    match place_in(cells, &line) {
        Ok(at) => {
            cells[at] = line;
            Ok(())
        }
        Err(at) => {
            cells.reserve_exact(1)?;
            cells.insert(at, line)?;
            Ok(())
        }
    }
}

/// Writes the counter of a kind, if it isn't 0. It fails only for want of memory.
fn count_to(
    alloc: Global,
    cells: &mut Vec<ListLine>,
    kind: Kind,
    number: u64,
) -> Result<(), AllocError>
    requires { LinesRise cells.old.items }
    ensures rising { OnOk result (LinesRise cells.new.items) }
    ensures told { OnOk result ((s : Store) → cells.old.items ≡ lines_of s → cells.new.items ≡ lines_of (counted_to kind number s)) }
{
    if number == 0 {
        return Ok(());
    }
    let line = counter_line(alloc, kind, number)?;
    write(cells, line)
}

/// The fourth change: each counter is the greatest number of its kind, as a counter or as an id. It fails only for want of memory.
pub(crate) fn set_counters(
    alloc: Global,
    widths: Widths,
    cells: Vec<ListLine>,
) -> Result<Vec<ListLine>, AllocError>
    requires { LinesRise cells.items }
    ensures rising { IfOk result (λ new. LinesRise new.items) }
    ensures told { IfOk result (λ new. (s : Store) → s.widths ≡ widths → cells.items ≡ lines_of s → new.items ≡ lines_of (with_counters s)) }
{
    let metrics = greatest_in(widths, Kind::Metric, &cells);
    let keys = greatest_in(widths, Kind::TagKey, &cells);
    let values = greatest_in(widths, Kind::TagValue, &cells);
    let mut cells = cells;
    count_to(alloc, &mut cells, Kind::Metric, metrics)?;
    count_to(alloc, &mut cells, Kind::TagKey, keys)?;
    count_to(alloc, &mut cells, Kind::TagValue, values)?;
    Ok(cells)
}
