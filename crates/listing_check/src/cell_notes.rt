//! The notes of cells, one after the other.
ghost use Rattle.std.specs.Prelude.{◌≡◌, ◌+◌, ◌<◌, ◌≤◌, ◌++◌, [], List, length, take, IfOk, OnOk, MatchBool, None, Some, Option, if◌then◌else◌};
ghost use Rattle.row_key.specs.declared.tables.Table.TheVariants.{Names};
ghost use Rattle.cell_model.specs.Rising.{LinesRise};
ghost use Rattle.cell_model.specs.KindWidths.{Widths};
ghost use Rattle.qual_codec.specs.CellDots.{HoldsDots};
ghost use Rattle.qual_codec.specs.declared.cells.Dot.{Dot};
ghost use Rattle.listing_check.specs.UidCells.{uid_in};
ghost use Rattle.listing_check.specs.Flaws.{FlawOf};
ghost use Rattle.listing_check.specs.RowValues.{AddsDots, Keeps};
ghost use Rattle.listing_check.specs.RowFlaws.{IsKnown};
ghost use Rattle.listing_check.specs.RowNotes.{AreOneRow, IsAt, IsNoted, IsRowKept, IsTold, SeenIn, is_wasted};
ghost use Rattle.listing_check.specs.Faults.{told};

use crate::cell_flaws::{RowFlaw, flaw_of, has_id, id_spelled, is_name, is_same, kind_named, tell};
use crate::report::{Flaw, Hint};
use crate::row_values::RowValues;
use cell_model::ListLine;
use qual_codec::{Dot, read_cell, short_dot};
use row_key::{Table, Widths};
use std::alloc::{AllocError, Global};

/// Whether a cell of names has a name that has another id, or none.
fn is_wasted(widths: Widths, cells: &[ListLine], row: &[u8], qual: &[u8], value: &[u8]) -> bool
    requires { LinesRise cells.now }
    ensures { result ≡ is_wasted widths cells.now (uid_in widths Names row.now qual.now value.now) }
{
    let Some(kind) = kind_named(qual) else {
        return false;
    };
    let Some(id) = id_spelled(widths, kind, row) else {
        return false;
    };
    if is_name(value) {
        !has_id(widths, cells, kind, value, id)
    } else {
        false
    }
}

/// The note, if it is to be told.
fn hint_if(told: bool, hint: Hint) -> Option<Hint>
    ensures { result ≡ (if told then Some hint else None) }
{
    if told { Some(hint) } else { None }
}

/// Whether the cell before this one has its row.
fn continues_row(cells: &[ListLine], at: usize, row: &[u8]) -> bool
    requires { at ≤ length cells.now }
    ensures { MatchBool result (AreOneRow cells.now at row.now) (AreOneRow cells.now at row.now → ⊥) }
{
    if at == 0 {
        return false;
    }
    let last = &cells[at - 1];
    is_same(last.row.list(), row)
}

/// Begins the values of a row anew, unless the cell before this one has its row.
fn begin_row(cells: &[ListLine], at: usize, cell: &ListLine, values: &mut RowValues)
    requires { IsAt cells.now at cell.now }
    ensures { (widths : Widths) → LinesRise cells.now → IsRowKept widths cells.now at values.old → SeenIn widths cells.now (take at cells.now) cell.now.row values.new }
{
    if !continues_row(cells, at, cell.row.list()) {
        values.clear();
    }
}

/// The data points of a cell that reads. It fails only for want of memory.
fn dots_of(alloc: Global, qual: &[u8], value: &[u8]) -> Result<Vec<Dot>, AllocError>
    ensures { IfOk result (λ dots. HoldsDots qual.now value.now dots.items) }
{
    match read_cell(alloc, qual, value) {
        Ok(dots) => Ok(dots),
        Err(_) => Err(AllocError),
    }
}

/// Adds the data points of a cell that reads, and answers whether one of them clashes. It fails only for want of memory.
fn add_cell(
    alloc: Global,
    qual: &[u8],
    value: &[u8],
    values: &mut RowValues,
) -> Result<bool, AllocError>
    ensures { IfOk result (λ clashes. (dots own : List Dot) → HoldsDots qual.now value.now own → Keeps dots values.old → AddsDots dots own clashes values.new) }
{
    if let Some(dot) = short_dot(qual, value) {
        let short = [dot];
        let clashes = values.add_all(&short)?;
        return Ok(clashes);
    }
    let own = dots_of(alloc, qual, value)?;
    let clashes = values.add_all(&own)?;
    Ok(clashes)
}

/// The note of a cell without a flaw, behind those before it. It fails only for want of memory.
fn note_without_flaw(
    alloc: Global,
    widths: Widths,
    cells: &[ListLine],
    at: usize,
    cell: &ListLine,
    values: &mut RowValues,
) -> Result<Option<Hint>, AllocError>
    requires rising { LinesRise cells.now }
    requires is { IsAt cells.now at cell.now }
    requires free { FlawOf widths cells.now cell.now None }
    requires seen { SeenIn widths cells.now (take at cells.now) cell.now.row values.old }
    ensures { IfOk result (λ note. IsNoted widths cells.now at cell.now note values.new) }
{
    let row = cell.row.list();
    let qual = cell.qual.list();
    let value = cell.value.list();
    match cell.table {
        Table::Ids => Ok(None),
        Table::Names => {
            let wasted = is_wasted(widths, cells, row, qual, value);
            Ok(hint_if(wasted, Hint::Wasted))
        }
        Table::Points => {
            let clashes = add_cell(alloc, qual, value, values)?;
            Ok(hint_if(clashes, Hint::Clash))
        }
    }
}

/// The note of a cell with this flaw, or without, behind those before it. It fails only for want of memory.
fn note_of(
    alloc: Global,
    widths: Widths,
    cells: &[ListLine],
    at: usize,
    cell: &ListLine,
    flaw: Option<Flaw>,
    values: &mut RowValues,
) -> Result<Option<Hint>, AllocError>
    requires rising { LinesRise cells.now }
    requires is { IsAt cells.now at cell.now }
    requires flaw { FlawOf widths cells.now cell.now flaw }
    requires seen { IsRowKept widths cells.now at values.old }
    ensures { IfOk result (λ note. IsNoted widths cells.now at cell.now note values.new) }
{
    begin_row(cells, at, cell, values);
    match flaw {
        Some(_) => Ok(None),
        None => note_without_flaw(alloc, widths, cells, at, cell, values),
    }
}

/// Adds a note, if there is one, with its number. It fails only for want of memory.
fn tell_note(
    notes: &mut Vec<(u64, Hint)>,
    number: u64,
    note: Option<Hint>,
) -> Result<(), AllocError>
    ensures { OnOk result (notes.new.items ≡ notes.old.items ++ told number note []) }
{
    if let Some(hint) = note {
        notes.push((number, hint))?;
    }
    Ok(())
}

/// Tells the flaw or the note of a cell, with its number. It fails only for want of memory.
pub fn tell_cell(
    alloc: Global,
    widths: Widths,
    cells: &[ListLine],
    at: usize,
    number: u64,
    known: &mut Option<RowFlaw>,
    values: &mut RowValues,
    faults: &mut Vec<(u64, Flaw)>,
    notes: &mut Vec<(u64, Hint)>,
) -> Result<(), AllocError>
    requires rising { LinesRise cells.now }
    requires within { at < length cells.now }
    requires seen { IsRowKept widths cells.now at values.old }
    requires known { IsKnown widths cells.now known.old }
    ensures told { OnOk result (IsTold widths cells.now at number faults.old.items faults.new.items notes.old.items notes.new.items values.new) }
    ensures known { OnOk result (IsKnown widths cells.now known.new) }
{
    let cell = &cells[at];
    let flaw = flaw_of(alloc, widths, cells, at, cell, known)?;
    tell(faults, number, flaw)?;
    let note = note_of(alloc, widths, cells, at, cell, flaw, values)?;
    tell_note(notes, number, note)?;
    Ok(())
}
