//! The third change: each name has an id that has it.
ghost use Rattle.std.specs.Prelude.{◌≡◌, ◌++◌, filter, is_some, map, IfOk, OnOk};
ghost use Rattle.cell_model.specs.Counts.{lines_of};
ghost use Rattle.cell_model.specs.IdRows.{id_row};
ghost use Rattle.cell_model.specs.KindWidths.{Widths};
ghost use Rattle.cell_model.specs.Machine.{kind_qual};
ghost use Rattle.cell_model.specs.Rising.{LinesRise};
ghost use Rattle.cell_model.specs.Store.{Store};
ghost use Rattle.listing_check.specs.Flaws.{has_name, value_in};
ghost use Rattle.listing_check.specs.UidCells.{uid_cell};
ghost use Rattle.listing_fix.specs.Fixes.{with_names};
ghost use Rattle.listing_fix.specs.Steps.{forward_of, kept_by, keeps_name, reverse_by, reverse_cell, reverse_cells, without_name};

use crate::cell_order::with_more;
use crate::stayers::keep_flagged;
use crate::uid_cells::{IdCell, id_cell};
use cell_model::{ListLine, width_of};
use listing_check::cell_flaws::{has_name, qualifier, value_in};
use qual_codec::Bytes;
use row_key::{Table, Widths, id_bytes};
use std::alloc::{AllocError, Global};
use tsd_base::kinds::Kind;

/// The kind and id of a name, where the cell is a name's.
fn forward_of(widths: Widths, cell: &ListLine) -> Option<(Kind, u32)>
    ensures { result ≡ forward_of (without_name (uid_cell widths cell.now)) }
{
    match id_cell(widths, cell) {
        Some(IdCell::Forward { kind, id }) => Some((kind, id)),
        _ => None,
    }
}

/// Whether anything stands for an id.
fn has_any(widths: Widths, cells: &[ListLine], kind: Kind, id: u32) -> bool
    requires { LinesRise cells.now }
    ensures { result ≡ is_some (value_in cells.now (id_row widths kind id) (kind_qual kind)) }
{
    match value_in(
        cells,
        Table::Names,
        id_bytes(id, width_of(kind, widths)).as_slice(),
        qualifier(kind),
    ) {
        Some(_) => true,
        None => false,
    }
}

/// The cell that gives an id a name. It fails only for want of memory.
fn reverse_cell(
    alloc: Global,
    widths: Widths,
    kind: Kind,
    id: u32,
    name: &[u8],
) -> Result<ListLine, AllocError>
    ensures { IfOk result (λ cell. cell ≡ reverse_cell widths kind id name.now) }
{
    let row = Bytes::of(alloc, id_bytes(id, width_of(kind, widths)).as_slice())?;
    let qual = Bytes::of(alloc, qualifier(kind))?;
    let value = Bytes::of(alloc, name)?;
    Ok(ListLine {
        table: Table::Names,
        row,
        qual,
        value,
    })
}

/// Adds what a name gives its id, where nothing stands for this one.
fn push_reverse(
    alloc: Global,
    widths: Widths,
    cells: &[ListLine],
    cell: &ListLine,
    more: &mut Vec<ListLine>,
) -> Result<(), AllocError>
    requires { LinesRise cells.now }
    ensures { OnOk result (more.new.items ≡ more.old.items ++ reverse_by widths cells.now cell.now.row (forward_of (without_name (uid_cell widths cell.now)))) }
{
    let Some((kind, id)) = forward_of(widths, cell) else {
        return Ok(());
    };
    if has_any(widths, cells, kind, id) {
        return Ok(());
    }
    let reverse = reverse_cell(alloc, widths, kind, id, cell.row.list())?;
    more.push(reverse)?;
    Ok(())
}

/// What names give their ids, where nothing stands for these. It fails only for want of memory.
fn reverse_cells(
    alloc: Global,
    widths: Widths,
    cells: &[ListLine],
) -> Result<Vec<ListLine>, AllocError>
    requires { LinesRise cells.now }
    ensures { IfOk result (λ more. more.items ≡ reverse_cells widths cells.now cells.now) }
{
    let mut more = Vec::new(alloc);
    for at in 0..cells.len() {
        push_reverse(alloc, widths, cells, &cells[at], &mut more)?;
    }
    Ok(more)
}

/// Whether a cell is no name whose id has another one.
fn keeps_name(widths: Widths, cells: &[ListLine], cell: &ListLine) -> bool
    requires { LinesRise cells.now }
    ensures { result ≡ kept_by widths cells.now cell.now.row (forward_of (without_name (uid_cell widths cell.now))) }
{
    match forward_of(widths, cell) {
        Some((kind, id)) => has_name(widths, cells, kind, id, cell.row.list()),
        None => true,
    }
}

/// For each cell whether it is no name whose id has another one. It fails only for want of memory.
fn name_flags(alloc: Global, widths: Widths, cells: &[ListLine]) -> Result<Vec<bool>, AllocError>
    requires { LinesRise cells.now }
    ensures { IfOk result (λ flags. flags.items ≡ map (keeps_name widths cells.now) cells.now) }
{
    let mut flags = Vec::with_capacity(alloc, cells.len())?;
    for at in 0..cells.len() {
        flags.push(keeps_name(widths, cells, &cells[at]))?;
    }
    Ok(flags)
}

/// The cells without the names whose ids have other ones. It fails only for want of memory.
fn drop_names(
    alloc: Global,
    widths: Widths,
    cells: Vec<ListLine>,
) -> Result<Vec<ListLine>, AllocError>
    requires { LinesRise cells.items }
    ensures { IfOk result (λ kept. kept.items ≡ filter (keeps_name widths cells.items) cells.items) }
{
    let flags = name_flags(alloc, widths, &cells)?;
    Ok(keep_flagged(cells, &flags))
}

/// The third change: a name whose id has none gives it its own, the least one first, and one whose id has another name goes. It fails
/// only for want of memory.
pub(crate) fn give_names(
    alloc: Global,
    widths: Widths,
    cells: Vec<ListLine>,
) -> Result<Vec<ListLine>, AllocError>
    requires { LinesRise cells.items }
    ensures rising { IfOk result (λ new. LinesRise new.items) }
    ensures told { IfOk result (λ new. (s : Store) → s.widths ≡ widths → cells.items ≡ lines_of s → new.items ≡ lines_of (with_names s)) }
{
    let more = reverse_cells(alloc, widths, &cells)?;
    let cells = with_more(cells, more)?;
    drop_names(alloc, widths, cells)
}
