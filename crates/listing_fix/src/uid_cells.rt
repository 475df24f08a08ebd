//! What cells of ids and of names say.
ghost use Rattle.std.specs.Prelude.{◌≡◌};
ghost use Rattle.row_key.specs.declared.tables.Table.TheVariants.{Ids, Names};
ghost use Rattle.listing_check.specs.UidCells.{uid_cell, uid_in};
ghost use Rattle.listing_fix.specs.Steps.{without_name};

use cell_model::ListLine;
use listing_check::cell_flaws::{COUNTERS, counter_spelled, id_spelled, is_name, kind_named};
use row_key::{Table, Widths};
use tsd_base::kinds::Kind;

/// What a cell of ids or of names says, without the name.
#[derive(Copy, Clone)]
pub enum IdCell {
    /// The greatest id given of a kind.
    Counter { kind: Kind, number: u64 },
    /// A name has this id.
    Forward { kind: Kind, id: u32 },
    /// An id has a name.
    Reverse { kind: Kind, id: u32 },
}

/// What a cell of ids says.
fn ids_cell(widths: Widths, row: &[u8], qual: &[u8], value: &[u8]) -> Option<IdCell>
    ensures { result ≡ without_name (uid_in widths Ids row.now qual.now value.now) }
{
    let Some(kind) = kind_named(qual) else {
        return None;
    };
    if row == COUNTERS {
        return match counter_spelled(widths, kind, value) {
            Some(number) => Some(IdCell::Counter { kind, number }),
            None => None,
        };
    }
    if !is_name(row) {
        return None;
    }
    match id_spelled(widths, kind, value) {
        Some(id) => Some(IdCell::Forward { kind, id }),
        None => None,
    }
}

/// What a cell of names says.
fn names_cell(widths: Widths, row: &[u8], qual: &[u8], value: &[u8]) -> Option<IdCell>
    ensures { result ≡ without_name (uid_in widths Names row.now qual.now value.now) }
{
    let Some(kind) = kind_named(qual) else {
        return None;
    };
    let Some(id) = id_spelled(widths, kind, row) else {
        return None;
    };
    if is_name(value) {
        Some(IdCell::Reverse { kind, id })
    } else {
        None
    }
}

/// What a cell says, if it is of ids or of names and reads.
pub(crate) fn id_cell(widths: Widths, cell: &ListLine) -> Option<IdCell>
    ensures { result ≡ without_name (uid_cell widths cell.now) }
{
    let row = cell.row.list();
    let qual = cell.qual.list();
    let value = cell.value.list();
    match cell.table {
        Table::Ids => ids_cell(widths, row, qual, value),
        Table::Names => names_cell(widths, row, qual, value),
        Table::Points => None,
    }
}
