//! Stores to begin with.
ghost use Rattle.std.specs.Prelude.{◌≡◌, ◌≤◌, All, IfSome, IsTrue, Some};
ghost use Rattle.std.specs.Int.{w64, to_be_bytes};
ghost use Rattle.std.specs.Ordering.{is_eq};
ghost use Rattle.cell_model.specs.PlaceOrder.{place_cmp, table_number};
ghost use Rattle.cell_model.specs.Rising.{place_of_line};
ghost use Rattle.cell_model.specs.Listed.{store_of};
ghost use Rattle.cell_model.specs.IdRows.{reverse_row};
ghost use Rattle.cell_model.specs.Sound.{IsBase, IsCounter, IsForward, IsReverse};
ghost use Rattle.map_body.specs.Whole.{HasNoFlaw};
ghost use Rattle.test_rows.specs.Bases.{IsSoundLine, line_counter, line_value};

use crate::claim::{id_in, is_name, kind_of, qualifier};
use crate::sharing::{CALLERS, Shared};
use cell_model::kind_widths::width_of;
use cell_model::{ListLine, Listing};
use cell_region::{DATA_REGIONS, Regions};
use cell_solo::Solo;
use row_key::{Table, Widths, most_ids};
use std::alloc::{AllocError, Global};
use tsd_base::kinds::Kind;

/// The bytes of the counters' row.
const COUNTERS: &[u8] = b"\x00";

/// The value of a cell among lines.
fn value_in<'a>(lines: &'a [ListLine], table: Table, row: &[u8], qual: &[u8]) -> Option<&'a [u8]>
    ensures { IfSome result (λ value. line_value lines.now (record { table = table; bytes = row.now }) qual.now ≡ Some value.now) }
{
    for line in lines {
        if is_at(line, table, row, qual) {
            return Some(line.value.list());
        }
    }
    None
}

/// The place of a table among the tables.
fn number_of(table: Table) -> u8
    ensures { result ≡ table_number table }
{
    match table {
        Table::Ids => 0,
        Table::Names => 1,
        Table::Points => 2,
    }
}

/// Whether a line is of this cell.
fn is_at(line: &ListLine, table: Table, row: &[u8], qual: &[u8]) -> bool
    ensures { result ≡ is_eq (place_cmp (record { row = record { table = table; bytes = row.now }; qual = qual.now }) (place_of_line line.now)) }
{
    let tables = number_of(table).cmp(&number_of(line.table));
    let rows = row.cmp(line.row.list());
    let quals = qual.cmp(line.qual.list());
    tables.then(rows).then(quals).is_eq()
}

/// The number in eight bytes.
fn number_in(value: &[u8]) -> Option<u64>
    ensures { IfSome result (λ number. value.now ≡ to_be_bytes w64 number) }
{
    let [a, b, c, d, e, f, g, h] = value else {
        return None;
    };
    let number = u64::from_be_bytes([*a, *b, *c, *d, *e, *f, *g, *h]);
    (number.to_be_bytes().as_slice() == value).then_some(number)
}

/// The counter of a kind among lines, 0 where there is none.
fn counter_in(lines: &[ListLine], kind: Kind) -> u64
    ensures { result ≤ line_counter lines.now kind }
{
    match value_in(lines, Table::Ids, COUNTERS, qualifier(kind).list()) {
        Some(value) => number_in(value).unwrap_or(0),
        None => 0,
    }
}

/// Whether a line of the counters' row is a counter.
fn is_counter(line: &ListLine, widths: Widths) -> bool
    ensures { IsTrue result → IsCounter widths line.now.qual line.now.value }
{
    match (kind_of(line.qual.list()), number_in(line.value.list())) {
        (Some(kind), Some(number)) => {
            1 <= number && number <= u64::from(most_ids(width_of(kind, widths)))
        }
        _ => false,
    }
}

/// Whether a line gives a name an id that has the name.
fn is_forward(alloc: Global, widths: Widths, lines: &[ListLine], line: &ListLine) -> bool
    ensures { IsTrue result → IsForward (store_of (record { widths = widths; lines = lines.now })) line.now.row line.now.qual line.now.value }
{
    let Some(kind) = kind_of(line.qual.list()) else {
        return false;
    };
    let Some(id) = id_in(kind, line.value.list(), widths) else {
        return false;
    };
    let name = line.row.list();
    is_name(alloc, name)
        && u64::from(id) <= counter_in(lines, kind)
        && has_name(lines, line.value.list(), line.qual.list(), name)
}

/// Whether the id of these bytes has the name.
fn has_name(lines: &[ListLine], id: &[u8], qual: &[u8], name: &[u8]) -> bool
    ensures { IsTrue result → line_value lines.now (reverse_row id.now) qual.now ≡ Some name.now }
{
    match value_in(lines, Table::Names, id, qual) {
        Some(value) => value == name,
        None => false,
    }
}

/// Whether a line gives an id a name.
fn is_reverse(alloc: Global, widths: Widths, lines: &[ListLine], line: &ListLine) -> bool
    ensures { IsTrue result → IsReverse (store_of (record { widths = widths; lines = lines.now })) line.now.row line.now.qual line.now.value }
{
    let Some(kind) = kind_of(line.qual.list()) else {
        return false;
    };
    let Some(id) = id_in(kind, line.row.list(), widths) else {
        return false;
    };
    is_name(alloc, line.value.list()) && u64::from(id) <= counter_in(lines, kind)
}

/// Whether a line is sound among these: a counter, an id of a name or a name of an id.
fn is_sound(alloc: Global, widths: Widths, lines: &[ListLine], line: &ListLine) -> bool
    ensures { IsTrue result → IsSoundLine (record { widths = widths; lines = lines.now }) line.now }
{
    match line.table {
        Table::Ids => {
            if line.row.list() == COUNTERS {
                is_counter(line, widths)
            } else {
                is_forward(alloc, widths, lines, line)
            }
        }
        Table::Names => is_reverse(alloc, widths, lines, line),
        Table::Points => false,
    }
}

/// Whether the lines are a base without points.
fn is_base(alloc: Global, widths: Widths, lines: &[ListLine]) -> bool
    ensures base { IsTrue result → IsBase (store_of (record { widths = widths; lines = lines.now })) }
    ensures flaws { IsTrue result → All (HasNoFlaw widths) lines.now }
{
    for line in lines {
        if !is_sound(alloc, widths, lines, line) {
            return false;
        }
    }
    true
}

/// Callers of the store of a listing. None where the listing isn't sound, or has points.
pub fn shared_over(alloc: Global, listing: Listing) -> Result<Option<Shared>, AllocError> {
    if !is_base(alloc, listing.widths, listing.lines()) {
        return Ok(None);
    }
    let body = Regions::of(alloc, listing, DATA_REGIONS)?;
    let solo = Solo::make(alloc, body, CALLERS)?;
    Ok(Some(Shared::of(alloc, solo)))
}
