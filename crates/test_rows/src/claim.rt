//! Claims of cells that hold ids and names.
ghost use Rattle.std.specs.Prelude.{◌≡◌, ℕ, IfSome, IsTrue};
ghost use Rattle.tsd_base.specs.Alphabet.{IsName};
ghost use Rattle.row_key.specs.declared.tables.Table.TheVariants.{Names};
ghost use Rattle.cell_model.specs.Machine.{kind_qual};
ghost use Rattle.cell_model.specs.KindWidths.{kind_bytes};
ghost use Rattle.cell_model.specs.Lawful.{ClaimBasis, IdsBasis};
ghost use Rattle.cell_model.specs.Seen.{Seen, Saw};
ghost use Rattle.test_rows.specs.Facts.{AllHold};
ghost use Rattle.test_rows.specs.Puts.{IsBytesOf};

use crate::fact::{Fact, was_claimed, was_given};
use cell_model::Row;
use cell_model::kind_widths::width_of;
use qual_codec::Bytes;
use row_key::ids::id_of;
use row_key::{Table, Widths, id_bytes};
use std::alloc::Global;
use tsd_base::kinds::Kind;
use tsd_base::names::Name;

/// The qualifier of a kind.
pub fn qualifier(kind: Kind) -> Bytes
    ensures { result ≡ kind_qual kind }
{
    match kind {
        Kind::Metric => Bytes::short(b"metrics"),
        Kind::TagKey => Bytes::short(b"tagk"),
        Kind::TagValue => Bytes::short(b"tagv"),
    }
}

/// Whether a qualifier is that of a kind.
fn is_qualifier(qual: &[u8], kind: Kind) -> bool
    ensures { IsTrue result → qual.now ≡ kind_qual kind }
{
    qual == qualifier(kind).list()
}

/// The kind that has this qualifier.
pub fn kind_of(qual: &[u8]) -> Option<Kind>
    ensures { IfSome result (λ kind. qual.now ≡ kind_qual kind) }
{
    if is_qualifier(qual, Kind::Metric) {
        Some(Kind::Metric)
    } else if is_qualifier(qual, Kind::TagKey) {
        Some(Kind::TagKey)
    } else if is_qualifier(qual, Kind::TagValue) {
        Some(Kind::TagValue)
    } else {
        None
    }
}

/// The bytes of an id of a kind.
pub fn bytes_of_id(kind: Kind, id: u32, widths: Widths) -> Bytes
    ensures { result ≡ kind_bytes widths kind id }
{
    let bytes = id_bytes(id, width_of(kind, widths));
    Bytes::short(bytes.as_slice())
}

/// The id of a kind whose bytes these are, if they are one's.
pub fn id_in(kind: Kind, value: &[u8], widths: Widths) -> Option<u32>
    ensures { IfSome result (IsBytesOf widths kind value.now) }
{
    let width = width_of(kind, widths);
    if value.len() != width as usize {
        return None;
    }
    let id = id_of(value, width);
    if 0 < id { Some(id) } else { None }
}

/// Whether these are the bytes of a name.
pub fn is_name(alloc: Global, bytes: &[u8]) -> bool
    ensures { IsTrue result → IsName bytes.now }
{
    Name::read(alloc, bytes).is_ok()
}

/// Whether the caller was given the id of a row in the table of names.
fn may_name(
    facts: &[Fact],
    alloc: Global,
    caller: u8,
    row: &[u8],
    qual: &[u8],
    name: &[u8],
    widths: Widths,
) -> bool
    ensures { IsTrue result → (s : Seen) → AllHold s facts.now → ClaimBasis widths (λ e. (place : ℕ) × Saw s place e) caller Names row.now qual.now name.now }
{
    let Some(kind) = kind_of(qual) else {
        return false;
    };
    match id_in(kind, row, widths) {
        Some(id) => was_given(facts, caller, kind, id) && is_name(alloc, name),
        None => false,
    }
}

/// Whether the facts show that a caller may claim a cell: in the table of names where it was given the id, in the table of ids
/// where the id was claimed for the name.
pub fn may_claim(
    facts: &[Fact],
    alloc: Global,
    caller: u8,
    row: &Row,
    qual: &[u8],
    value: &Bytes,
    widths: Widths,
) -> bool
    ensures { IsTrue result → (s : Seen) → AllHold s facts.now → ClaimBasis widths (λ e. (place : ℕ) × Saw s place e) caller row.now.table row.now.bytes qual.now value.now }
{
    match row.table {
        Table::Names => {
            may_name(
                facts,
                alloc,
                caller,
                row.bytes.list(),
                qual,
                value.list(),
                widths,
            )
        }
        Table::Ids => may_give(facts, alloc, row.bytes.list(), qual, value),
        Table::Points => false,
    }
}

/// Whether the id was claimed for the name.
fn may_give(facts: &[Fact], alloc: Global, name: &[u8], qual: &[u8], id: &Bytes) -> bool
    ensures { IsTrue result → (s : Seen) → AllHold s facts.now → IdsBasis (λ e. (place : ℕ) × Saw s place e) name.now qual.now id.now }
{
    match id.again(alloc) {
        Ok(bytes) => {
            let row = Row {
                table: Table::Names,
                bytes,
            };
            was_claimed(facts, &row, qual, name)
        }
        Err(_) => false,
    }
}
