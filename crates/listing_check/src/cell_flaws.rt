//! The flaws of cells among others, which rise.
ghost use Rattle.std.specs.Prelude.{◌≡◌, ◌++◌, [], IfOk, OnOk, MatchOption, MatchBool, Some, None, Option};
ghost use Rattle.std.specs.List.{list_all};
ghost use Rattle.cell_model.specs.declared.row.Row.{Row};
ghost use Rattle.cell_model.specs.KindWidths.{kind_bytes};
ghost use Rattle.cell_model.specs.Machine.{kind_qual};
ghost use Rattle.cell_model.specs.Store.{same_bytes};
ghost use Rattle.cell_model.specs.IdRows.{id_number};
ghost use Rattle.cell_model.specs.Rising.{LinesRise};
ghost use Rattle.qual_codec.specs.CellDots.{Reads};
ghost use Rattle.qual_codec.specs.declared.cells.CellFault.TheVariants.{OutOfMemory};
ghost use Rattle.row_key.specs.declared.tables.Table.TheVariants.{Ids, Names};
ghost use Rattle.tsd_base.specs.Alphabet.{is_name, is_name_byte};
ghost use Rattle.listing_check.specs.UidCells.{UidCell, counter_spelled, id_spelled, kind_named, uid_in};
ghost use Rattle.listing_check.specs.UidCells.UidCell.{Forward, Reverse};
ghost use Rattle.listing_check.specs.Flaws.{FlawOf, PointFlaw, all_named, counter_in, has_id, has_name, is_named, pair_named, uid_flaw, value_in};
ghost use Rattle.listing_check.specs.Faults.{told};
ghost use Rattle.listing_check.specs.RowFlaws.{IsKnown, IsRowAt, KeyFlaw};
ghost use Rattle.listing_check.specs.RowNotes.{IsAt};

use crate::report::Flaw;
use cell_listing::listed::order_of;
use cell_model::{ListLine, width_of};
use qual_codec::{CellFault, read_cell, short_dot};
use row_key::{RowKey, Table, Widths, id_bytes, most_ids, read_key};
use std::alloc::{AllocError, Global};
use tsd_base::kinds::Kind;

/// The row of the counters.
pub const COUNTERS: &[u8] = b"\x00";

/// The flaw of a row of points, or that it has none, with the place of a cell of the row.
#[derive(Clone, Copy)]
pub struct RowFlaw {
    pub at: usize,
    pub flaw: Option<Flaw>,
}

/// The value that stands in a row at a qualifier.
pub fn value_in<'a>(
    cells: &'a [ListLine],
    table: Table,
    row: &[u8],
    qual: &[u8],
) -> Option<&'a [u8]>
    requires { LinesRise cells.now }
    ensures { let r : Row = record { table = table; bytes = row.now } in
        MatchOption result (value_in cells.now r qual.now ≡ None) (λ value. value_in cells.now r qual.now ≡ Some value.now) }
{
    match cells.binary_search_by(|cell| order_of(cell, table, row, qual)) {
        Ok(at) => Some(cells[at].value.list()),
        Err(_) => None,
    }
}

/// The qualifier of a kind.
pub fn qualifier(kind: Kind) -> &'static [u8]
    ensures { result.now ≡ kind_qual kind }
{
    match kind {
        Kind::Metric => b"metrics",
        Kind::TagKey => b"tagk",
        Kind::TagValue => b"tagv",
    }
}

/// The kind with this qualifier.
pub fn kind_named(qual: &[u8]) -> Option<Kind>
    ensures { result ≡ kind_named qual.now }
{
    if qual == b"metrics".as_slice() {
        Some(Kind::Metric)
    } else if qual == b"tagk".as_slice() {
        Some(Kind::TagKey)
    } else if qual == b"tagv".as_slice() {
        Some(Kind::TagValue)
    } else {
        None
    }
}

fn is_name_byte(b: u8) -> bool
    ensures { result ≡ is_name_byte b }
{
    matches!(b, b'a'..=b'z' | b'A'..=b'Z' | b'0'..=b'9' | b'-' | b'_' | b'.' | b'/')
}

/// Whether all bytes are of the alphabet of names.
fn are_name_bytes(bytes: &[u8]) -> bool
    ensures { result ≡ list_all is_name_byte bytes.now }
{
    bytes.iter().all(|b| is_name_byte(*b))
}

pub(crate) fn is_same(one: &[u8], other: &[u8]) -> bool
    ensures { result ≡ same_bytes one.now other.now }
{
    one == other
}

/// Whether these are the bytes of a name.
pub fn is_name(bytes: &[u8]) -> bool
    ensures { result ≡ is_name bytes.now }
{
    1 <= bytes.len() && bytes.len() <= 255 && are_name_bytes(bytes)
}

/// The number in two, three or four bytes.
fn number_in(value: &[u8]) -> Option<u32>
    ensures { result ≡ id_number value.now }
{
    match value {
        [a, b] => Some(u32::from_be_bytes([0, 0, *a, *b])),
        [a, b, c] => Some(u32::from_be_bytes([0, *a, *b, *c])),
        [a, b, c, d] => Some(u32::from_be_bytes([*a, *b, *c, *d])),
        _ => None,
    }
}

/// Whether these are the bytes of an id of a kind.
fn is_spelled(widths: Widths, kind: Kind, id: u32, value: &[u8]) -> bool
    ensures { result ≡ same_bytes (kind_bytes widths kind id) value.now }
{
    id_bytes(id, width_of(kind, widths)).as_slice() == value
}

/// The id of a kind whose bytes these are.
pub fn id_spelled(widths: Widths, kind: Kind, value: &[u8]) -> Option<u32>
    ensures { result ≡ id_spelled widths kind value.now }
{
    let id = number_in(value)?;
    let most = most_ids(width_of(kind, widths));
    if 1 <= id && id <= most && is_spelled(widths, kind, id, value) {
        Some(id)
    } else {
        None
    }
}

/// The counter of a kind whose eight bytes these are.
pub fn counter_spelled(widths: Widths, kind: Kind, value: &[u8]) -> Option<u64>
    ensures { result ≡ counter_spelled widths kind value.now }
{
    let [a, b, c, d, e, f, g, h] = value else {
        return None;
    };
    let number = u64::from_be_bytes([*a, *b, *c, *d, *e, *f, *g, *h]);
    let most = u64::from(most_ids(width_of(kind, widths)));
    if 1 <= number && number <= most && number.to_be_bytes().as_slice() == value {
        Some(number)
    } else {
        None
    }
}

/// The greatest id given, where its cell reads; else 0.
fn counter_in(widths: Widths, cells: &[ListLine], kind: Kind) -> u64
    requires { LinesRise cells.now }
    ensures { result ≡ counter_in widths cells.now kind }
{
    match value_in(cells, Table::Ids, COUNTERS, qualifier(kind)) {
        Some(value) => counter_spelled(widths, kind, value).unwrap_or(0),
        None => 0,
    }
}

/// Whether the id has this name.
pub fn has_name(widths: Widths, cells: &[ListLine], kind: Kind, id: u32, name: &[u8]) -> bool
    requires { LinesRise cells.now }
    ensures { result ≡ has_name widths cells.now kind id name.now }
{
    match value_in(
        cells,
        Table::Names,
        id_bytes(id, width_of(kind, widths)).as_slice(),
        qualifier(kind),
    ) {
        Some(value) => value == name,
        None => false,
    }
}

/// Whether the name has this id.
pub(crate) fn has_id(widths: Widths, cells: &[ListLine], kind: Kind, name: &[u8], id: u32) -> bool
    requires { LinesRise cells.now }
    ensures { result ≡ has_id widths cells.now kind name.now id }
{
    match value_in(cells, Table::Ids, name, qualifier(kind)) {
        Some(value) => is_spelled(widths, kind, id, value),
        None => false,
    }
}

/// The first flaw of the id of a name.
fn forward_flaw(
    widths: Widths,
    cells: &[ListLine],
    kind: Kind,
    name: &[u8],
    id: u32,
) -> Option<Flaw>
    requires { LinesRise cells.now }
    ensures { result ≡ uid_flaw widths cells.now (Some (Forward kind name.now id)) }
{
    if counter_in(widths, cells, kind) < u64::from(id) {
        Some(Flaw::AboveCounter)
    } else if has_name(widths, cells, kind, id, name) {
        None
    } else {
        Some(Flaw::NoName)
    }
}

/// The flaw of the name of an id.
fn reverse_flaw(
    widths: Widths,
    cells: &[ListLine],
    kind: Kind,
    id: u32,
    name: &[u8],
) -> Option<Flaw>
    requires { LinesRise cells.now }
    ensures { result ≡ uid_flaw widths cells.now (Some (Reverse kind id name.now)) }
{
    if counter_in(widths, cells, kind) < u64::from(id) {
        Some(Flaw::AboveCounter)
    } else {
        None
    }
}

/// The first flaw of a cell of ids.
fn ids_flaw(
    widths: Widths,
    cells: &[ListLine],
    row: &[u8],
    qual: &[u8],
    value: &[u8],
) -> Option<Flaw>
    requires { LinesRise cells.now }
    ensures { result ≡ uid_flaw widths cells.now (uid_in widths Ids row.now qual.now value.now) }
{
    let Some(kind) = kind_named(qual) else {
        return Some(Flaw::BadUidCell);
    };
    if row == COUNTERS {
        return match counter_spelled(widths, kind, value) {
            Some(_) => None,
            None => Some(Flaw::BadUidCell),
        };
    }
    if !is_name(row) {
        return Some(Flaw::BadUidCell);
    }
    match id_spelled(widths, kind, value) {
        Some(id) => forward_flaw(widths, cells, kind, row, id),
        None => Some(Flaw::BadUidCell),
    }
}

/// The first flaw of a cell of names.
fn names_flaw(
    widths: Widths,
    cells: &[ListLine],
    row: &[u8],
    qual: &[u8],
    value: &[u8],
) -> Option<Flaw>
    requires { LinesRise cells.now }
    ensures { result ≡ uid_flaw widths cells.now (uid_in widths Names row.now qual.now value.now) }
{
    let Some(kind) = kind_named(qual) else {
        return Some(Flaw::BadUidCell);
    };
    let Some(id) = id_spelled(widths, kind, row) else {
        return Some(Flaw::BadUidCell);
    };
    if is_name(value) {
        reverse_flaw(widths, cells, kind, id, value)
    } else {
        Some(Flaw::BadUidCell)
    }
}

/// Whether what stands for an id is a name that has this id.
fn is_named(widths: Widths, cells: &[ListLine], kind: Kind, id: u32) -> bool
    requires { LinesRise cells.now }
    ensures { result ≡ is_named widths cells.now kind id }
{
    match value_in(
        cells,
        Table::Names,
        id_bytes(id, width_of(kind, widths)).as_slice(),
        qualifier(kind),
    ) {
        Some(name) => is_name(name) && has_id(widths, cells, kind, name, id),
        None => false,
    }
}

/// Whether both ids of a tag are named.
fn pair_named(widths: Widths, cells: &[ListLine], key: u32, value: u32) -> bool
    requires { LinesRise cells.now }
    ensures { result ≡ pair_named widths cells.now (key, value) }
{
    is_named(widths, cells, Kind::TagKey, key) && is_named(widths, cells, Kind::TagValue, value)
}

/// Whether the ids of all tags are named.
fn pairs_named(widths: Widths, cells: &[ListLine], pairs: &[(u32, u32)]) -> bool
    requires { LinesRise cells.now }
    ensures { result ≡ list_all (pair_named widths cells.now) pairs.now }
{
    for pair in pairs {
        if !pair_named(widths, cells, pair.0, pair.1) {
            return false;
        }
    }
    true
}

/// Whether each id of a key is named.
fn all_named(widths: Widths, cells: &[ListLine], key: &RowKey) -> bool
    requires { LinesRise cells.now }
    ensures { result ≡ all_named widths cells.now key.now }
{
    is_named(widths, cells, Kind::Metric, key.metric)
        && pairs_named(widths, cells, key.pairs.as_slice())
}

/// Why a cell of points doesn't read, if it doesn't, or want of memory.
fn fault_of(alloc: Global, qual: &[u8], value: &[u8]) -> Option<CellFault>
    ensures { MatchOption result (Reads qual.now value.now) (λ fault. Reads qual.now value.now → fault ≡ OutOfMemory) }
{
    match read_cell(alloc, qual, value) {
        Ok(dots) => {
            let _dots = dots;
            None
        }
        Err(fault) => Some(fault),
    }
}

/// Whether a cell of points reads. It fails only for want of memory.
fn reads(alloc: Global, qual: &[u8], value: &[u8]) -> Result<bool, AllocError>
    ensures { IfOk result (λ yes. MatchBool yes (Reads qual.now value.now) (Reads qual.now value.now → ⊥)) }
{
    if short_dot(qual, value).is_some() {
        return Ok(true);
    }
    match fault_of(alloc, qual, value) {
        None => Ok(true),
        Some(fault) => match fault {
            CellFault::OutOfMemory => Err(AllocError),
            _ => Ok(false),
        },
    }
}

/// The flaw of a row of points: it is no key, or an id of it isn't named.
fn key_flaw(widths: Widths, cells: &[ListLine], row: &[u8]) -> Option<Flaw>
    requires { LinesRise cells.now }
    ensures { KeyFlaw widths cells.now row.now result }
{
    let key = match read_key(row, widths) {
        Ok(key) => key,
        Err(_) => return Some(Flaw::BadKey),
    };
    if all_named(widths, cells, &key) {
        None
    } else {
        Some(Flaw::RowNoName)
    }
}

/// Whether a cell stands there, and has this row.
fn is_row_at(cells: &[ListLine], at: usize, row: &[u8]) -> bool
    ensures { MatchBool result (IsRowAt cells.now at row.now) (IsRowAt cells.now at row.now → ⊥) }
{
    if at >= cells.len() {
        return false;
    }
    let cell = &cells[at];
    is_same(cell.row.list(), row)
}

/// The flaw of the row of a cell of points. The cells of a row stand together, so it is judged once for all of them.
fn row_flaw(
    widths: Widths,
    cells: &[ListLine],
    at: usize,
    cell: &ListLine,
    known: &mut Option<RowFlaw>,
) -> Option<Flaw>
    requires rising { LinesRise cells.now }
    requires is { IsAt cells.now at cell.now }
    requires known { IsKnown widths cells.now known.old }
    ensures flaw { KeyFlaw widths cells.now cell.now.row result }
    ensures known { IsKnown widths cells.now known.new }
{
    let row = cell.row.list();
    if let Some(last) = *known {
        if is_row_at(cells, last.at, row) {
            return last.flaw;
        }
    }
    let flaw = key_flaw(widths, cells, row);
    *known = Some(RowFlaw { at, flaw });
    flaw
}

/// The first flaw of a cell of points. It fails only for want of memory.
fn point_flaw(
    alloc: Global,
    widths: Widths,
    cells: &[ListLine],
    at: usize,
    cell: &ListLine,
    known: &mut Option<RowFlaw>,
) -> Result<Option<Flaw>, AllocError>
    requires rising { LinesRise cells.now }
    requires is { IsAt cells.now at cell.now }
    requires known { IsKnown widths cells.now known.old }
    ensures flaw { IfOk result (PointFlaw widths cells.now cell.now.row cell.now.qual cell.now.value) }
    ensures known { OnOk result (IsKnown widths cells.now known.new) }
{
    if let Some(flaw) = row_flaw(widths, cells, at, cell, known) {
        return Ok(Some(flaw));
    }
    if reads(alloc, cell.qual.list(), cell.value.list())? {
        Ok(None)
    } else {
        Ok(Some(Flaw::BadCell))
    }
}

/// The first flaw of a cell that stands among others. Of the row of points that was judged last the flaw is kept for the row's next cells;
/// at first there is none. It fails only for want of memory.
pub fn flaw_of(
    alloc: Global,
    widths: Widths,
    cells: &[ListLine],
    at: usize,
    cell: &ListLine,
    known: &mut Option<RowFlaw>,
) -> Result<Option<Flaw>, AllocError>
    requires rising { LinesRise cells.now }
    requires is { IsAt cells.now at cell.now }
    requires known { IsKnown widths cells.now known.old }
    ensures flaw { IfOk result (FlawOf widths cells.now cell.now) }
    ensures known { OnOk result (IsKnown widths cells.now known.new) }
{
    let row = cell.row.list();
    let qual = cell.qual.list();
    let value = cell.value.list();
    match cell.table {
        Table::Ids => Ok(ids_flaw(widths, cells, row, qual, value)),
        Table::Names => Ok(names_flaw(widths, cells, row, qual, value)),
        Table::Points => point_flaw(alloc, widths, cells, at, cell, known),
    }
}

/// Adds a flaw, if there is one, with its number. It fails only for want of memory.
pub fn tell(
    faults: &mut Vec<(u64, Flaw)>,
    number: u64,
    flaw: Option<Flaw>,
) -> Result<(), AllocError>
    ensures { OnOk result (faults.new.items ≡ faults.old.items ++ told number flaw []) }
{
    if let Some(flaw) = flaw {
        faults.push((number, flaw))?;
    }
    Ok(())
}
