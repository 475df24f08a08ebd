//! Reads of the cells of names and of ids.
ghost use Rattle.std.specs.Prelude.{◌≡◌, ◌≤◌, length, IfOk, OnOk, IfSome, Some};
ghost use Rattle.tsd_base.specs.Alphabet.{IsName};
ghost use Rattle.cell_model.specs.KindWidths.{IsWidth, kind_bytes};
ghost use Rattle.cell_model.specs.Machine.{kind_qual};
ghost use Rattle.cell_model.specs.IdRows.{name_row, id_row, id_number};
ghost use Rattle.cell_model.specs.Stops.{is_stop};
ghost use Rattle.cell_model.specs.Calls.{Leaves};
ghost use Rattle.uid_table.specs.Shown.{HasShown};
ghost use Rattle.uid_table.specs.IdSteps.{MadeSo, LookMade};

use cell_model::answers::RowsFault;
use cell_model::kind_widths::width_of;
use cell_model::row::Row;
use cell_model::rows::Rows;
use qual_codec::Bytes;
use row_key::{Table, Widths, id_bytes};
use std::alloc::Global;
use tsd_base::kinds::Kind;

/// The bytes of the qualifier of a kind's cells in the tables of ids and names.
pub fn qualifier_bytes(kind: Kind) -> &'static [u8]
    ensures bytes { result.now ≡ kind_qual kind }
    ensures short { length result.now ≤ 7 }
{
    match kind {
        Kind::Metric => b"metrics",
        Kind::TagKey => b"tagk",
        Kind::TagValue => b"tagv",
    }
}

/// The qualifier of a kind's cells in the tables of ids and names. It takes no memory.
pub fn qualifier(kind: Kind) -> Bytes
    ensures { result ≡ kind_qual kind }
{
    Bytes::short(qualifier_bytes(kind))
}

/// The bytes of an id of a kind. They take no memory.
pub fn bytes_of_id(kind: Kind, id: u32, widths: Widths) -> Bytes
    ensures { result ≡ kind_bytes widths kind id }
{
    let bytes = id_bytes(id, width_of(kind, widths));
    Bytes::short(bytes.as_slice())
}

/// The row of an id in the table of names. It takes no memory.
pub fn row_of_id(kind: Kind, id: u32, widths: Widths) -> Row
    ensures { result ≡ id_row widths kind id }
{
    Row {
        table: Table::Names,
        bytes: bytes_of_id(kind, id, widths),
    }
}

/// The id in two, three or four bytes.
pub fn id_from(value: &[u8]) -> u32
    requires { IsWidth (length value.now) }
    ensures { id_number value.now ≡ Some result }
{
    if value.len() == 3 {
        return u32::from_be_bytes([0, value[0], value[1], value[2]]);
    }
    if value.len() == 2 {
        return u32::from_be_bytes([0, 0, value[0], value[1]]);
    }
    u32::from_be_bytes([value[0], value[1], value[2], value[3]])
}

/// The id that the row of a name shows, if it shows one.
pub fn look<R: Rows>(
    rows: &mut R,
    alloc: Global,
    kind: Kind,
    row: &Row,
) -> Result<Option<u32>, RowsFault>
    requires row { row.now ≡ name_row row.now.bytes }
    requires named { IsName row.now.bytes }
    ensures made { MadeSo (R.seen rows.old) (LookMade (R.seen rows.old).base.widths kind row.now.bytes result) (R.seen rows.new) }
    ensures id { IfOk result (λ shown. IfSome shown (HasShown (R.seen rows.new) kind row.now.bytes)) }
    ensures leaves { Leaves is_stop result (R.seen rows.new) (R.stops rows.old) (R.stops rows.new) }
    ensures spare { OnOk result (2 ≤ R.spare rows.new) }
{
    let cells = rows.read(alloc, row)?;
    match cells.value_at(qualifier_bytes(kind)) {
        Some(value) => Ok(Some(id_from(value))),
        None => Ok(None),
    }
}
