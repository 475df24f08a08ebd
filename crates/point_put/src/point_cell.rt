//! The cell of a point: the row of its key, its qualifier and its value.
ghost use Rattle.std.specs.Prelude.{◌≡◌, ◌+◌, ◌≤◌, ◌%◌, [], ◌∷◌, ◌++◌, length, IfOk};
ghost use Rattle.arrayvec.specs.ArrayVec.{array_vec_len};
ghost use Rattle.row_key.specs.Key.{IsKey, key_bytes};
ghost use Rattle.qual_codec.specs.CellDots.{IsDots};
ghost use Rattle.qual_codec.specs.Spelling.{IsShortest, dot_of};
ghost use Rattle.cell_model.specs.Readings.{point_row};

use arrayvec::ArrayVec;
use cell_model::row::Row;
use qual_codec::{Bytes, Item, laws, pack_item, pack_value};
use row_hours::HOUR_MILLIS;
use row_key::{RowKey, Table, Widths, write_key};
use std::alloc::{AllocError, Global};
use tsd_base::points::Point;

/// The row of a key.
pub fn row_of(alloc: Global, key: &RowKey, widths: Widths) -> Result<Row, AllocError>
    requires { IsKey widths key.now }
    ensures { IfOk result (λ row. row ≡ point_row (key_bytes widths key.now)) }
{
    let bytes = write_key(key, widths);
    Ok(Row {
        table: Table::Points,
        bytes: Bytes::of(alloc, bytes.as_slice())?,
    })
}

/// The shortest bytes of a point's value. They take no memory.
pub fn value_of(point: &Point) -> Bytes
    ensures { IsShortest point.now.value result }
{
    let bytes = pack_value(point.value);
    Bytes::short(bytes.as_slice())
}

/// The qualifier of a point whose value has these bytes. It takes no memory.
pub fn qualifier_of(point: &Point, value: &[u8]) -> Bytes
    requires { IsShortest point.now.value value.now }
    ensures { IsDots result value.now (dot_of (point.now.time % HOUR_MILLIS) point.now.fine point.now.value (length value.now) ∷ []) }
{
    laws::points_read_back();
    let bytes = pack_item(Item {
        offset: (point.time % HOUR_MILLIS) as u32,
        fine: point.fine,
        len: value.len() as u8,
    });
    Bytes::short(bytes.as_slice())
}

/// A qualifier and behind it a value of so few bytes, as they are appended to a column. They take no memory.
#[inline]
pub fn piece_of(qual: &[u8], value: &[u8]) -> Bytes
    requires { length qual.now + length value.now ≤ 12 }
    ensures { result ≡ qual.now ++ value.now }
{
    match (qual, value) {
        (&[a, b], &[c]) => Bytes::short(&[a, b, c]),
        (&[a, b], &[c, d]) => Bytes::short(&[a, b, c, d]),
        (&[a, b], &[c, d, e, f]) => Bytes::short(&[a, b, c, d, e, f]),
        _ => joined(qual, value),
    }
}

/// The first bytes and behind them the others, of any lengths.
fn joined(qual: &[u8], value: &[u8]) -> Bytes
    requires { length qual.now + length value.now ≤ 12 }
    ensures { result ≡ qual.now ++ value.now }
{
    let mut bytes = ArrayVec::new();
    add(&mut bytes, qual);
    add(&mut bytes, value);
    Bytes::short(bytes.as_slice())
}

/// Adds bytes, for which there is room.
#[inline]
fn add(bytes: &mut ArrayVec<u8, 12>, more: &[u8])
    requires room { array_vec_len bytes.old + length more.now ≤ 12 }
    ensures items { bytes.new.items ≡ bytes.old.items ++ more.now }
    ensures len { array_vec_len bytes.new ≡ array_vec_len bytes.old + length more.now }
{
    let Ok(()) = bytes.try_extend_from_slice(more) else {
        unreachable!()
    };
}
