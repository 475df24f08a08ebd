//! The parts of steps, written behind a block of bytes that has room for them.
ghost use Rattle.std.specs.Prelude.{◌≡◌, ◌≤◌, ◌<◌, ◌+◌, ◌-◌, ◌^◌, ◌++◌, length, take, vec_len, vec_capacity};
ghost use Rattle.cell_solo.specs.TurnNames.{told, told_tags, told_names};
ghost use Rattle.cell_solo.specs.declared.turn_bytes.CellLengths.{CellLengths};

use cell_model::row::Row;
use qual_codec::Bytes;
use tsd_base::names::Name;
use tsd_base::points::Point;

/// More bytes than the names of a point take: its metric and 8 tags, each name of up to 255 bytes with one byte before it.
pub const MOST_NAMES: usize = 17 * 256;

/// How many bytes each part of a cell has.
#[derive(Clone, Copy, Drop)]
pub struct CellLengths {
    pub row: u32,
    pub qual: u32,
    pub value: u32,
}

/// How many more elements there is room for.
#[inline]
pub fn room_of<T>(list: &Vec<T>) -> usize
    ensures { result ≡ vec_capacity list.now - vec_len list.now }
{
    list.capacity() - list.len()
}

/// Writes these bytes.
#[inline]
pub fn write(block: &mut Vec<u8>, part: &[u8])
    requires { vec_len block.old + length part.now ≤ vec_capacity block.old }
    ensures items { block.new.items ≡ block.old.items ++ part.now }
    ensures len { vec_len block.new ≡ vec_len block.old + length part.now }
    ensures capacity { vec_capacity block.old ≤ vec_capacity block.new }
{
    match block.extend_from_slice(part) {
        Ok(()) => {}
        Err(_) => unreachable!(),
    }
}

/// Writes the value of a point, which has 1, 2, 4 or 8 bytes. The length that each copy has is known where it is compiled.
#[inline(always)]
pub fn write_value(block: &mut Vec<u8>, value: &[u8])
    requires { vec_len block.old + length value.now ≤ vec_capacity block.old }
    ensures items { block.new.items ≡ block.old.items ++ value.now }
    ensures len { vec_len block.new ≡ vec_len block.old + length value.now }
    ensures capacity { vec_capacity block.old ≤ vec_capacity block.new }
{
    match value.len() {
        1 => write_exactly(block, value, 1),
        2 => write_exactly(block, value, 2),
        4 => write_exactly(block, value, 4),
        8 => write_exactly(block, value, 8),
        _ => write_part(block, value),
    }
}

/// Writes bytes of which there are this many.
#[inline(always)]
fn write_exactly(block: &mut Vec<u8>, part: &[u8], n: usize)
    requires room { vec_len block.old + length part.now ≤ vec_capacity block.old }
    requires many { length part.now ≡ n }
    ensures items { block.new.items ≡ block.old.items ++ part.now }
    ensures len { vec_len block.new ≡ vec_len block.old + length part.now }
    ensures capacity { vec_capacity block.old ≤ vec_capacity block.new }
{
    write(block, &part[..n]);
}

/// Writes bytes of whatever length.
#[inline(never)]
fn write_part(block: &mut Vec<u8>, part: &[u8])
    requires { vec_len block.old + length part.now ≤ vec_capacity block.old }
    ensures items { block.new.items ≡ block.old.items ++ part.now }
    ensures len { vec_len block.new ≡ vec_len block.old + length part.now }
    ensures capacity { vec_capacity block.old ≤ vec_capacity block.new }
{
    write(block, part);
}

/// Writes row, qualifier and value, and answers how long they are.
pub fn write_cell(block: &mut Vec<u8>, row: &Row, qual: &Bytes, value: &Bytes) -> CellLengths
    requires room { vec_len block.old + (length row.now.bytes + length qual.now + length value.now) ≤ vec_capacity block.old }
    requires fits { length row.now.bytes + length qual.now + length value.now < 2 ^ 32 }
    ensures items { block.new.items ≡ block.old.items ++ (row.now.bytes ++ (qual.now ++ value.now)) }
    ensures capacity { vec_capacity block.old ≤ vec_capacity block.new }
    ensures lengths { result ≡ record { row = length row.now.bytes; qual = length qual.now; value = length value.now } }
{
    write(block, row.bytes.list());
    write(block, qual.list());
    write(block, value.list());
    CellLengths {
        row: row.bytes.list().len() as u32,
        qual: qual.list().len() as u32,
        value: value.list().len() as u32,
    }
}

/// Writes a name behind its length.
#[inline]
fn write_name(block: &mut Vec<u8>, name: &Name)
    requires { vec_len block.old + 256 ≤ vec_capacity block.old }
    ensures items { block.new.items ≡ block.old.items ++ told name.now }
    ensures len { vec_len block.new ≤ vec_len block.old + 256 }
    ensures capacity { vec_capacity block.old ≤ vec_capacity block.new }
{
    let bytes = name.bytes();
    write(block, &[bytes.len() as u8]);
    write(block, bytes);
}

/// Writes the names of tags, key before value.
fn write_tags(block: &mut Vec<u8>, pairs: &[(Name, Name)])
    requires few { length pairs.now ≤ 8 }
    requires room { vec_len block.old + 4096 ≤ vec_capacity block.old }
    ensures items { block.new.items ≡ block.old.items ++ told_tags pairs.now }
    ensures len { vec_len block.new ≤ vec_len block.old + 4096 }
    ensures capacity { vec_capacity block.old ≤ vec_capacity block.new }
{
    for pair in pairs {
        write_name(block, &pair.0);
        write_name(block, &pair.1);
    }
}

/// Writes the names of a point, and answers how many bytes they take.
pub fn write_names(block: &mut Vec<u8>, point: &Point) -> u32
    requires { vec_len block.old + 4352 ≤ vec_capacity block.old }
    ensures items { block.new.items ≡ block.old.items ++ told_names point.now.metric point.now.tags }
    ensures len { vec_len block.new ≤ vec_len block.old + 4352 }
    ensures capacity { vec_capacity block.old ≤ vec_capacity block.new }
    ensures told { result ≡ length (told_names point.now.metric point.now.tags) }
    ensures most { result ≤ 4352 }
{
    let before = block.len();
    write_name(block, &point.metric);
    write_tags(block, point.tags.pairs());
    (block.len() - before) as u32
}
