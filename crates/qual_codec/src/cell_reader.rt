//! Reading a cell.
ghost use Rattle.std.specs.Prelude.{◌≡◌, ◌↔◌, ◌⊎◌, ◌+◌, ◌%◌, ◌<◌, ◌≤◌, ◌++◌, ◌∷◌, [], List, length, IfOk, IfErr, IfSome, IsTrue, OnOk, Result, Ok, Err, MatchResult, FitsSigned, nat_lt};
ghost use Rattle.qual_codec.specs.declared.cells.CellFault.TheVariants.{OutOfMemory};
ghost use Rattle.qual_codec.specs.Items.{IsLength, Fields};
ghost use Rattle.qual_codec.specs.CellDots.{HoldsDots, IsDots, column_qual, number_bytes, tail_for, width_of};
ghost use Rattle.qual_codec.specs.CellFaults.{HasWholePairs, IsBadPiece, IsColumnFault, IsFirstFault, ReadsAs, bits_fault, value_fault, is_length as tests_length};
ghost use Rattle.qual_codec.specs.MergeSteps.{AddsDots};
ghost use Rattle.qual_codec.specs.CellSteps.{AddsPieces, AddsPoints, IsNextFault, IsNextItem, IsNextPiece, bytes_in, fine_unless, item_unless};

use crate::cells::{CellFault, Dot, Item};
use row_hours::LAST_OFFSET;
use std::alloc::Global;

fn is_length(len: u8) -> bool
    ensures { result ≡ tests_length len }
{
    len == 1 || len == 2 || len == 4 || len == 8
}

/// The item whose bits say this, where it is one and its offset is from `least` on.
#[inline]
fn checked(
    at: usize,
    least: u32,
    fine: bool,
    offset: u32,
    reserved: u8,
    flags: u8,
) -> Result<Item, CellFault>
    requires { flags < 16 }
    ensures { let f : Fields = record { fine = fine; offset = offset; reserved = reserved; flags = flags } in
        result ≡ item_unless f (bits_fault at (nat_lt offset least) f) }
{
    if offset > LAST_OFFSET {
        return Err(CellFault::OffsetTooLarge { at });
    }
    if flags >= 8 {
        return Err(CellFault::FloatFlag { at });
    }
    if reserved > 0 {
        return Err(CellFault::ReservedBits { at });
    }
    let len = flags + 1;
    if !is_length(len) {
        return Err(CellFault::BadLength { at, len });
    }
    if offset < least {
        return Err(CellFault::NotRising { at });
    }
    Ok(Item { offset, fine, len })
}

/// The item at the front, whose offset is to be from `least` on, and the bytes behind it.
#[inline]
fn next_item(bytes: &[u8], at: usize, least: u32) -> Result<(Item, &[u8]), CellFault>
    requires { 2 ≤ length bytes.now }
    ensures item { IfOk result (λ r. IsNextItem least bytes.now r.0 r.1.now) }
    ensures fault { IfErr result (IsNextFault at least bytes.now) }
{
    match bytes {
        [a, b, rest @ ..] if *a < 240 => {
            let number = u16::from_be_bytes([*a, *b]);
            let offset = u32::from(number / 16) * 1000;
            let item = checked(at, least, false, offset, 0, (number % 16) as u8)?;
            Ok((item, rest))
        }
        [a, b, c, d, rest @ ..] => {
            let number = u32::from_be_bytes([*a, *b, *c, *d]);
            let offset = number / 64 % (1 << 22);
            let reserved = (number / 16 % 4) as u8;
            let item = checked(at, least, true, offset, reserved, (number % 16) as u8)?;
            Ok((item, rest))
        }
        _ => Err(CellFault::CutItem { at }),
    }
}

/// The number at the front, where the bytes have it, and the bytes behind it.
#[inline]
fn next_value(bytes: &[u8], len: u8) -> (i64, &[u8])
    requires { IsLength len }
    ensures bytes { len ≤ length bytes.now → bytes.now ≡ number_bytes len result.0 ++ result.1.now }
    ensures fits { FitsSigned (width_of len) result.0 }
    ensures less { len ≤ length bytes.now → length result.1.now + len ≡ length bytes.now }
{
    match (len, bytes) {
        (1, [a, rest @ ..]) => (i64::from(i8::from_be_bytes([*a])), rest),
        (2, [a, b, rest @ ..]) => (i64::from(i16::from_be_bytes([*a, *b])), rest),
        (4, [a, b, c, d, rest @ ..]) => { (i64::from(i32::from_be_bytes([*a, *b, *c, *d])), rest) }
        (8, [a, b, c, d, e, f, g, h, rest @ ..]) => {
            (i64::from_be_bytes([*a, *b, *c, *d, *e, *f, *g, *h]), rest)
        }
        _ => (0, bytes),
    }
}

/// The one data point of a cell whose qualifier is an item of two bytes, as most cells are. None says nothing of the cell.
#[inline]
pub fn short_dot(qual: &[u8], value: &[u8]) -> Option<Dot>
    ensures reads { IfSome result (λ d. IsDots qual.now value.now (d ∷ [])) }
    ensures offset { IfSome result (λ d. d.item.offset ≤ LAST_OFFSET) }
{
    if qual.len() != 2 {
        return None;
    }
    let Ok((item, _)) = next_item(qual, 0, 0) else {
        return None;
    };
    if value.len() != usize::from(item.len) {
        return None;
    }
    let (value, _) = next_value(value, item.len);
    Some(Dot { item, value })
}

/// What is left to know of a cell whose items were read, before the value's length is known to be right.
struct Rest {
    /// How many bytes the values of the items have.
    len: usize,
    /// Whether both forms occur.
    both: bool,
}

/// Adds the data points whose items the qualifier has. Where the value is too short for them, some of their values are arbitrary.
fn read_points(qual: &[u8], value: &[u8], dots: &mut Vec<Dot>) -> Result<Rest, CellFault>
    requires { HasWholePairs qual.now }
    ensures points { IfOk result (λ r. AddsPoints qual.now value.now dots.old.items r.len r.both dots.new.items) }
    ensures fault { IfErr result (λ e. (e ≡ OutOfMemory) ⊎ IsFirstFault qual.now value.now e) }
{
    let mut rest = qual;
    let mut left = value;
    let mut least = 0;
    let mut len = 0;
    let mut fine = false;
    let mut coarse = false;
    'items: while !rest.is_empty() {
        let at = qual.len() - rest.len();
        let (item, after) = next_item(rest, at, least)?;
        let (value, behind) = next_value(left, item.len);
        dots.push(Dot { item, value })?;
        len += usize::from(item.len);
        fine |= item.fine;
        coarse |= !item.fine;
        least = item.offset + 1;
        rest = after;
        left = behind;
    }
    Ok(Rest {
        len,
        both: fine && coarse,
    })
}

/// The byte behind the values of so many items.
pub(crate) fn tail_byte(count: usize, both: bool) -> Option<u8>
    ensures { bytes_in result ≡ tail_for count both }
{
    if count > 1 {
        Some(u8::from(both))
    } else {
        None
    }
}

/// Whether the value has so many bytes of values, and then this byte.
fn check_value(value: &[u8], len: usize, tail: Option<u8>) -> Result<(), CellFault>
    requires { len ≤ 28800000 }
    ensures { result ≡ fine_unless (value_fault len (bytes_in tail) value.now) }
{
    let need = match tail {
        Some(_) => len + 1,
        None => len,
    };
    if value.len() < need {
        return Err(CellFault::ValueShort { need });
    }
    if value.len() > need {
        return Err(CellFault::ValueLong { need });
    }
    if let Some(tail) = tail {
        let found = value[len];
        if found != tail {
            return Err(CellFault::BadTail { found });
        }
    }
    Ok(())
}

/// Adds the data points of a cell that isn't the column, by offset, behind those of other cells. After a fault some of them may have been
/// added.
fn read_items(qual: &[u8], value: &[u8], dots: &mut Vec<Dot>) -> Result<(), CellFault>
    requires { qual.now ≡ column_qual → ⊥ }
    ensures dots { OnOk result (AddsDots qual.now value.now dots.old.items dots.new.items) }
    ensures fault { IfErr result (λ e. (e ≡ OutOfMemory) ⊎ IsFirstFault qual.now value.now e) }
{
    if qual.is_empty() || qual.len() % 2 == 1 {
        return Err(CellFault::OddLength);
    }
    let before = dots.len();
    let Rest { len, both } = read_points(qual, value, dots)?;
    check_value(value, len, tail_byte(dots.len() - before, both))
}

/// Whether the qualifier is that of the column to which points are appended.
#[inline]
pub fn is_column(qual: &[u8]) -> bool
    ensures { IsTrue result ↔ (qual.now ≡ column_qual) }
{
    qual == [5, 0, 0].as_slice()
}

/// The data point whose item and value stand at the front, which is place `at`, and the bytes behind them.
#[inline]
pub fn next_piece(bytes: &[u8], at: usize) -> Result<(Dot, &[u8]), CellFault>
    requires some { 1 ≤ length bytes.now }
    requires fits { at + length bytes.now ≤ 9223372036854775807 }
    ensures piece { IfOk result (λ r. IsNextPiece bytes.now r.0 r.1.now) }
    ensures fault { IfErr result (IsBadPiece at bytes.now) }
{
    if bytes.len() < 2 {
        return Err(CellFault::CutItem { at });
    }
    let (item, after) = next_item(bytes, at, 0)?;
    if after.len() < usize::from(item.len) {
        let need = at + (bytes.len() - after.len()) + usize::from(item.len);
        return Err(CellFault::ValueShort { need });
    }
    let (value, behind) = next_value(after, item.len);
    Ok((Dot { item, value }, behind))
}

/// Adds the data points of the column's value, in the order in which they stand. After a fault some of them may have been added.
fn read_pieces(value: &[u8], dots: &mut Vec<Dot>) -> Result<(), CellFault>
    ensures dots { OnOk result (AddsPieces value.now dots.old.items dots.new.items) }
    ensures fault { IfErr result (λ e. (e ≡ OutOfMemory) ⊎ IsColumnFault value.now e) }
{
    if value.is_empty() {
        return Err(CellFault::CutItem { at: 0 });
    }
    let mut rest = value;
    'pieces: while !rest.is_empty() {
        let at = value.len() - rest.len();
        let (dot, behind) = next_piece(rest, at)?;
        dots.push(dot)?;
        rest = behind;
    }
    Ok(())
}

/// Adds the data points of a cell behind those of other cells: by offset, and those of the column as they stand. After a fault some of them
/// may have been added.
pub(crate) fn read_onto(qual: &[u8], value: &[u8], dots: &mut Vec<Dot>) -> Result<(), CellFault>
    ensures dots { OnOk result (AddsDots qual.now value.now dots.old.items dots.new.items) }
    ensures fault { IfErr result (λ e. (e ≡ OutOfMemory) ⊎ IsFirstFault qual.now value.now e) }
{
    if is_column(qual) {
        return read_pieces(value, dots);
    }
    read_items(qual, value, dots)
}

/// For how many data points there is to be room, so that those of a cell that reads fit.
#[inline]
pub fn most_dots(qual: &[u8], value: &[u8]) -> usize {
    if is_column(qual) {
        value.len() / 3
    } else {
        qual.len() / 2
    }
}

/// The data points of a cell, by offset; those of the column, whose qualifier is `05 00 00`, in the order in which they stand.
///
/// Where it doesn't read, the error is the first thing that is wrong, in the order of [`CellFault`].
/// `OutOfMemory` comes only for want of memory; no memory is taken but the answer's.
pub fn read_cell(alloc: Global, qual: &[u8], value: &[u8]) -> Result<Vec<Dot>, CellFault>
    // The answer is what the cell reads as, unless memory runs out.
    ensures reads { MatchResult result
        (λ v. HoldsDots qual.now value.now v.items)
        (λ e. (e ≡ OutOfMemory) ⊎ IsFirstFault qual.now value.now e) }
    // It reads as nothing else.
    ensures alone { (answer : Result (List Dot) CellFault) → ReadsAs qual.now value.now answer
        → MatchResult result (λ v. answer ≡ Ok v.items) (λ e. (e ≡ OutOfMemory) ⊎ (answer ≡ Err e)) }
{
    let mut dots = Vec::with_capacity(alloc, most_dots(qual, value))?;
    read_onto(qual, value, &mut dots)?;
    Ok(dots)
}
