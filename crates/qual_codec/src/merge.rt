//! Merging the cells of a row.
ghost use Rattle.std.specs.Prelude.{◌≡◌, ◌++◌, ◌<◌, ◌≤◌, true, List, length, take, IfOk, OnOk, IfErr, All, AllPairs, MatchOption, FitsSigned, filter};
ghost use Rattle.std.specs.List.Sorted.{IsNonDecreasingBy};
ghost use Rattle.qual_codec.specs.declared.cells.Dot.{Dot};
ghost use Rattle.qual_codec.specs.Items.{IsItem, IsLength, item_bytes};
ghost use Rattle.qual_codec.specs.CellDots.{IsDots, Reads, ReadsByItems, number_bytes, value_bytes, width_of};
ghost use Rattle.qual_codec.specs.Order.{IsAtMost};
ghost use Rattle.qual_codec.specs.CellSteps.{bytes_in};
ghost use Rattle.qual_codec.specs.Merge.{AreDots, ConflictsAt, IsMerged, TellsConflict, Keeps, is_within as tests_within, offset_of};
ghost use Rattle.qual_codec.specs.MergeSteps.{AddsDots, AddsWithin, AreOfCell, AreSorted, CannotAdd, ConflictsIn, EndsAt, EndsElsewhere, KeepsAll, is_as_good as tests_good};

use crate::cell_reader::{most_dots, read_onto, short_dot, tail_byte};
use crate::cells::{CellFault, CellRef, Dot, Item, MergeFault, Merged};
use crate::pack::pack_item;
use row_hours::LAST_OFFSET;
use short_bytes::short::Bytes;
use std::alloc::{AllocError, Global};

/// Adds the data points of a cell that reads behind those of other cells. It fails only for want of memory, and then some of them
/// may have been added.
pub fn add_dots(qual: &[u8], value: &[u8], dots: &mut Vec<Dot>) -> Result<(), AllocError>
    requires { Reads qual.now value.now }
    ensures { OnOk result (AddsDots qual.now value.now dots.old.items dots.new.items) }
{
    if let Some(dot) = short_dot(qual, value) {
        dots.push(dot)?;
        return Ok(());
    }
    match read_onto(qual, value, dots) {
        Ok(()) => Ok(()),
        Err(fault) => match fault {
            CellFault::OutOfMemory => Err(AllocError),
            _ => unreachable!(),
        },
    }
}

/// Whether the data point's offset is from `first` to `last`, both included.
#[inline]
pub fn is_within(dot: &Dot, first: u32, last: u32) -> bool
    ensures { result ≡ tests_within first last dot.now }
{
    first <= dot.item.offset && dot.item.offset <= last
}

/// Takes away the data points whose offset isn't in the range.
fn cut(dots: &mut Vec<Dot>, first: u32, last: u32)
    ensures { dots.new.items ≡ filter (tests_within first last) dots.old.items }
{
    dots.retain(|dot| is_within(dot, first, last));
}

/// Whether the offsets rise.
fn are_rising(dots: &[Dot]) -> bool
    ensures { result ≡ true → AllPairs (λ d e. d.item.offset < e.item.offset) dots.now }
{
    let mut least = 0;
    for dot in dots {
        let offset = dot.item.offset as u64;
        if offset < least {
            return false;
        }
        least = offset + 1;
    }
    true
}

/// Puts data points in order of offset; those of one offset stay in the order that they have.
fn sort(dots: &mut Vec<Dot>) -> Result<(), AllocError>
    ensures rising { OnOk result (IsNonDecreasingBy offset_of dots.new.items) }
    ensures dots { OnOk result (AreSorted dots.old.items dots.new.items) }
{
    dots.sort_by_key(|dot| dot.item.offset)?;
    Ok(())
}

/// Whether an item is as good as another at its offset, or better.
#[inline]
fn is_as_good(old: Item, new: Item) -> bool
    ensures { result ≡ tests_good old new }
{
    if old.fine == new.fine {
        old.len <= new.len
    } else {
        old.fine
    }
}

/// The last of the data points, where it has this offset.
#[inline]
fn last_at(dots: &[Dot], offset: u32) -> Option<Dot>
    ensures { MatchOption result (EndsElsewhere dots.now offset) (λ last. (front : List Dot) × EndsAt dots.now offset front last) }
{
    let last = dots.last()?;
    if last.item.offset == offset {
        Some(*last)
    } else {
        None
    }
}

/// Adds a data point to the first `end` ones, whose offsets are not above its own, and answers how many these are then. At one
/// offset the better one stays.
#[inline]
fn keep(dots: &mut Vec<Dot>, end: usize, dot: Dot) -> Result<usize, MergeFault>
    requires { end < length dots.old.items }
    ensures ok { IfOk result (λ count. AddsWithin dots.old.items end dot count dots.new.items) }
    ensures err { IfErr result (CannotAdd (take end dots.old.items) dot) }
{
    let Some(last) = last_at(&dots[..end], dot.item.offset) else {
        dots[end] = dot;
        return Ok(end + 1);
    };
    if last.value != dot.value {
        return Err(MergeFault::Conflict {
            offset: dot.item.offset,
            a: last.value,
            b: dot.value,
        });
    }
    if is_as_good(last.item, dot.item) {
        dots[end - 1] = dot;
    }
    Ok(end)
}

/// Of data points that rise by offset keeps the best of each offset.
fn keep_best(dots: &mut Vec<Dot>) -> Result<(), MergeFault>
    requires { IsNonDecreasingBy offset_of dots.old.items }
    ensures kept { OnOk result (KeepsAll dots.old.items dots.new.items) }
    ensures conflict { IfErr result (ConflictsIn dots.old.items) }
{
    let mut end = 0;
    for i in 0..dots.len() {
        let dot = dots[i];
        end = keep(dots, end, dot)?;
    }
    dots.truncate(end);
    Ok(())
}

/// Of data points whose offset is from `first` to `last`, both included, the best of each offset, rising by offset. One of two bytes
/// is better than one of four, and of one form one with a longer value.
///
/// Where the offsets rise nothing is sorted.
///
/// `Conflict` comes exactly where two have different values at an offset of the range. It names the least such offset, the first
/// value there, and the first that differs.
pub fn merge_dots(mut dots: Vec<Dot>, first: u32, last: u32) -> Result<Vec<Dot>, MergeFault>
    ensures kept { IfOk result (λ kept. Keeps dots.items first last kept.items) }
    ensures conflict { IfErr result (ConflictsAt dots.items first last) }
{
    cut(&mut dots, first, last);
    if are_rising(dots.as_slice()) {
        return Ok(dots);
    }
    sort(&mut dots)?;
    keep_best(&mut dots)?;
    Ok(dots)
}

/// For how many data points there is to be room, so that those of the cells fit.
fn room_for(cells: &[CellRef]) -> usize {
    let mut most = 0usize;
    for cell in cells {
        most = most.saturating_add(most_dots(cell.qual, cell.value));
    }
    most
}

/// The data points of cells that read, one cell after the other.
fn gather(alloc: Global, cells: &[CellRef]) -> Result<Vec<Dot>, AllocError>
    requires { All (λ c. Reads c.qual c.value) cells.now }
    ensures { IfOk result (λ dots. AreDots cells.now dots.items) }
{
    let mut dots = Vec::with_capacity(alloc, room_for(cells))?;
    for cell in cells {
        add_dots(cell.qual, cell.value, &mut dots)?;
    }
    Ok(dots)
}

/// How many bytes the values of data points have, with one behind them.
fn value_room(dots: &[Dot]) -> usize {
    let mut room = 1usize;
    for dot in dots {
        room = room.saturating_add(usize::from(dot.item.len));
    }
    room
}

/// Adds the bytes of a value, which fits in so many.
#[inline]
fn push_value(bytes: &mut Vec<u8>, value: i64, len: u8) -> Result<(), AllocError>
    requires len { IsLength len }
    requires fits { FitsSigned (width_of len) value }
    ensures { OnOk result (bytes.new.items ≡ bytes.old.items ++ number_bytes len value) }
{
    match len {
        1 => bytes.extend_from_slice(&(value as i8).to_be_bytes()),
        2 => bytes.extend_from_slice(&(value as i16).to_be_bytes()),
        4 => bytes.extend_from_slice(&(value as i32).to_be_bytes()),
        _ => bytes.extend_from_slice(&value.to_be_bytes()),
    }
}

/// Adds a data point to the bytes of a qualifier and of a value.
#[inline]
fn push_dot(qual: &mut Vec<u8>, value: &mut Vec<u8>, dot: &Dot) -> Result<(), AllocError>
    requires item { IsItem dot.now.item }
    requires fits { FitsSigned (width_of dot.now.item.len) dot.now.value }
    ensures qual { OnOk result (qual.new.items ≡ qual.old.items ++ item_bytes dot.now.item) }
    ensures value { OnOk result (value.new.items ≡ value.old.items ++ value_bytes dot.now) }
{
    qual.extend_from_slice(pack_item(dot.item).as_slice())?;
    push_value(value, dot.value, dot.item.len)
}

/// Adds the byte behind the values, if there is one.
fn push_tail(value: &mut Vec<u8>, tail: Option<u8>) -> Result<(), AllocError>
    ensures { OnOk result (value.new.items ≡ value.old.items ++ bytes_in tail) }
{
    if let Some(tail) = tail {
        value.push(tail)?;
    }
    Ok(())
}

/// The cell of data points.
fn write_cell(alloc: Global, dots: &[Dot]) -> Result<Merged, AllocError>
    requires { AreOfCell dots.now }
    ensures { IfOk result (λ m. IsDots m.qual m.value dots.now) }
{
    let mut qual = Vec::with_capacity(alloc, dots.len() * 4)?;
    let mut value = Vec::with_capacity(alloc, value_room(dots))?;
    let mut fine = false;
    let mut coarse = false;
    for dot in dots {
        push_dot(&mut qual, &mut value, dot)?;
        fine |= dot.item.fine;
        coarse |= !dot.item.fine;
    }
    push_tail(&mut value, tail_byte(dots.len(), fine && coarse))?;
    Ok(Merged {
        qual: Bytes::of(alloc, qual.as_slice())?,
        value: Bytes::of(alloc, value.as_slice())?,
    })
}

/// The one cell that several cells of a row become: of each offset that they have it keeps the best item, with its value. One of two
/// bytes is better than one of four, and of one form one with a longer value. Its qualifier is at least that of each cell. None of the cells is the
/// column.
///
/// `Conflict` comes exactly where two cells have different values at one offset. It names the least such offset, the value of the
/// first cell that has it, and that of the first later cell that differs.
pub fn merge_cells(alloc: Global, cells: &[CellRef]) -> Result<Merged, MergeFault>
    requires some { 1 ≤ length cells.now }
    requires read { All (λ c. ReadsByItems c.qual c.value) cells.now }
    ensures merged { IfOk result (λ m. IsMerged cells.now m.qual m.value) }
    ensures at_least { IfOk result (λ m. All (λ c. IsAtMost c.qual m.qual) cells.now) }
    ensures conflict { IfErr result (TellsConflict cells.now 0 LAST_OFFSET) }
{
    let dots = gather(alloc, cells)?;
    let kept = merge_dots(dots, 0, LAST_OFFSET)?;
    Ok(write_cell(alloc, kept.as_slice())?)
}
