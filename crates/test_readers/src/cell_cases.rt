//! What the bytes of keys and cells are read as, and how they are written.

ghost use Rattle.std.specs.Prelude.{All, OnOk};
ghost use Rattle.qual_codec.specs.CellDots.{ReadsByItems};

use crate::text::{Bad, first_word, hex, widths};
use crate::told::Told;
use qual_codec::{CellFault, CellRef, Dot, MergeFault, Merged, is_column, merge_cells, read_cell};
use row_key::{KeyFault, RowKey, Widths, read_key, write_key};
use std::alloc::Global;

fn key_fault_text(fault: KeyFault) -> &'static str {
    match fault {
        KeyFault::Length => "length",
        KeyFault::NoPairs => "no pairs",
        KeyFault::ZeroId => "zero id",
        KeyFault::BaseNotHour => "base not an hour",
        KeyFault::PairsNotRising => "pairs not rising",
    }
}

fn tell_key(out: &mut Told, key: &RowKey) {
    out.number(u64::from(key.metric));
    out.add(" ");
    out.number(u64::from(key.base));
    for &(name, value) in key.pairs.as_slice() {
        out.add(" ");
        out.number(u64::from(name));
        out.add("=");
        out.number(u64::from(value));
    }
}

/// Adds how a key is written, where that isn't these bytes.
fn tell_written(out: &mut Told, written: &[u8], row: &[u8]) {
    if written != row {
        out.add(", written ");
        out.hex(written);
    }
}

/// The widths of a word with commas, or else three bytes for each kind, and the bytes in hexadecimal.
fn widths_and_row(alloc: Global, text: &str) -> Result<(Widths, Vec<u8>), Bad> {
    let (word, rest) = first_word(text);
    if word.contains(',') {
        Ok((widths(word)?, hex(alloc, rest)?))
    } else {
        Ok((Widths::three(), hex(alloc, text)?))
    }
}

/// `key [M,K,V] HEX`: metric, base and pairs, or the fault. A key that is written with other bytes is told with them.
pub fn key(alloc: Global, text: &str, out: &mut Told) -> Result<(), Bad> {
    let (widths, row) = widths_and_row(alloc, text)?;
    match read_key(row.as_slice(), widths) {
        Ok(key) => {
            tell_key(out, &key);
            tell_written(out, write_key(&key, widths).as_slice(), row.as_slice());
        }
        Err(fault) => out.add(key_fault_text(fault)),
    }
    Ok(())
}

/// Adds a data point: its value, its offset, and the bytes of its value.
fn tell_dot(out: &mut Told, dot: &Dot) {
    let offset = u64::from(dot.item.offset);
    out.signed(dot.value);
    out.add(" at ");
    out.number(if dot.item.fine { offset } else { offset / 1000 });
    out.add(if dot.item.fine { " ms in " } else { " s in " });
    out.number(u64::from(dot.item.len));
}

/// Adds a number between two texts.
fn tell_number(out: &mut Told, before: &str, number: usize, behind: &str) {
    out.add(before);
    out.number(number as u64);
    out.add(behind);
}

fn tell_bad_length(out: &mut Told, len: u8, at: usize) {
    out.add("bad length ");
    out.number(u64::from(len));
    tell_number(out, " at ", at, "");
}

fn tell_cell_fault(out: &mut Told, fault: CellFault) {
    match fault {
        CellFault::OddLength => out.add("odd length"),
        CellFault::CutItem { at } => tell_number(out, "cut item at ", at, ""),
        CellFault::OffsetTooLarge { at } => tell_number(out, "offset too large at ", at, ""),
        CellFault::FloatFlag { at } => tell_number(out, "float flag at ", at, ""),
        CellFault::ReservedBits { at } => tell_number(out, "reserved bits at ", at, ""),
        CellFault::BadLength { at, len } => tell_bad_length(out, len, at),
        CellFault::NotRising { at } => tell_number(out, "not rising at ", at, ""),
        CellFault::ValueShort { need } => tell_number(out, "value short, ", need, " needed"),
        CellFault::ValueLong { need } => tell_number(out, "value long, ", need, " needed"),
        CellFault::BadTail { found } => tell_number(out, "bad tail ", found as usize, ""),
        CellFault::OutOfMemory => out.lose(),
    }
}

/// Adds data points.
fn tell_dots_of(out: &mut Told, dots: &[Dot]) {
    for (at, dot) in dots.iter().enumerate() {
        out.add(if at > 0 { ", " } else { "" });
        tell_dot(out, dot);
    }
}

/// `cell QUALIFIER VALUE`, both in hexadecimal: the data points, or the fault.
pub fn cell(alloc: Global, text: &str, out: &mut Told) -> Result<(), Bad> {
    let (qual, value) = first_word(text);
    let qual = hex(alloc, qual)?;
    let value = hex(alloc, value)?;
    match read_cell(alloc, qual.as_slice(), value.as_slice()) {
        Ok(dots) => tell_dots_of(out, dots.as_slice()),
        Err(fault) => tell_cell_fault(out, fault),
    }
    Ok(())
}

/// Qualifier and value of each cell, with `|` between cells.
fn cell_pairs(alloc: Global, text: &str) -> Result<Vec<(Vec<u8>, Vec<u8>)>, Bad> {
    let mut pairs = Vec::new(alloc);
    for part in text.split('|') {
        let (qual, value) = first_word(part);
        pairs.push((hex(alloc, qual)?, hex(alloc, value)?))?;
    }
    Ok(pairs)
}

/// Adds a cell, where it reads by its items.
fn add_cell<'a>(
    alloc: Global,
    cells: &mut Vec<CellRef<'a>>,
    qual: &'a [u8],
    value: &'a [u8],
) -> Result<(), Bad>
    requires { All (λ c. ReadsByItems c.qual c.value) cells.old.items }
    ensures { OnOk result (All (λ c. ReadsByItems c.qual c.value) cells.new.items) }
{
    if is_column(qual) {
        return Err(Bad::Line("the column, which isn't merged"));
    }
    let Ok(_) = read_cell(alloc, qual, value) else {
        return Err(Bad::Line("a cell that doesn't read"));
    };
    cells.push(CellRef {
        qual,
        value,
        version: 0,
    })?;
    Ok(())
}

/// What cells become.
fn merged(alloc: Global, pairs: &[(Vec<u8>, Vec<u8>)]) -> Result<Result<Merged, MergeFault>, Bad> {
    let mut cells = Vec::new(alloc);
    for (qual, value) in pairs {
        add_cell(alloc, &mut cells, qual.as_slice(), value.as_slice())?;
    }
    if cells.is_empty() {
        return Err(Bad::Line("no cells"));
    }
    Ok(merge_cells(alloc, cells.as_slice()))
}

/// Adds what cells become.
fn tell_merged(out: &mut Told, merged: &Result<Merged, MergeFault>) {
    match merged {
        Ok(cell) => {
            out.hex(cell.qual.list());
            out.add(" ");
            out.hex(cell.value.list());
        }
        Err(MergeFault::Conflict { offset, a, b }) => {
            out.add("conflict at ");
            out.number(u64::from(*offset));
            out.add(": ");
            out.signed(*a);
            out.add(" and ");
            out.signed(*b);
        }
        Err(MergeFault::OutOfMemory) => out.lose(),
    }
}

/// `merge QUALIFIER VALUE | QUALIFIER VALUE ..`, all in hexadecimal: the cell that they become, or the conflict.
pub fn merge(alloc: Global, text: &str, out: &mut Told) -> Result<(), Bad> {
    let pairs = cell_pairs(alloc, text)?;
    tell_merged(out, &merged(alloc, pairs.as_slice())?);
    Ok(())
}
