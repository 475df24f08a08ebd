//! What other callers do, in words.

use cell_model::{Bumped, Cells, Claimed, Found, Row};
use qual_codec::Bytes;
use row_key::{Table, Widths};
use std::alloc::Global;
use test_readers::text::{Bad, bytes, first_word, hex, kind, small};
use test_readers::told::Told;
use test_rows::act::{Act, Acted};
use test_rows::claim::{bytes_of_id, qualifier};
use tsd_base::point_text::read_point;
use tsd_base::points::Point;

/// Bytes of hexadecimal digits.
fn hex_bytes(alloc: Global, word: &str) -> Result<Bytes, Bad> {
    Ok(Bytes::of(alloc, hex(alloc, word)?.as_slice())?)
}

/// The row of words: `ids NAME`, or `names HEX` or `points HEX`.
fn row(alloc: Global, table: &str, word: &str) -> Result<Row, Bad> {
    match table {
        "ids" => Ok(Row {
            table: Table::Ids,
            bytes: Bytes::of(alloc, word.as_bytes())?,
        }),
        "names" => Ok(Row {
            table: Table::Names,
            bytes: hex_bytes(alloc, word)?,
        }),
        "points" => Ok(Row {
            table: Table::Points,
            bytes: hex_bytes(alloc, word)?,
        }),
        _ => Err(Bad::Line("no table")),
    }
}

/// `claims names ID KIND NAME`, `claims ids NAME KIND ID`.
fn claim(alloc: Global, text: &str, widths: Widths) -> Result<Act, Bad> {
    let (table, text) = first_word(text);
    let (word, text) = first_word(text);
    let (kind_word, value) = first_word(text);
    let kind = kind(kind_word)?;
    let (table, row, value) = match table {
        "names" => (
            Table::Names,
            bytes_of_id(kind, small(word)?, widths),
            Bytes::of(alloc, value.as_bytes())?,
        ),
        "ids" => (
            Table::Ids,
            Bytes::of(alloc, word.as_bytes())?,
            bytes_of_id(kind, small(value)?, widths),
        ),
        _ => return Err(Bad::Line("no table of names and ids")),
    };
    Ok(Act::Claim {
        row: Row { table, bytes: row },
        qual: qualifier(kind),
        value,
    })
}

/// The point of a line.
pub fn point(alloc: Global, text: &str) -> Result<Point, Bad> {
    let line = bytes(alloc, text)?;
    match read_point(alloc, line.as_slice()) {
        Ok(point) => Ok(point),
        Err(_) => Err(Bad::Line("no point")),
    }
}

/// `merges ROW QUALIFIER VALUE`.
fn merge(alloc: Global, text: &str) -> Result<Act, Bad> {
    let (word, text) = first_word(text);
    let (qual, value) = first_word(text);
    Ok(Act::Merge {
        row: row(alloc, "points", word)?,
        qual: hex_bytes(alloc, qual)?,
        value: hex_bytes(alloc, value)?,
    })
}

/// `drops ROW QUALIFIER ..`.
fn drops(alloc: Global, text: &str) -> Result<Act, Bad> {
    let (word, text) = first_word(text);
    let mut quals = Vec::new(alloc);
    for qual in text.split_ascii_whitespace() {
        quals.push(hex_bytes(alloc, qual)?)?;
    }
    Ok(Act::Drop {
        row: row(alloc, "points", word)?,
        quals,
    })
}

/// What another caller does, by these words, where ids have these widths.
pub fn act(alloc: Global, text: &str, widths: Widths) -> Result<Act, Bad> {
    let (verb, text) = first_word(text);
    let (word, rest) = first_word(text);
    Ok(match verb {
        "reads" => Act::Read {
            row: row(alloc, word, rest)?,
        },
        "finds" => Act::Find {
            from: hex_bytes(alloc, word)?,
            to: hex_bytes(alloc, rest)?,
        },
        "bumps" => Act::Bump { kind: kind(word)? },
        "claims" => claim(alloc, text, widths)?,
        "puts" => Act::Put {
            point: point(alloc, text)?,
        },
        "appends" => Act::Append {
            point: point(alloc, text)?,
        },
        "merges" => merge(alloc, text)?,
        "drops" => drops(alloc, text)?,
        _ => return Err(Bad::Line("no verb of another caller")),
    })
}

/// Adds cells, each as `QUALIFIER=VALUE`.
pub fn tell_cells(out: &mut Told, cells: &Cells) {
    for at in 0..cells.len() {
        let cell = cells.cell(at);
        out.add(if at > 0 { " " } else { "" });
        out.hex(cell.qual);
        out.add("=");
        out.hex(cell.value);
    }
}

/// Adds a line with a row of points and its cells.
pub fn tell_found(out: &mut Told, found: &Found) {
    out.hex(found.row.bytes.list());
    out.add(" ");
    tell_cells(out, &found.cells);
    out.add("\n");
}

fn tell_bumped(out: &mut Told, bumped: &Bumped) {
    match bumped {
        Bumped::Given { id } => out.number(u64::from(*id)),
        Bumped::Full => out.add("full"),
    }
}

fn tell_claimed(out: &mut Told, claimed: &Claimed) {
    match claimed {
        Claimed::Done => out.add("done"),
        Claimed::Held { value } => {
            out.add("held ");
            out.hex(value.list());
        }
    }
}

/// Adds what an act was answered.
pub fn tell_acted(out: &mut Told, acted: &Acted) {
    match acted {
        Acted::Cells { cells } if cells.len() == 0 => out.add("(none)"),
        Acted::Cells { cells } => tell_cells(out, cells),
        Acted::Found { found: None } => out.add("(none)"),
        Acted::Found { found: Some(found) } => tell_found(out, found),
        Acted::Bumped { bumped } => tell_bumped(out, bumped),
        Acted::Claimed { claimed } => tell_claimed(out, claimed),
        Acted::Written => out.add("written"),
        Acted::Dropped { count } => out.number(*count),
        Acted::NotAllowed => out.add("not allowed"),
        Acted::NoRoom => out.add("no room"),
    }
}
