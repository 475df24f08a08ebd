//! Cells as lines of text.
ghost use Rattle.std.specs.Prelude.{◌≡◌, ◌∷◌, [], ◌++◌, ◌/◌, ◌%◌, ◌<◌, IfOk, OnOk};
ghost use Rattle.hex.specs.Hex.{encode_lower};
ghost use Rattle.cell_listing.specs.Grammar.{cells_text, digit_of, line_text, table_word};

use cell_model::ListLine;
use row_key::Table;
use std::alloc::{AllocError, Global};

/// The name of a table.
fn table_word(table: Table) -> &'static [u8]
    ensures { result.now ≡ table_word table }
{
    match table {
        Table::Ids => b"ids",
        Table::Names => b"names",
        Table::Points => b"points",
    }
}

/// The digit of a number below 16.
fn digit_of(number: u8) -> u8
    requires { number < 16 }
    ensures { result ≡ digit_of number }
{
    if number < 10 {
        b'0' + number
    } else {
        b'a' + (number - 10)
    }
}

/// Adds the two digits of a byte.
fn push_byte(text: &mut Vec<u8>, byte: u8) -> Result<(), AllocError>
    ensures { OnOk result (text.new.items ≡ text.old.items ++ digit_of (byte / 16) ∷ digit_of (byte % 16) ∷ []) }
{
    text.push(digit_of(byte / 16))?;
    text.push(digit_of(byte % 16))?;
    Ok(())
}

/// Adds bytes in lower-case hexadecimal behind a space.
fn push_word(text: &mut Vec<u8>, bytes: &[u8]) -> Result<(), AllocError>
    ensures { OnOk result (text.new.items ≡ text.old.items ++ 32 ∷ encode_lower bytes.now) }
{
    text.push(b' ')?;
    for b in bytes {
        push_byte(text, *b)?;
    }
    Ok(())
}

/// Adds the line of a cell, with its LF. It fails only for want of memory.
pub fn push_line(text: &mut Vec<u8>, cell: &ListLine) -> Result<(), AllocError>
    ensures { OnOk result (text.new.items ≡ text.old.items ++ (line_text cell.now ++ 10 ∷ [])) }
{
    text.extend_from_slice(table_word(cell.table))?;
    push_word(text, cell.row.list())?;
    push_word(text, cell.qual.list())?;
    push_word(text, cell.value.list())?;
    text.push(b'\n')?;
    Ok(())
}

/// The lines of cells as one text. It fails only for want of memory.
pub fn cells_text(alloc: Global, cells: &[ListLine]) -> Result<Vec<u8>, AllocError>
    ensures { IfOk result (λ text. text.items ≡ cells_text cells.now) }
{
    let mut text = Vec::new(alloc);
    for at in 0..cells.len() {
        push_line(&mut text, &cells[at])?;
    }
    Ok(text)
}
