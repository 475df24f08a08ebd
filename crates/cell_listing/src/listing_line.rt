//! One line of a listing.
ghost use Rattle.std.specs.Prelude.{◌≡◌, ◌≤◌, ◌/◌, length, IfOk, Some};
ghost use Rattle.std.specs.List.{list_all};
ghost use Rattle.hex.specs.Hex.{decode_of};
ghost use Rattle.cell_listing.specs.Grammar.{bytes_in, cell_by, cell_in, if_read, is_lower_digit, kept_bytes, line_read, table_named};

use crate::line_words::{Words, words_of};
use cell_model::ListLine;
use hex::FromHexError;
use qual_codec::Bytes;
use row_key::Table;
use std::alloc::{AllocError, Global};

/// The most bytes of a line that tells a cell, without its LF.
pub const LONGEST_LISTED: usize = 2_097_152;

/// A line of a listing.
#[derive(Drop)]
pub enum LineRead {
    /// The cell that it tells.
    Cell { cell: ListLine },
    /// Its bytes, where it tells none. Those of a line that is too long aren't kept.
    Other { bytes: Option<Bytes> },
}

/// The table with this name.
fn table_named(word: &[u8]) -> Option<Table>
    ensures { result ≡ table_named word.now }
{
    if word == b"ids".as_slice() {
        Some(Table::Ids)
    } else if word == b"names".as_slice() {
        Some(Table::Names)
    } else if word == b"points".as_slice() {
        Some(Table::Points)
    } else {
        None
    }
}

/// Whether all bytes are 0 to 9 or a to f.
fn are_lower_digits(text: &[u8]) -> bool
    ensures { result ≡ list_all is_lower_digit text.now }
{
    text.iter().all(|c| matches!(c, b'0'..=b'9' | b'a'..=b'f'))
}

/// The bytes that digits tell, which fit these bytes.
fn decoded_into(text: &[u8], bytes: &mut [u8]) -> Option<Bytes>
    requires size { length bytes.old ≡ length text.now / 2 }
    requires short { length bytes.old ≤ 30 }
    ensures { result ≡ if_read (decode_of text.now) }
{
    match hex::decode_to_slice(text, bytes) {
        Ok(()) => Some(Bytes::short(bytes)),
        Err(_) => None,
    }
}

/// The bytes that at most 60 digits tell. No memory is taken.
fn short_decoded(text: &[u8]) -> Option<Bytes>
    requires { length text.now ≤ 60 }
    ensures { result ≡ if_read (decode_of text.now) }
{
    let mut block = [0u8; 30];
    let count = text.len() / 2;
    decoded_into(text, &mut block[..count])
}

/// The bytes that digits tell.
fn decoded(alloc: Global, text: &[u8]) -> Result<Option<Bytes>, AllocError>
    ensures { IfOk result (λ bytes. bytes ≡ if_read (decode_of text.now)) }
{
    if text.len() <= 60 {
        return Ok(short_decoded(text));
    }
    long_decoded(alloc, text)
}

/// The bytes that digits of any number tell.
fn long_decoded(alloc: Global, text: &[u8]) -> Result<Option<Bytes>, AllocError>
    ensures { IfOk result (λ bytes. bytes ≡ if_read (decode_of text.now)) }
{
    match hex::decode(alloc, text) {
        Ok(bytes) => Ok(Some(Bytes::of(alloc, &bytes)?)),
        Err(fault) => match fault {
            FromHexError::OutOfMemory => Err(AllocError),
            _ => Ok(None),
        },
    }
}

/// The bytes that a text tells, two digits each, at least one byte. It fails only for want of memory.
fn bytes_in(alloc: Global, text: &[u8]) -> Result<Option<Bytes>, AllocError>
    ensures { IfOk result (λ bytes. bytes ≡ bytes_in text.now) }
{
    if text.is_empty() || !are_lower_digits(text) {
        return Ok(None);
    }
    decoded(alloc, text)
}

/// The cell that words tell. It fails only for want of memory.
fn cell_by(alloc: Global, words: Words<'_>) -> Result<Option<ListLine>, AllocError>
    ensures { IfOk result (λ cell. cell ≡ cell_by (Some words.entry)) }
{
    let Some(table) = table_named(words.table) else {
        return Ok(None);
    };
    let Some(row) = bytes_in(alloc, words.row)? else {
        return Ok(None);
    };
    let Some(qual) = bytes_in(alloc, words.qual)? else {
        return Ok(None);
    };
    let Some(value) = bytes_in(alloc, words.value)? else {
        return Ok(None);
    };
    Ok(Some(ListLine {
        table,
        row,
        qual,
        value,
    }))
}

/// The cell that a line tells, if it tells one. It fails only for want of memory.
pub fn cell_in(alloc: Global, line: &[u8]) -> Result<Option<ListLine>, AllocError>
    ensures { IfOk result (λ cell. cell ≡ cell_in line.now) }
{
    if line.len() > LONGEST_LISTED {
        return Ok(None);
    }
    match words_of(line) {
        Some(words) => cell_by(alloc, words),
        None => Ok(None),
    }
}

/// What is kept of a line that tells no cell.
fn kept_bytes(alloc: Global, line: &[u8]) -> Result<Option<Bytes>, AllocError>
    ensures { IfOk result (λ bytes. bytes ≡ kept_bytes line.now) }
{
    if line.len() > LONGEST_LISTED {
        Ok(None)
    } else {
        Ok(Some(Bytes::of(alloc, line)?))
    }
}

/// Reads a line. It fails only for want of memory.
pub fn read_line(alloc: Global, line: &[u8]) -> Result<LineRead, AllocError>
    ensures { IfOk result (λ read. read ≡ line_read line.now) }
{
    match cell_in(alloc, line)? {
        Some(cell) => Ok(LineRead::Cell { cell }),
        None => Ok(LineRead::Other {
            bytes: kept_bytes(alloc, line)?,
        }),
    }
}
