//! The store with which a case begins.

use crate::case_roles::widths_of;
use cell_model::Listing;
use row_key::Table;
use std::alloc::Global;
use test_readers::case_lines::Line;
use test_readers::text::{Bad, first_word, hex};
use test_rows::base::shared_over;
use test_rows::sharing::Shared;

/// A table by its word in a listing.
pub fn table(word: &str) -> Result<Table, Bad> {
    match word {
        "ids" => Ok(Table::Ids),
        "names" => Ok(Table::Names),
        "points" => Ok(Table::Points),
        _ => Err(Bad::Line("no table")),
    }
}

/// `base TABLE ROW QUALIFIER VALUE`, the last three in hexadecimal: a line of the listing with which the store begins.
fn add_base(alloc: Global, listing: &mut Listing, text: &str) -> Result<(), Bad> {
    let (word, text) = first_word(text);
    let (row, text) = first_word(text);
    let (qual, value) = first_word(text);
    let table = table(word)?;
    let row = hex(alloc, row)?;
    let qual = hex(alloc, qual)?;
    let value = hex(alloc, value)?;
    if listing.add(
        alloc,
        table,
        row.as_slice(),
        qual.as_slice(),
        value.as_slice(),
    )? {
        Ok(())
    } else {
        Err(Bad::Line("a line that doesn't follow"))
    }
}

/// The callers of the store with which the lines begin.
pub fn based(alloc: Global, lines: &[Line<'_>]) -> Result<Shared, Bad> {
    let mut listing = Listing::none(alloc, widths_of(lines)?);
    for line in lines {
        if line.verb == "base" {
            add_base(alloc, &mut listing, line.rest)?;
        }
    }
    match shared_over(alloc, listing)? {
        Some(shared) => Ok(shared),
        None => Err(Bad::Line("no sound base of names and ids")),
    }
}
