//! The words of a line.
ghost use Rattle.std.specs.Prelude.{◌≡◌, ◌∷◌};
ghost use Rattle.cell_listing.specs.Cuts.{parts_by};
ghost use Rattle.cell_listing.specs.Grammar.{four_of};

use crate::cuts::cut;
use std::marker::Model;

/// The words of a line.
///
/// Contracts see it as the words' bytes.
#[derive(Drop)]
pub struct Words<'a> {
    pub table: &'a [u8],
    pub row: &'a [u8],
    pub qual: &'a [u8],
    pub value: &'a [u8],
}

impl<'a> Model for Words<'a> {
    ghost use Rattle.cell_listing.specs.Grammar.{LineWords};

    ghost Value = { LineWords };

    ghost view = { λ w. record { table = w.table.now; row = w.row.now; qual = w.qual.now; value = w.value.now } };
}

/// The words of a line of which this is the last one, if nothing stands behind it.
fn words_to<'a>(table: &'a [u8], row: &'a [u8], qual: &'a [u8], text: &'a [u8]) -> Option<Words<'a>>
    ensures { result ≡ four_of (table.now ∷ row.now ∷ qual.now ∷ parts_by 32 text.now) }
{
    let (value, rest) = cut(text, b' ');
    match rest {
        Some(_) => None,
        None => Some(Words {
            table,
            row,
            qual,
            value,
        }),
    }
}

/// The words of a line behind its first two.
fn words_behind<'a>(table: &'a [u8], row: &'a [u8], text: &'a [u8]) -> Option<Words<'a>>
    ensures { result ≡ four_of (table.now ∷ row.now ∷ parts_by 32 text.now) }
{
    let (qual, rest) = cut(text, b' ');
    match rest {
        Some(rest) => words_to(table, row, qual, rest),
        None => None,
    }
}

/// The words of a line behind its first one.
fn words_from<'a>(table: &'a [u8], text: &'a [u8]) -> Option<Words<'a>>
    ensures { result ≡ four_of (table.now ∷ parts_by 32 text.now) }
{
    let (row, rest) = cut(text, b' ');
    match rest {
        Some(rest) => words_behind(table, row, rest),
        None => None,
    }
}

/// The four words of a line, if it has so many, with one space between.
pub fn words_of(line: &[u8]) -> Option<Words<'_>>
    ensures { result ≡ four_of (parts_by 32 line.now) }
{
    let (table, rest) = cut(line, b' ');
    match rest {
        Some(rest) => words_from(table, rest),
        None => None,
    }
}
