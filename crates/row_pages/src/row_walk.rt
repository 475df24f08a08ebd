//! Rows in their order.
ghost use Rattle.std.specs.Prelude.{◌≡◌, [], ◌∷◌, ◌++◌, All, MatchOption};
ghost use Rattle.row_pages.specs.RowMaps.{rows_from, rows_below};
ghost use Rattle.row_pages.specs.Pages.{ArePages, IsPage, rows_in};

use crate::page::Page;
use crate::page_places::{page_of, start_of};
use packed_cells::row_cells::RowCells;
use qual_codec::Bytes;
use std::marker::Model;

/// Rows that are still to come, in their order.
///
/// Contracts see it as the list of them.
#[derive(Drop)]
pub struct RowWalk<'a> {
    // What is left of a page, then pages, then the beginning of a page.
    rows: &'a [(Bytes, RowCells)],
    pages: &'a [Page],
    last: &'a [(Bytes, RowCells)],
}

impl<'a> Model for RowWalk<'a> {
    ghost use Rattle.std.specs.Prelude.{◌++◌, ℕ, List, All};
    ghost use Rattle.packed_cells.specs.Keyed.{CellMap};
    ghost use Rattle.row_pages.specs.RowMaps.{coded_list_of_rows};

    ghost Value = { List (List ℕ × CellMap) };

    ghost coded = { coded_list_of_rows };

    ghost use Rattle.row_pages.specs.Pages.{rows_in, IsPage};

    ghost view = { λ w. w.rows.now ++ (rows_in w.pages.now ++ w.last.now) };

    ghost invariant = { λ w. All IsPage w.pages.now };
}

impl<'a> RowWalk<'a> {
    /// The next row with its cells.
    pub fn next(&mut self) -> Option<(&'a Bytes, &'a RowCells)>
        ensures { MatchOption result ((self.old ≡ []) × (self.new ≡ [])) (λ r. self.old ≡ (r.0.now, r.1.now) ∷ self.new) }
    {
        let (rows, pages, last) = turn(self.rows, self.pages, self.last);
        self.pages = pages;
        self.last = last;
        match rows.split_first() {
            Some((first, rest)) => {
                self.rows = rest;
                Some((&first.0, &first.1))
            }
            None => {
                self.rows = rows;
                None
            }
        }
    }
}

// Goes on to the next page where no row is left of this one.
fn turn<'a>(
    rows: &'a [(Bytes, RowCells)],
    pages: &'a [Page],
    last: &'a [(Bytes, RowCells)],
) -> (&'a [(Bytes, RowCells)], &'a [Page], &'a [(Bytes, RowCells)])
    requires { All IsPage pages.now }
    ensures same { result.0.now ++ (rows_in result.1.now ++ result.2.now) ≡ rows.now ++ (rows_in pages.now ++ last.now) }
    ensures some { result.0.now ≡ [] → rows.now ++ (rows_in pages.now ++ last.now) ≡ [] }
    ensures pages { All IsPage result.1.now }
{
    if !rows.is_empty() {
        return (rows, pages, last);
    }
    match pages.split_first() {
        Some((page, pages)) => (&page.rows, pages, last),
        None => (last, pages, rows),
    }
}

/// The rows from these bytes on.
pub fn walk_from<'a>(pages: &'a [Page], from: &Bytes) -> RowWalk<'a>
    requires { ArePages pages.now }
    ensures { result ≡ rows_from from.now (rows_in pages.now) }
{
    let page = page_of(pages, from);
    match pages.get(page) {
        Some(found) => RowWalk {
            rows: &found.rows[start_of(&found.rows, from)..],
            pages: &pages[page + 1..],
            last: &[],
        },
        None => RowWalk {
            rows: &[],
            pages: &[],
            last: &[],
        },
    }
}

/// The rows below these bytes.
pub fn walk_below<'a>(pages: &'a [Page], to: &Bytes) -> RowWalk<'a>
    requires { ArePages pages.now }
    ensures { result ≡ rows_below to.now (rows_in pages.now) }
{
    let page = page_of(pages, to);
    match pages.get(page) {
        Some(found) => RowWalk {
            rows: &[],
            pages: &pages[..page],
            last: &found.rows[..start_of(&found.rows, to)],
        },
        None => RowWalk {
            rows: &[],
            pages: &[],
            last: &[],
        },
    }
}
