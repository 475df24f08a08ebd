//! A map from rows to their cells.
ghost use Rattle.std.specs.Prelude.{◌≡◌, None, OnOk, OnErr, length};
ghost use Rattle.std.specs.Option.{option_copied, option_copied_mut};
ghost use Rattle.std.specs.Borrow.{sem};
ghost use Rattle.std.specs.FinMap.{empty, get, insert, remove, entries};
ghost use Rattle.row_pages.specs.RowMaps.{rows_below, rows_from};
ghost use Rattle.row_pages.specs.LentRows.{LendsCells};

use crate::hints::Hints;
use crate::page::Page;
use crate::page_edits::{put_row, take_out};
use crate::page_places::{found_place, place_again, place_by};
use crate::row_walk::{RowWalk, walk_below, walk_from};
use guess_table::hash_bytes;
use packed_cells::row_cells::RowCells;
use qual_codec::Bytes;
use std::alloc::{AllocError, Global};
use std::marker::Model;

/// The rows of a table with their cells, in pages of at most 64 rows.
///
/// Contracts see them as the finite map from a row's bytes to its cells.
#[derive(Drop)]
pub struct RowPages {
    pages: Vec<Page>,
    // How many rows there are.
    count: usize,
    hints: Hints,
    alloc: Global,
}

impl Model for RowPages {
    ghost use Rattle.row_pages.specs.RowMaps.{Rows, coded_rows};

    ghost Value = { Rows };

    ghost coded = { coded_rows };

    ghost use Rattle.std.specs.Prelude.{◌≡◌, length};
    ghost use Rattle.row_pages.specs.Pages.{map_of, rows_in, ArePages};

    ghost view = { λ t. map_of t.pages.items };

    ghost invariant = { λ t. ArePages t.pages.items × (t.count ≡ length (rows_in t.pages.items)) };
}

impl RowPages {
    /// No rows.
    pub fn make(alloc: Global) -> RowPages
        ensures { result ≡ empty }
    {
        RowPages {
            pages: Vec::new(alloc),
            count: 0,
            hints: Hints::make(alloc),
            alloc,
        }
    }

    /// How many rows there are.
    pub fn len(&self) -> usize
        ensures { result ≡ length (entries self.now) }
    {
        self.count
    }

    /// The cells of a row, if it is there.
    pub fn get(&self, row: &Bytes) -> Option<&RowCells>
        ensures { option_copied result ≡ get self.now row.now }
    {
        match place_by(&self.pages, self.hints.guess(hash_bytes(row.list())), row) {
            Some(place) => Some(&self.pages[place.page].rows[place.row].1),
            None => None,
        }
    }

    /// The cells of a row to be changed, if it is there. It is quickest where rows are asked for in the same order again.
    #[inline(always)]
    pub fn get_mut(&mut self, row: &Bytes) -> Option<&mut RowCells>
        ensures* writes_back { sem 𝓛 (LendsCells self.entry row.now result) }
        ensures value { option_copied_mut result ≡ get self.old row.now }
    {
        match found_place(&self.pages, &mut self.hints, row) {
            Some(place) => {
                let page = &mut self.pages[place.page];
                let found = &mut page.rows[place.row];
                Some(&mut found.1)
            }
            None => None,
        }
    }

    /// The cells of a row to be changed, if it is there. It is quickest for the row that was found last.
    #[inline(always)]
    pub fn get_mut_again(&mut self, row: &Bytes) -> Option<&mut RowCells>
        ensures* writes_back { sem 𝓛 (LendsCells self.entry row.now result) }
        ensures value { option_copied_mut result ≡ get self.old row.now }
    {
        match place_again(&self.pages, &mut self.hints, row) {
            Some(place) => {
                let page = &mut self.pages[place.page];
                let found = &mut page.rows[place.row];
                Some(&mut found.1)
            }
            None => None,
        }
    }

    /// Puts a row that isn't there.
    pub fn insert(&mut self, row: Bytes, cells: RowCells) -> Result<(), AllocError>
        requires { get self.old row ≡ None }
        ensures ok { OnOk result (self.new ≡ insert self.old row cells) }
        ensures err { OnErr result (self.new ≡ self.old) }
    {
        if self.count == usize::MAX {
            return Err(AllocError);
        }
        let hash = hash_bytes(row.list());
        let place = put_row(&mut self.pages, self.alloc, row, cells)?;
        self.count += 1;
        self.hints.grow(self.count);
        self.hints.keep(hash, place);
        self.hints.came(place);
        Ok(())
    }

    /// Takes a row out, if it is there.
    pub fn remove(&mut self, row: &Bytes)
        ensures { self.new ≡ remove self.old row.now }
    {
        if let Some(place) = place_by(&self.pages, self.hints.guess(hash_bytes(row.list())), row) {
            take_out(&mut self.pages, place);
            self.count -= 1;
        }
    }

    /// The rows from these bytes on, in order.
    pub fn walk_from(&self, from: &Bytes) -> RowWalk<'_>
        ensures { result ≡ rows_from from.now (entries self.now) }
    {
        walk_from(&self.pages, from)
    }

    /// The rows below these bytes, in order.
    pub fn walk_below(&self, to: &Bytes) -> RowWalk<'_>
        ensures { result ≡ rows_below to.now (entries self.now) }
    {
        walk_below(&self.pages, to)
    }
}
