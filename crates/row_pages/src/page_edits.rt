//! Rows that are put into pages, and taken out.
ghost use Rattle.std.specs.Prelude.{◌≡◌, ◌<◌, ◌+◌, ◌++◌, ℕ, suc, List, None, IfOk, OnOk, OnErr, length, slice_index_or, take, drop, insert, is_ok, vec_len, if◌then◌else◌, ◌≤◌};
ghost use Rattle.std.specs.FinMap.{find, put};
ghost use Rattle.list_lemmas.specs.BytesOrder.{bytes_cmp};
ghost use Rattle.row_pages.specs.Pages.{rows_in, ArePages};
ghost use Rattle.row_pages.specs.PagePlaces.{IsAt, IsGap, IsLeastBehind, AllBelow, without};
ghost use Rattle.row_pages.specs.declared.page.Page.{Page};

use crate::page::{MOST_ROWS, Page, Place};
use crate::page_places::{page_of, start_of};
use packed_cells::row_cells::RowCells;
use qual_codec::Bytes;
use std::alloc::{AllocError, Global};

// How many rows stay in a page that is split.
const HALF: usize = 32;

// For how many rows memory is taken at a time. A page that is full has no room to spare.
const MORE: usize = 8;

/// Puts a row that isn't there, and answers where it is now. Where its page is full, that is split; but where the row is
/// behind all others, a new page begins.
pub fn put_row(
    pages: &mut Vec<Page>,
    alloc: Global,
    row: Bytes,
    cells: RowCells,
) -> Result<Place, AllocError>
    requires pages { ArePages pages.old.items }
    requires absent { find bytes_cmp row (rows_in pages.old.items) ≡ None }
    ensures pages { ArePages pages.new.items }
    ensures ok { OnOk result (rows_in pages.new.items ≡ put bytes_cmp row cells (rows_in pages.old.items)) }
    ensures err { OnErr result (rows_in pages.new.items ≡ rows_in pages.old.items) }
{
    let page = page_of(pages, &row);
    if page >= pages.len() {
        return begin(pages, alloc, Bytes::none(), row, cells);
    }
    let gap = Place {
        page,
        row: start_of(&pages[page].rows, &row),
    };
    if gap.row == MOST_ROWS && page + 1 == pages.len() {
        let least = row.again(alloc)?;
        return begin(pages, alloc, least, row, cells);
    }
    put_between(pages, alloc, gap, row, cells)
}

// Puts a row behind all others, into a page of its own.
fn begin(
    pages: &mut Vec<Page>,
    alloc: Global,
    least: Bytes,
    row: Bytes,
    cells: RowCells,
) -> Result<Place, AllocError>
    requires pages { ArePages pages.old.items }
    requires behind { AllBelow row (rows_in pages.old.items) }
    requires least { IsLeastBehind least row pages.old.items }
    ensures pages { ArePages pages.new.items }
    ensures ok { OnOk result (rows_in pages.new.items ≡ put bytes_cmp row cells (rows_in pages.old.items)) }
    ensures err { OnErr result (pages.new.items ≡ pages.old.items) }
{
    let mut rows = Vec::with_capacity(alloc, MORE)?;
    rows.push((row, cells))?;
    let place = Place {
        page: pages.len(),
        row: 0,
    };
    pages.push(Page { least, rows })?;
    Ok(place)
}

// Puts a row into the page that it belongs to, which is split where it is full.
fn put_between(
    pages: &mut Vec<Page>,
    alloc: Global,
    gap: Place,
    row: Bytes,
    cells: RowCells,
) -> Result<Place, AllocError>
    requires pages { ArePages pages.old.items }
    requires gap { IsGap row pages.old.items gap.page gap.row }
    ensures pages { ArePages pages.new.items }
    ensures ok { OnOk result (rows_in pages.new.items ≡ put bytes_cmp row cells (rows_in pages.old.items)) }
    ensures err { OnErr result (rows_in pages.new.items ≡ rows_in pages.old.items) }
{
    if pages[gap.page].rows.len() < MOST_ROWS {
        return put_at(pages, gap, row, cells);
    }
    let gap = split(pages, alloc, gap)?;
    put_at(pages, gap, row, cells)
}

// Puts a row into a page that isn't full.
fn put_at(
    pages: &mut Vec<Page>,
    gap: Place,
    row: Bytes,
    cells: RowCells,
) -> Result<Place, AllocError>
    requires pages { ArePages pages.old.items }
    requires gap { IsGap row pages.old.items gap.page gap.row }
    requires room { (d : Page) → length (slice_index_or pages.old.items gap.page d).rows.items < 64 }
    ensures pages { ArePages pages.new.items }
    ensures ok { OnOk result (rows_in pages.new.items ≡ put bytes_cmp row cells (rows_in pages.old.items)) }
    ensures err { OnErr result (rows_in pages.new.items ≡ rows_in pages.old.items) }
{
    let page = &mut pages[gap.page];
    place_row(&mut page.rows, gap.row, row, cells)?;
    Ok(gap)
}

// Puts a row among those of a page. Memory is taken for a few rows at a time, since most pages stay as they are.
fn place_row(
    rows: &mut Vec<(Bytes, RowCells)>,
    at: usize,
    row: Bytes,
    cells: RowCells,
) -> Result<(), AllocError>
    requires { at ≤ length rows.old.items }
    ensures items { rows.new.items ≡ (if is_ok result then insert rows.old.items at (row, cells) else rows.old.items) }
{
    if rows.len() == rows.capacity() {
        rows.reserve_exact(MORE)?;
    }
    rows.insert(at, (row, cells))?;
    Ok(())
}

// Puts the second half of a full page into a page of its own, and answers where the gap is now.
fn split(pages: &mut Vec<Page>, alloc: Global, gap: Place) -> Result<Place, AllocError>
    requires pages { ArePages pages.old.items }
    requires page { gap.page < length pages.old.items }
    requires full { (d : Page) → length (slice_index_or pages.old.items gap.page d).rows.items ≡ 64 }
    ensures pages { ArePages pages.new.items }
    ensures rows { rows_in pages.new.items ≡ rows_in pages.old.items }
    ensures gap { IfOk result (λ place. (row : List ℕ) → IsGap row pages.old.items gap.page gap.row → IsGap row pages.new.items place.page place.row) }
    ensures room { IfOk result (λ place. (d : Page) → length (slice_index_or pages.new.items place.page d).rows.items < 64) }
{
    pages.reserve(1)?;
    let page = &mut pages[gap.page];
    let least = page.rows[HALF].0.again(alloc)?;
    let rows = cut(&mut page.rows)?;
    pages.insert(gap.page + 1, Page { least, rows })?;
    if gap.row <= HALF {
        return Ok(gap);
    }
    Ok(Place {
        page: gap.page + 1,
        row: gap.row - HALF,
    })
}

// Takes the second half of rows out. The first gives back the memory that it no longer needs.
fn cut(rows: &mut Vec<(Bytes, RowCells)>) -> Result<Vec<(Bytes, RowCells)>, AllocError>
    requires { 32 ≤ length rows.old.items }
    ensures items { OnOk result (rows.new.items ≡ take 32 rows.old.items) }
    ensures len { OnOk result (vec_len rows.new ≡ 32) }
    ensures tail { IfOk result (λ w. w.items ≡ drop 32 rows.old.items) }
    ensures tail_len { IfOk result (λ w. vec_len w + 32 ≡ vec_len rows.old) }
    ensures err { OnErr result (rows.new ≡ rows.old) }
{
    let half = rows.split_off(HALF)?;
    rows.shrink_to_fit();
    Ok(half)
}

/// Takes a row out, and its page where no other is left.
pub fn take_out(pages: &mut Vec<Page>, place: Place)
    requires pages { ArePages pages.old.items }
    requires row { (row : List ℕ) × IsAt row pages.old.items place.page place.row }
    ensures pages { ArePages pages.new.items }
    ensures rows { (row : List ℕ) → IsAt row pages.old.items place.page place.row → rows_in pages.new.items ≡ without row (rows_in pages.old.items) }
    ensures count { length (rows_in pages.new.items) + 1 ≡ length (rows_in pages.old.items) }
{
    if pages[place.page].rows.len() == 1 {
        drop_page(pages, place.page);
        return;
    }
    let page = &mut pages[place.page];
    let _ = page.rows.remove(place.row);
}

// Takes out a page.
fn drop_page(pages: &mut Vec<Page>, page: usize)
    requires pages { ArePages pages.old.items }
    requires page { page < length pages.old.items }
    ensures pages { ArePages pages.new.items }
    ensures rows { rows_in pages.new.items ≡ rows_in (take page pages.old.items) ++ rows_in (drop (suc page) pages.old.items) }
{
    let _ = pages.remove(page);
    if let Some(first) = pages.first_mut() {
        first.least = Bytes::none();
    }
}
