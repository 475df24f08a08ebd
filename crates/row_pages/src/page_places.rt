//! Searches among pages.
ghost use Rattle.std.specs.Prelude.{◌≡◌, IfSome, IfNone, IfOk, IfErr, IsTrue, None, T};
ghost use Rattle.std.specs.FinMap.{find, is_sorted};
ghost use Rattle.list_lemmas.specs.BytesOrder.{bytes_cmp};
ghost use Rattle.row_pages.specs.Pages.{rows_in, ArePages};
ghost use Rattle.row_pages.specs.PagePlaces.{IsPageOf, IsRowAt, IsRowGap, IsRowStart, IsAt};

use crate::hints::Hints;
use crate::page::{Page, Place};
use guess_table::hash_bytes;
use packed_cells::row_cells::RowCells;
use qual_codec::Bytes;

/// The page in which a row is, if it is there, and would go, if it isn't.
pub fn page_of(pages: &[Page], row: &Bytes) -> usize
    requires { ArePages pages.now }
    ensures { IsPageOf row.now pages.now result }
{
    match pages.binary_search_by(|page| page.least.cmp(row)) {
        Ok(page) => page,
        Err(behind) => behind.saturating_sub(1),
    }
}

/// Where a row of a page is, or where it would go.
pub fn seek(rows: &[(Bytes, RowCells)], row: &Bytes) -> Result<usize, usize>
    requires { T (is_sorted bytes_cmp rows.now) }
    ensures found { IfOk result (λ r. IsRowAt row.now rows.now r) }
    ensures absent { IfErr result (λ r. IsRowGap row.now rows.now r) }
{
    rows.binary_search_by(|found| found.0.cmp(row))
}

/// Where in a page the rows begin that aren't below this one.
pub fn start_of(rows: &[(Bytes, RowCells)], row: &Bytes) -> usize
    requires { T (is_sorted bytes_cmp rows.now) }
    ensures start { IsRowStart row.now rows.now result }
    ensures gap { find bytes_cmp row.now rows.now ≡ None → IsRowGap row.now rows.now result }
{
    match seek(rows, row) {
        Ok(start) => start,
        Err(start) => start,
    }
}

/// Where a row is, if it is there.
pub fn place_of(pages: &[Page], row: &Bytes) -> Option<Place>
    requires { ArePages pages.now }
    ensures found { IfSome result (λ place. IsAt row.now pages.now place.page place.row) }
    ensures absent { IfNone result (find bytes_cmp row.now (rows_in pages.now) ≡ None) }
{
    let page = page_of(pages, row);
    match pages.get(page) {
        Some(found) => match seek(&found.rows, row) {
            Ok(row) => Some(Place { page, row }),
            Err(_) => None,
        },
        None => None,
    }
}

/// Where a row is, if it is there: at the place that is guessed, or else where a search finds it.
#[inline]
pub fn place_by(pages: &[Page], guess: Option<Place>, row: &Bytes) -> Option<Place>
    requires { ArePages pages.now }
    ensures found { IfSome result (λ place. IsAt row.now pages.now place.page place.row) }
    ensures absent { IfNone result (find bytes_cmp row.now (rows_in pages.now) ≡ None) }
{
    if let Some(place) = guess {
        if is_at(pages, place, row) {
            return Some(place);
        }
    }
    place_of(pages, row)
}

/// Where a row is, if it is there, which is remembered. The place that came behind the last one before is tried first, since rows
/// often come in the same order again, and then the last one.
#[inline(always)]
pub fn found_place(pages: &[Page], hints: &mut Hints, row: &Bytes) -> Option<Place>
    requires { ArePages pages.now }
    ensures found { IfSome result (λ place. IsAt row.now pages.now place.page place.row) }
    ensures absent { IfNone result (find bytes_cmp row.now (rows_in pages.now) ≡ None) }
{
    if let Some(next) = hints.next() {
        if is_at(pages, next, row) {
            hints.came(next);
            return Some(next);
        }
    }
    place_again(pages, hints, row)
}

/// The same as [`found_place`], where the row is mostly the one that was found last.
#[inline(always)]
pub fn place_again(pages: &[Page], hints: &mut Hints, row: &Bytes) -> Option<Place>
    requires { ArePages pages.now }
    ensures found { IfSome result (λ place. IsAt row.now pages.now place.page place.row) }
    ensures absent { IfNone result (find bytes_cmp row.now (rows_in pages.now) ≡ None) }
{
    let last = hints.last();
    if is_at(pages, last, row) {
        return Some(last);
    }
    search_place(pages, hints, row)
}

/// Where a row is, if it is there, by its hash or by a search.
#[inline(never)]
fn search_place(pages: &[Page], hints: &mut Hints, row: &Bytes) -> Option<Place>
    requires { ArePages pages.now }
    ensures found { IfSome result (λ place. IsAt row.now pages.now place.page place.row) }
    ensures absent { IfNone result (find bytes_cmp row.now (rows_in pages.now) ≡ None) }
{
    let hash = hash_bytes(row.list());
    let guess = hints.guess(hash);
    match place_by(pages, guess, row) {
        Some(place) => {
            hints.correct(hash, guess, place);
            hints.came(place);
            Some(place)
        }
        None => None,
    }
}

// Whether this is the place of the row.
#[inline(always)]
fn is_at(pages: &[Page], place: Place, row: &Bytes) -> bool
    ensures { IsTrue result → IsAt row.now pages.now place.page place.row }
{
    match pages.get(place.page) {
        Some(page) => match page.rows.get(place.row) {
            Some(found) => found.0 == *row,
            None => false,
        },
        None => false,
    }
}
