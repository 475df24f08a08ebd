//! A page of rows.
use packed_cells::row_cells::RowCells;
use qual_codec::Bytes;

/// The most rows of a page.
pub const MOST_ROWS: usize = 64;

/// Rows with their cells, in order, and bytes that tell them from the rows of the pages before.
#[derive(Drop)]
pub struct Page {
    // No row of the page is below them, and each row of a page before it is.
    pub least: Bytes,
    pub rows: Vec<(Bytes, RowCells)>,
}

/// The place of a row: that of its page, and its own in the page.
#[derive(Clone, Copy, Drop, PartialEq, Eq)]
pub struct Place {
    pub page: usize,
    pub row: usize,
}
