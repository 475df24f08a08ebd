//! The lines of a listing, as they are kept.
ghost use Rattle.std.specs.Prelude.{◌≡◌, ◌+◌, true, false, [], length, None, OnErr, OnOk};
ghost use Rattle.std.specs.Ordering.{is_lt};
ghost use Rattle.cell_model.specs.PlaceOrder.{place_cmp, table_number};
ghost use Rattle.cell_model.specs.Rising.{LinesRise, place_of_line};
ghost use Rattle.cell_listing.specs.Grammar.{line_read};
ghost use Rattle.cell_listing.specs.ListedLines.{counted_in, counts_behind, others_in, with_line};
ghost use Rattle.cell_listing.specs.declared.listing_line.LineRead.TheVariants as read;

use crate::listing_line::{LineRead, read_line};
use cell_model::{LineList, ListLine};
use row_key::{Table, Widths};
use std::alloc::{AllocError, Global};
use std::cmp::Ordering;
use std::marker::Model;

/// A line that is no cell that counts, with its number, from 1.
#[derive(Drop)]
pub struct OtherLine {
    pub number: u64,
    pub line: LineRead,
}

/// The lines of a listing whose ids have these widths: the cells that count, each above the one before, and beside them the other
/// lines. Where all count, nothing is kept but the cells.
///
/// Contracts see it as the widths and the list of all lines, as each was read.
#[derive(Drop)]
pub struct Listed {
    widths: Widths,
    cells: Vec<ListLine>,
    others: Vec<OtherLine>,
}

impl Model for Listed {
    ghost use Rattle.cell_listing.specs.ListedLines.{AreParts, ListingRead, woven};

    ghost Value = { ListingRead };

    ghost view = { λ l. record { widths = l.widths; lines = woven 1 l.cells.items l.others.items } };

    ghost invariant = { λ l. AreParts l.cells.items l.others.items };
}

impl Listed {
    /// No lines, of a listing whose ids have these widths.
    pub fn none(alloc: Global, widths: Widths) -> Listed
        ensures { result ≡ record { widths = widths; lines = [] } }
    {
        Listed {
            widths,
            cells: Vec::new(alloc),
            others: Vec::new(alloc),
        }
    }

    /// How many bytes the ids of each kind have.
    pub fn widths(&self) -> Widths
        ensures { result ≡ self.now.widths }
    {
        self.widths
    }

    /// The cells that count.
    pub fn cells(&self) -> &[ListLine]
        ensures cells { result.now ≡ counted_in self.now.lines }
        ensures rising { LinesRise result.now }
    {
        self.cells.as_slice()
    }

    /// The other lines.
    pub fn others(&self) -> &[OtherLine]
        ensures { result.now ≡ others_in self.now.lines }
    {
        self.others.as_slice()
    }

    /// The cells that count and the other lines, which are moved.
    pub fn into_parts(self) -> (LineList, Vec<OtherLine>)
        ensures cells { result.0 ≡ counted_in self.lines }
        ensures others { result.1.items ≡ others_in self.lines }
    {
        (LineList::of(self.cells), self.others)
    }

    /// Reads one more line. It fails only for want of memory, and then nothing changes.
    pub fn add(&mut self, alloc: Global, line: &[u8]) -> Result<(), AllocError>
        ensures ok { OnOk result (self.new ≡ with_line self.old (line_read line.now)) }
        ensures err { OnErr result (self.new ≡ self.old) }
    {
        let read = read_line(alloc, line)?;
        self.push(read)
    }

    /// Adds a line that is too long. It fails only for want of memory, and then nothing changes.
    pub fn add_too_long(&mut self) -> Result<(), AllocError>
        ensures ok { OnOk result (self.new ≡ with_line self.old (read.Other None)) }
        ensures err { OnErr result (self.new ≡ self.old) }
    {
        self.push(LineRead::Other { bytes: None })
    }

    /// Adds a line that was read.
    fn push(&mut self, line: LineRead) -> Result<(), AllocError>
        ensures ok { OnOk result (self.new ≡ with_line self.old line) }
        ensures err { OnErr result (self.new ≡ self.old) }
    {
        match line {
            LineRead::Cell { cell } => {
                if self.counts(&cell) {
                    self.push_cell(cell)
                } else {
                    self.push_other(LineRead::Cell { cell })
                }
            }
            LineRead::Other { bytes } => self.push_other(LineRead::Other { bytes }),
        }
    }

    /// Whether a cell counts, behind the lines.
    fn counts(&self, cell: &ListLine) -> bool
        ensures { result ≡ counts_behind self.now.lines (read.Cell cell.now) }
    {
        match self.cells.last() {
            None => true,
            Some(last) => is_before(last, cell),
        }
    }

    /// Adds a cell that counts.
    fn push_cell(&mut self, cell: ListLine) -> Result<(), AllocError>
        requires { counts_behind self.old.lines (read.Cell cell) ≡ true }
        ensures ok { OnOk result (self.new ≡ with_line self.old (read.Cell cell)) }
        ensures err { OnErr result (self.new ≡ self.old) }
    {
        self.cells.push(cell)?;
        Ok(())
    }

    /// Adds a line that is no cell that counts.
    fn push_other(&mut self, line: LineRead) -> Result<(), AllocError>
        requires { counts_behind self.old.lines line ≡ false }
        ensures ok { OnOk result (self.new ≡ with_line self.old line) }
        ensures err { OnErr result (self.new ≡ self.old) }
    {
        let number = number_behind(&self.cells, &self.others);
        self.others.push(OtherLine { number, line })?;
        Ok(())
    }
}

/// The number of the next line.
fn number_behind(cells: &[ListLine], others: &[OtherLine]) -> u64
    ensures { result ≡ length cells.now + length others.now + 1 }
{
    cells.len() as u64 + others.len() as u64 + 1
}

/// Whether a cell stands before another one.
fn is_before(one: &ListLine, other: &ListLine) -> bool
    ensures { result ≡ is_lt (place_cmp (place_of_line one.now) (place_of_line other.now)) }
{
    order_of(one, other.table, other.row.list(), other.qual.list()).is_lt()
}

/// The order of a cell and a place.
pub fn order_of(cell: &ListLine, table: Table, row: &[u8], qual: &[u8]) -> Ordering
    ensures { result ≡ place_cmp (place_of_line cell.now) (record { row = record { table = table; bytes = row.now }; qual = qual.now }) }
{
    let tables = number_of(cell.table).cmp(&number_of(table));
    let rows = cell.row.list().cmp(row);
    let quals = cell.qual.list().cmp(qual);
    tables.then(rows).then(quals)
}

/// The place of a table among the tables.
fn number_of(table: Table) -> u8
    ensures { result ≡ table_number table }
{
    match table {
        Table::Ids => 0,
        Table::Names => 1,
        Table::Points => 2,
    }
}
