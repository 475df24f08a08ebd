//! Rows and cells, as callers see them.
ghost use Rattle.std.specs.Prelude.{◌≡◌, ◌<◌, true, [], ◌∷◌, ◌++◌, length, slice_index_or, IfOk, IfSome, OnOk, OnErr, MatchOption, Some, None};
ghost use Rattle.qual_codec.specs.declared.cells.Cell.{Cell};
ghost use Rattle.std.specs.Ordering.{is_lt};
ghost use Rattle.cell_model.specs.PlaceOrder.{place_cmp, table_number};
ghost use Rattle.cell_model.specs.Store.{value_among};
ghost use Rattle.cell_model.specs.Rising.{RiseByQual, IsAboveCells, LinesRise, Adds, is_above, may_follow, place_of_line};

use cell_blocks::block::Block;
use cell_blocks::small_value::{Narrow, Wide};
use cell_blocks::strip::Strip;
use qual_codec::{Bytes, CellRef};
use row_key::{Table, Widths};
use std::alloc::{AllocError, Global};
use std::marker::Model;

/// A row of a table.
#[derive(Debug, PartialEq, Eq, Drop)]
pub struct Row {
    pub table: Table,
    pub bytes: Bytes,
}

impl Row {
    /// The same row once more. It fails only for want of memory.
    pub fn again(&self, alloc: Global) -> Result<Row, AllocError>
        ensures { IfOk result (λ made. made ≡ self.now) }
    {
        Ok(Row {
            table: self.table,
            bytes: self.bytes.again(alloc)?,
        })
    }
}

/// The cells of a row, in byte order of their qualifiers, packed as the store keeps them.
///
/// Contracts see it as the list of the cells.
#[derive(Drop)]
pub struct Cells {
    block: Block,
}

impl Model for Cells {
    ghost use Rattle.std.specs.Prelude.{List};
    ghost use Rattle.qual_codec.specs.declared.cells.Cell.{Cell};
    ghost use Rattle.cell_model.specs.Rising.{RiseByQual};

    ghost Value = { List Cell };

    ghost view = { λ c. c.block };

    ghost invariant = { λ c. RiseByQual c.block };
}

impl Cells {
    /// No cells.
    pub fn make(alloc: Global) -> Cells
        ensures { result ≡ [] }
    {
        Cells {
            block: Block::make(alloc),
        }
    }

    /// The cells of a block that rise by qualifier.
    pub fn of(block: Block) -> Cells
        requires { RiseByQual block }
        ensures { result ≡ block }
    {
        Cells { block }
    }

    /// Adds a cell behind the last one. It fails only for want of memory, or where the cells have 4 GiB, and then nothing changes.
    #[inline]
    pub fn push(&mut self, qual: &[u8], value: &[u8], version: u64) -> Result<(), AllocError>
        requires { IsAboveCells qual.now self.old }
        ensures ok { OnOk result (self.new ≡ self.old ++ (record { qual = qual.now; value = value.now; version = version }) ∷ []) }
        ensures err { OnErr result (self.new ≡ self.old) }
    {
        self.block.push(qual, value, version)
    }

    /// How many cells there are.
    #[inline]
    pub fn len(&self) -> usize
        ensures { result ≡ length self.now }
    {
        self.block.len()
    }

    /// The cell at `i`, from the least qualifier.
    #[inline]
    pub fn cell(&self, i: usize) -> CellRef<'_>
        requires { i < length self.now }
        ensures cell { (d : Cell) → result ≡ slice_index_or self.now i d }
        ensures rising { RiseByQual self.now }
    {
        self.block.cell(i)
    }

    /// The strip that the cells are, if each has a qualifier of two bytes and none a value of more than 2.
    #[inline]
    pub fn narrow(&self) -> Option<&Strip<Narrow>>
        ensures { IfSome result (λ strip. strip.now ≡ self.now) }
    {
        self.block.narrow()
    }

    /// The strip that the cells are, if each has a qualifier of two bytes and they are kept with room for values of up to 8, as cells are since
    /// one had a value of 4 or 8.
    #[inline]
    pub fn wide(&self) -> Option<&Strip<Wide>>
        ensures { IfSome result (λ strip. strip.now ≡ self.now) }
    {
        self.block.wide()
    }

    /// The value at a qualifier, where a cell has it.
    pub fn value_at(&self, qual: &[u8]) -> Option<&[u8]>
        ensures { MatchOption result (value_among self.now qual.now ≡ None) (λ value. value_among self.now qual.now ≡ Some value.now) }
    {
        for i in 0..self.len() {
            let cell = self.cell(i);
            if cell.qual == qual {
                return Some(cell.value);
            }
        }
        None
    }
}

/// A row that was found, with its cells.
#[derive(Drop)]
pub struct Found {
    pub row: Row,
    pub cells: Cells,
}

/// What a drop names: qualifiers, each with the greatest version that goes.
///
/// Contracts see it as the list of the pairs.
#[derive(Drop)]
pub struct Drops {
    list: Vec<(Bytes, u64)>,
}

impl Model for Drops {
    ghost use Rattle.std.specs.Prelude.{List, ℕ};

    ghost Value = { List (List ℕ × ℕ) };

    ghost view = { λ d. d.list.items };
}

impl Drops {
    /// Nothing to drop.
    pub fn make(alloc: Global) -> Drops
        ensures { result ≡ [] }
    {
        Drops {
            list: Vec::new(alloc),
        }
    }

    /// Names one more cell. It fails only for want of memory, and then nothing changes.
    #[inline]
    pub fn push(&mut self, qual: Bytes, version: u64) -> Result<(), AllocError>
        ensures ok { OnOk result (self.new ≡ self.old ++ (qual, version) ∷ []) }
        ensures err { OnErr result (self.new ≡ self.old) }
    {
        self.list.push((qual, version))?;
        Ok(())
    }

    /// The cells that are named.
    #[inline]
    pub fn list(&self) -> &[(Bytes, u64)]
        ensures { result.now ≡ self.now }
    {
        self.list.as_slice()
    }
}

/// A cell with its place, without its version.
#[derive(Debug, PartialEq, Eq, Drop)]
pub struct ListLine {
    pub table: Table,
    pub row: Bytes,
    pub qual: Bytes,
    pub value: Bytes,
}

/// The lines of a listing, rising by table, row and qualifier.
///
/// Contracts see them as the list of the lines.
#[derive(Drop)]
pub struct LineList {
    list: Vec<ListLine>,
}

impl Model for LineList {
    ghost use Rattle.std.specs.Prelude.{List};
    ghost use Rattle.cell_model.specs.declared.row.ListLine.{ListLine};
    ghost use Rattle.cell_model.specs.Rising.{LinesRise};

    ghost Value = { List ListLine };

    ghost view = { λ l. l.list.items };

    ghost invariant = { λ l. LinesRise l.list.items };
}

impl LineList {
    /// No line.
    pub fn none(alloc: Global) -> LineList
        ensures { result ≡ [] }
    {
        LineList {
            list: Vec::new(alloc),
        }
    }

    /// Lines that rise, which are moved.
    pub fn of(lines: Vec<ListLine>) -> LineList
        requires { LinesRise lines.items }
        ensures { result ≡ lines.items }
    {
        LineList { list: lines }
    }

    /// The lines, which are moved.
    pub fn into_lines(self) -> Vec<ListLine>
        ensures lines { result.items ≡ self }
        ensures rising { LinesRise self }
    {
        self.list
    }

    /// Adds a line behind the last one, and answers true. A line that isn't above the last one, or a part of which is empty,
    /// isn't added, and the answer is false. It fails only for want of memory, and then nothing changes.
    pub fn add(
        &mut self,
        alloc: Global,
        table: Table,
        row: &[u8],
        qual: &[u8],
        value: &[u8],
    ) -> Result<bool, AllocError>
        ensures ok { IfOk result (λ added. Adds self.old (record { table = table; row = row.now; qual = qual.now; value = value.now }) added self.new) }
        ensures err { OnErr result (self.new ≡ self.old) }
    {
        if !may_follow(&self.list, table, row, qual, value) {
            return Ok(false);
        }
        self.push(ListLine {
            table,
            row: Bytes::of(alloc, row)?,
            qual: Bytes::of(alloc, qual)?,
            value: Bytes::of(alloc, value)?,
        })?;
        Ok(true)
    }

    /// Adds a line that is above each, whatever its parts are. It fails only for want of memory, and then nothing changes.
    #[tactic(auto, using(crate::proofs::Following::still_rise))]
    pub fn push(&mut self, line: ListLine) -> Result<(), AllocError>
        requires { is_above self.old (place_of_line line) ≡ true }
        ensures ok { OnOk result (self.new ≡ self.old ++ line ∷ []) }
        ensures err { OnErr result (self.new ≡ self.old) }
    {
        self.list.push(line)?;
        Ok(())
    }

    /// The lines, rising by table, row and qualifier.
    #[inline]
    pub fn lines(&self) -> &[ListLine]
        ensures lines { result.now ≡ self.now }
        ensures rising { LinesRise self.now }
    {
        self.list.as_slice()
    }
}

/// All cells of a store as lines, and how many bytes its ids have.
#[derive(Drop)]
pub struct Listing {
    pub widths: Widths,
    pub lines: LineList,
}

impl Listing {
    /// The listing of an empty store whose ids have these widths.
    pub fn none(alloc: Global, widths: Widths) -> Listing
        ensures { result ≡ record { widths = widths; lines = [] } }
    {
        Listing {
            widths,
            lines: LineList::none(alloc),
        }
    }

    /// How many bytes the ids of each kind have.
    pub fn widths(&self) -> Widths
        ensures { result ≡ self.now.widths }
    {
        self.widths
    }

    /// Adds a line as [`LineList::add`] does.
    pub fn add(
        &mut self,
        alloc: Global,
        table: Table,
        row: &[u8],
        qual: &[u8],
        value: &[u8],
    ) -> Result<bool, AllocError>
        ensures ok { IfOk result (λ added. Adds self.old.lines (record { table = table; row = row.now; qual = qual.now; value = value.now }) added self.new.lines) }
        ensures widths { self.new.widths ≡ self.old.widths }
        ensures err { OnErr result (self.new ≡ self.old) }
    {
        self.lines.add(alloc, table, row, qual, value)
    }

    /// The lines, rising by table, row and qualifier.
    #[inline]
    pub fn lines(&self) -> &[ListLine]
        ensures lines { result.now ≡ self.now.lines }
        ensures rising { LinesRise self.now.lines }
    {
        self.lines.lines()
    }
}

/// Whether a line of these parts may follow lines that rise.
fn may_follow(lines: &[ListLine], table: Table, row: &[u8], qual: &[u8], value: &[u8]) -> bool
    requires { LinesRise lines.now }
    ensures { result ≡ may_follow lines.now (record { table = table; row = row.now; qual = qual.now; value = value.now }) }
{
    !row.is_empty() && !qual.is_empty() && !value.is_empty() && is_above(lines, table, row, qual)
}

/// Whether a place is above the last of lines that rise, and so above each.
fn is_above(lines: &[ListLine], table: Table, row: &[u8], qual: &[u8]) -> bool
    requires { LinesRise lines.now }
    ensures { result ≡ is_above lines.now (record { row = record { table = table; bytes = row.now }; qual = qual.now }) }
{
    match lines.last() {
        Some(last) => is_before(last, table, row, qual),
        None => true,
    }
}

/// Whether a line stands before a place.
fn is_before(line: &ListLine, table: Table, row: &[u8], qual: &[u8]) -> bool
    ensures { result ≡ is_lt (place_cmp (place_of_line line.now) (record { row = record { table = table; bytes = row.now }; qual = qual.now })) }
{
    let tables = number(line.table).cmp(&number(table));
    let rows = line.row.list().cmp(row);
    let quals = line.qual.list().cmp(qual);
    tables.then(rows).then(quals).is_lt()
}

/// The place of a table among the tables.
fn number(table: Table) -> u8
    ensures { result ≡ table_number table }
{
    match table {
        Table::Ids => 0,
        Table::Names => 1,
        Table::Points => 2,
    }
}
