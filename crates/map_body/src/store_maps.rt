//! A body whose store is kept in maps.
ghost use Rattle.std.specs.Prelude.{◌≡◌, ◌≢◌, ◌∷◌, ◌↔◌, [], true, All, IfOk, OnOk, OnErr, IsTrue, length, option_map};
ghost use Rattle.row_key.specs.declared.tables.Table.TheVariants.{Ids};
ghost use Rattle.cell_model.specs.declared.row.Row.{Row};
ghost use Rattle.cell_model.specs.declared.row.ListLine.{ListLine};
ghost use Rattle.cell_model.specs.PlaceOrder.{table_number};
ghost use Rattle.cell_model.specs.Store.{Store, no_cells, value_at, written};
ghost use Rattle.cell_model.specs.Counts.{point_entries};
ghost use Rattle.cell_model.specs.Listed.{store_of};
ghost use Rattle.cell_model.specs.Sound.{IsCounter};
ghost use Rattle.cell_model.specs.Machine.{counter_row};
ghost use Rattle.map_body.specs.Whole.{HasNoFlaw};

use crate::counters::{Counters, kind_of, number_of};
use crate::store_lines::copy_cells;
use crate::table_rows::TableRows;
use cell_model::{
    Body, Bumped, Cells, Claimed, Drops, Found, LineList, ListLine, Listing, Row, Tally, width_of,
};
use qual_codec::Bytes;
use row_key::{Table, Widths, most_ids};
use std::alloc::{AllocError, Global};
use std::marker::Model;
use tsd_base::kinds::Kind;

/// A store kept in memory: for each table a map from its rows to their cells, and the three counters beside them.
///
/// It is over every row. A look at a row takes time in the logarithm of their number, and time for the cells of that row.
/// Contracts see it as the store.
#[derive(Drop)]
pub struct MapBody {
    widths: Widths,
    // By the number of the table. The row of the counters isn't among them.
    tables: [TableRows; 3],
    counters: Counters,
}

impl Model for MapBody {
    ghost use Rattle.cell_model.specs.Store.{Store};
    ghost use Rattle.cell_model.specs.Codes.{coded_store};

    ghost Value = { Store };

    ghost coded = { coded_store };

    ghost use Rattle.std.specs.Prelude.{◌≡◌, length};
    ghost use Rattle.map_body.specs.Counting.{AllCounters};
    ghost use Rattle.map_body.specs.Whole.{store_in, NoCounterRow};

    ghost view = { λ b. store_in b.widths b.tables b.counters };

    ghost invariant = { λ b. NoCounterRow b.tables × (length b.tables ≡ 3) × AllCounters b.widths b.counters };
}

impl MapBody {
    /// The body of an empty store whose ids have these widths. It takes no memory.
    pub fn make(alloc: Global, widths: Widths) -> MapBody
        ensures { result ≡ no_cells widths }
    {
        MapBody {
            widths,
            tables: [
                TableRows::make(alloc),
                TableRows::make(alloc),
                TableRows::make(alloc),
            ],
            counters: Counters::make(),
        }
    }

    /// The body of a listing's store. Each line of the counters' row is a counter. It fails only for want of memory.
    pub fn of(alloc: Global, listing: Listing) -> Result<MapBody, AllocError>
        requires { All (HasNoFlaw listing.widths) listing.lines }
        ensures { IfOk result (λ body. body ≡ store_of listing) }
    {
        let mut body = MapBody::make(alloc, listing.widths);
        for line in listing.lines() {
            body.load(alloc, line)?;
        }
        Ok(body)
    }

    /// Writes the cell of a line with version 0, over an older one too. A line of the counters' row is a counter.
    pub fn load(&mut self, alloc: Global, line: &ListLine) -> Result<(), AllocError>
        requires { HasNoFlaw self.old.widths line.now }
        ensures ok { OnOk result (self.new ≡ written self.old (record { table = line.now.table; bytes = line.now.row }) line.now.qual line.now.value 0) }
        ensures err { OnErr result (self.new ≡ self.old) }
    {
        if is_counter_row(line.table, &line.row) {
            let kind = kind_of(line.qual.list());
            let number = number_of(line.value.list());
            self.counters.set(kind, number, 0);
            return Ok(());
        }
        self.put_cell(alloc, line.table, &line.row, &line.qual, &line.value)
    }

    /// How many cells the point rows have.
    #[inline]
    pub fn point_cells(&self) -> u64
        ensures { result ≡ length (point_entries self.now) }
    {
        self.tables[number(Table::Points)].count()
    }

    // Writes a cell with version 0.
    #[inline(always)]
    fn put_cell(
        &mut self,
        alloc: Global,
        table: Table,
        row: &Bytes,
        qual: &Bytes,
        value: &Bytes,
    ) -> Result<(), AllocError>
        requires { (record { table = table; bytes = row.now }) ≢ counter_row }
        ensures ok { OnOk result (self.new ≡ written self.old (record { table = table; bytes = row.now }) qual.now value.now 0) }
        ensures err { OnErr result (self.new ≡ self.old) }
    {
        let rows = &mut self.tables[number(table)];
        rows.put(alloc, row, qual.list(), value.list())?;
        Ok(())
    }

    // The value of a cell, if it is there.
    fn held(&self, row: &Row, qual: &Bytes) -> Option<&[u8]>
        requires { row.now ≢ counter_row }
        ensures { option_map (λ v. v.now) result ≡ value_at self.now row.now qual.now }
    {
        self.tables[number(row.table)].value(&row.bytes, qual.list())
    }
}

impl Body for MapBody {
    ghost content = { λ b. b };

    ghost covers = { λ _ _. true };

    fn widths(&self) -> Widths {
        self.widths
    }

    fn read(&self, alloc: Global, row: &Row) -> Result<Cells, AllocError> {
        if is_counter_row(row.table, &row.bytes) {
            let cells = self.counters.cells(alloc)?;
            return Ok(cells);
        }
        match self.tables[number(row.table)].row(&row.bytes) {
            Some(cells) => {
                let cells = copy_cells(alloc, cells)?;
                Ok(cells)
            }
            None => Ok(Cells::make(alloc)),
        }
    }

    fn next_row(
        &self,
        alloc: Global,
        table: Table,
        from: &Bytes,
        to: &Bytes,
    ) -> Result<Option<Found>, AllocError> {
        match self.tables[number(table)].next(from, to) {
            Some((bytes, cells)) => Ok(Some(Found {
                row: Row {
                    table,
                    bytes: bytes.again(alloc)?,
                },
                cells: copy_cells(alloc, cells)?,
            })),
            None => Ok(None),
        }
    }

    fn bump(&mut self, kind: Kind) -> Bumped {
        let given = self.counters.number(kind);
        let most = most_ids(width_of(kind, self.widths));
        if given >= most {
            return Bumped::Full;
        }
        self.counters.set(kind, given + 1, 0);
        Bumped::Given { id: given + 1 }
    }

    fn claim(
        &mut self,
        alloc: Global,
        row: &Row,
        qual: &Bytes,
        value: &Bytes,
    ) -> Result<Claimed, AllocError> {
        if let Some(held) = self.held(row, qual) {
            return Ok(Claimed::Held {
                value: Bytes::of(alloc, held)?,
            });
        }
        self.put_cell(alloc, row.table, &row.bytes, qual, value)?;
        Ok(Claimed::Done)
    }

    #[inline(always)]
    fn put(
        &mut self,
        alloc: Global,
        row: &Row,
        qual: &Bytes,
        value: &Bytes,
    ) -> Result<(), AllocError> {
        self.put_cell(alloc, row.table, &row.bytes, qual, value)
    }

    #[inline(always)]
    fn append(&mut self, alloc: Global, row: &Row, piece: &Bytes) -> Result<(), AllocError> {
        let rows = &mut self.tables[number(row.table)];
        rows.append(alloc, &row.bytes, piece.list())?;
        Ok(())
    }

    fn drop_cells(&mut self, row: &Row, which: &Drops) -> u64 {
        let rows = &mut self.tables[number(row.table)];
        rows.drop_cells(&row.bytes, which.list())
    }

    #[inline(always)]
    fn stamp(&mut self, row: &Row, qual: &Bytes, place: u64) {
        let rows = &mut self.tables[number(row.table)];
        rows.stamp(&row.bytes, qual.list(), place);
    }

    fn stamp_counter(&mut self, kind: Kind, place: u64) {
        self.counters.stamp(kind, place);
    }

    fn tally(&self) -> Tally {
        let ids = [
            self.counters.number(Kind::Metric) as u64,
            self.counters.number(Kind::TagKey) as u64,
            self.counters.number(Kind::TagValue) as u64,
        ];
        let points = &self.tables[number(Table::Points)];
        Tally {
            ids,
            point_rows: points.len() as u64,
            point_cells: self.point_cells(),
        }
    }

    fn listing(&self, alloc: Global) -> Result<Listing, AllocError> {
        let mut listing = LineList::none(alloc);
        let [ids, names, points] = &self.tables;
        let counters = Bytes::short(b"\x00");
        ids.list_below(alloc, Table::Ids, &counters, &mut listing)?;
        self.counters.list(alloc, &mut listing)?;
        ids.list_from(alloc, Table::Ids, &counters, &mut listing)?;
        names.list_from(alloc, Table::Names, &Bytes::none(), &mut listing)?;
        points.list_from(alloc, Table::Points, &Bytes::none(), &mut listing)?;
        Ok(Listing {
            widths: self.widths,
            lines: listing,
        })
    }
}

/// Whether a row is that of the counters.
fn is_counter_row(table: Table, bytes: &Bytes) -> bool
    ensures { IsTrue result ↔ ((record { table = table; bytes = bytes.now }) ≡ counter_row) }
{
    match table {
        Table::Ids => bytes.list() == b"\x00".as_slice(),
        _ => false,
    }
}

/// The place of a table among the tables.
#[inline]
pub fn number(table: Table) -> usize
    ensures { result ≡ table_number table }
{
    match table {
        Table::Ids => 0,
        Table::Names => 1,
        Table::Points => 2,
    }
}
