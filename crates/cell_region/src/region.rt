//! The rows of one region.
ghost use Rattle.std.specs.Prelude.{◌≡◌, ◌≤◌, ◌<◌, OnOk, OnErr, IsTrue, length};
ghost use Rattle.cell_region.specs.declared.region.TheConstants.{MOST_CELLS};
ghost use Rattle.cell_model.specs.Counts.{point_entries};
ghost use Rattle.cell_model.specs.Store.{no_cells, written};
ghost use Rattle.cell_laws.specs.StoreParts.{is_in, part};
ghost use Rattle.map_body.specs.Whole.{HasNoFlaw};

use cell_model::{Body, Bumped, Cells, Claimed, Drops, Found, ListLine, Listing, Row, Tally};
use map_body::MapBody;
use qual_codec::Bytes;
use row_key::{Table, Widths};
use std::alloc::{AllocError, Global};
use tsd_base::kinds::Kind;

/// The most cells of point rows in one region, so that those of all regions can be counted. One more is want of memory.
pub const MOST_CELLS: u64 = 500_000_000_000_000_000;

/// The rows of one region, kept in memory: those to which [`row_key::region_of`] with its data regions and the widths of its store gives
/// its number.
#[derive(Drop)]
pub struct Region {
    data_regions: u32,
    number: u32,
    body: MapBody,
    ghost own: { part (is_in body.widths data_regions number) body ≡ body },
    ghost few: { length (point_entries body) ≤ MOST_CELLS },
}

impl Region {
    ghost use Rattle.cell_region.specs.RegionLists.{cells_in, rows_of};

    /// A region without a cell, of a store whose ids have these widths. It takes no memory.
    pub fn empty(alloc: Global, number: u32, data_regions: u32, widths: Widths) -> Region
        ensures cells { cells_in result ≡ no_cells widths }
        ensures rows { rows_of result ≡ is_in widths data_regions number }
    {
        Region {
            data_regions,
            number,
            body: MapBody::make(alloc, widths),
        }
    }

    /// Writes the cell of a line with version 0, over an older one too. A line of the counters' row is a counter.
    pub(crate) fn load(&mut self, alloc: Global, line: &ListLine) -> Result<(), AllocError>
        requires covered { IsTrue (rows_of self.old (record { table = line.now.table; bytes = line.now.row })) }
        requires line { HasNoFlaw (cells_in self.old).widths line.now }
        ensures ok { OnOk result (cells_in self.new ≡ written (cells_in self.old) (record { table = line.now.table; bytes = line.now.row }) line.now.qual line.now.value 0) }
        ensures err { OnErr result (cells_in self.new ≡ cells_in self.old) }
        ensures rows { rows_of self.new ≡ rows_of self.old }
    {
        if self.body.point_cells() >= MOST_CELLS {
            return Err(AllocError);
        }
        self.body.load(alloc, line)
    }
}

impl Body for Region {
    ghost content = { λ r. r.body };

    ghost covers = { λ r. is_in r.body.widths r.data_regions r.number };

    fn widths(&self) -> Widths {
        self.body.widths()
    }

    fn read(&self, alloc: Global, row: &Row) -> Result<Cells, AllocError> {
        self.body.read(alloc, row)
    }

    fn next_row(
        &self,
        alloc: Global,
        table: Table,
        from: &Bytes,
        to: &Bytes,
    ) -> Result<Option<Found>, AllocError> {
        self.body.next_row(alloc, table, from, to)
    }

    fn bump(&mut self, kind: Kind) -> Bumped {
        self.body.bump(kind)
    }

    fn claim(
        &mut self,
        alloc: Global,
        row: &Row,
        qual: &Bytes,
        value: &Bytes,
    ) -> Result<Claimed, AllocError> {
        if self.body.point_cells() >= MOST_CELLS {
            return Err(AllocError);
        }
        self.body.claim(alloc, row, qual, value)
    }

    #[inline(always)]
    fn put(
        &mut self,
        alloc: Global,
        row: &Row,
        qual: &Bytes,
        value: &Bytes,
    ) -> Result<(), AllocError> {
        if self.body.point_cells() >= MOST_CELLS {
            return Err(AllocError);
        }
        self.body.put(alloc, row, qual, value)
    }

    #[inline(always)]
    fn append(&mut self, alloc: Global, row: &Row, piece: &Bytes) -> Result<(), AllocError> {
        if self.body.point_cells() >= MOST_CELLS {
            return Err(AllocError);
        }
        self.body.append(alloc, row, piece)
    }

    fn drop_cells(&mut self, row: &Row, which: &Drops) -> u64 {
        self.body.drop_cells(row, which)
    }

    #[inline(always)]
    fn stamp(&mut self, row: &Row, qual: &Bytes, place: u64) {
        self.body.stamp(row, qual, place);
    }

    fn stamp_counter(&mut self, kind: Kind, place: u64) {
        self.body.stamp_counter(kind, place);
    }

    fn tally(&self) -> Tally {
        self.body.tally()
    }

    fn listing(&self, alloc: Global) -> Result<Listing, AllocError> {
        self.body.listing(alloc)
    }
}
