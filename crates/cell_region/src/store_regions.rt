//! The whole store, in regions.
ghost use Rattle.std.specs.Prelude.{◌≡◌, ℕ, ◌≤◌, ◌<◌, ◌+◌, true, All, IfOk, OnOk, OnErr};
ghost use Rattle.row_key.specs.declared.widths.Widths.{Widths};
ghost use Rattle.row_key.specs.Regions.{region_number};
ghost use Rattle.cell_model.specs.Store.{no_cells, written};
ghost use Rattle.cell_model.specs.Listed.{store_of};
ghost use Rattle.map_body.specs.Whole.{HasNoFlaw};
ghost use Rattle.cell_region.specs.RegionLists.{AreComplete, HaveParts, store_of_all};

use crate::region::Region;
use crate::region_lines::{add_lines, listing_of, place_order};
use cell_model::{Body, Bumped, Cells, Claimed, Drops, Found, ListLine, Listing, Row, Tally};
use qual_codec::Bytes;
use row_key::{MOST_DATA_REGIONS, NAME_REGIONS, Table, Widths, region_of};
use std::alloc::{AllocError, Global};
use std::marker::Model;
use tsd_base::kinds::Kind;

/// How many data regions a store has where nothing else is asked for.
pub const DATA_REGIONS: u32 = 4;

/// A store in regions: each step goes to the region of its row.
///
/// Contracts see it as the store, and the number of data regions.
#[derive(Drop)]
pub struct Regions {
    widths: Widths,
    data_regions: u32,
    // By their numbers.
    regions: Vec<Region>,
}

impl Model for Regions {
    ghost use Rattle.cell_region.specs.DividedStore.{DividedStore, coded_divided};

    ghost Value = { DividedStore };

    ghost coded = { coded_divided };

    ghost use Rattle.cell_region.specs.RegionLists.{AreComplete, store_of_all};

    ghost view = { λ r. record { data_regions = r.data_regions; content = store_of_all r.widths r.regions.items } };

    ghost invariant = { λ r. AreComplete r.widths r.data_regions r.regions.items };
}

impl Regions {
    /// A listing's store, in regions. Each line of the counters' row is a counter. It fails only for want of memory.
    pub fn of(alloc: Global, listing: Listing, data_regions: u32) -> Result<Regions, AllocError>
        requires least { 1 ≤ data_regions }
        requires most { data_regions ≤ MOST_DATA_REGIONS }
        requires lines { All (HasNoFlaw listing.widths) listing.lines }
        ensures data_regions { IfOk result (λ regions. regions.data_regions ≡ data_regions) }
        ensures content { IfOk result (λ regions. regions.content ≡ store_of listing) }
    {
        let mut regions = Regions {
            widths: listing.widths,
            data_regions,
            regions: empty_regions(alloc, data_regions, listing.widths)?,
        };
        for line in listing.lines() {
            regions.load(alloc, line)?;
        }
        Ok(regions)
    }

    /// All regions, in order, each with its part of the store.
    pub fn split(self) -> Vec<Region>
        ensures complete { AreComplete self.content.widths self.data_regions result.items }
        ensures parts { HaveParts self.data_regions result.items self.content }
    {
        self.regions
    }

    /// The store whose parts these regions have: all regions of one store, in order.
    pub fn joined(regions: Vec<Region>) -> Regions
        requires complete { (widths : Widths) × (data_regions : ℕ) × AreComplete widths data_regions regions.items }
        ensures data_regions { (widths : Widths) (data_regions : ℕ) → AreComplete widths data_regions regions.items → result.data_regions ≡ data_regions }
        ensures widths { (widths : Widths) (data_regions : ℕ) → AreComplete widths data_regions regions.items → result.content.widths ≡ widths }
        ensures parts { HaveParts result.data_regions regions.items result.content }
    {
        let data_regions = regions.len() as u32 - NAME_REGIONS;
        let counters = &regions[0];
        let widths = counters.widths();
        Regions {
            widths,
            data_regions,
            regions,
        }
    }

    // Writes the cell of a line.
    fn load(&mut self, alloc: Global, line: &ListLine) -> Result<(), AllocError>
        requires { HasNoFlaw self.old.content.widths line.now }
        ensures ok { OnOk result (self.new.content ≡ written self.old.content (record { table = line.now.table; bytes = line.now.row }) line.now.qual line.now.value 0) }
        ensures data_regions { self.new.data_regions ≡ self.old.data_regions }
    {
        let number = number_of(line.table, line.row.list(), self.data_regions, self.widths);
        let region = &mut self.regions[number];
        region.load(alloc, line)
    }
}

impl Body for Regions {
    ghost content = { λ r. r.content };

    ghost covers = { λ _ _. true };

    fn widths(&self) -> Widths {
        self.widths
    }

    fn read(&self, alloc: Global, row: &Row) -> Result<Cells, AllocError> {
        let number = number_of(row.table, row.bytes.list(), self.data_regions, self.widths);
        let region = &self.regions[number];
        region.read(alloc, row)
    }

    fn next_row(
        &self,
        alloc: Global,
        table: Table,
        from: &Bytes,
        to: &Bytes,
    ) -> Result<Option<Found>, AllocError> {
        let number = number_of(table, from.list(), self.data_regions, self.widths);
        let region = &self.regions[number];
        region.next_row(alloc, table, from, to)
    }

    fn bump(&mut self, kind: Kind) -> Bumped {
        let counters = &mut self.regions[0];
        counters.bump(kind)
    }

    fn claim(
        &mut self,
        alloc: Global,
        row: &Row,
        qual: &Bytes,
        value: &Bytes,
    ) -> Result<Claimed, AllocError> {
        let number = number_of(row.table, row.bytes.list(), self.data_regions, self.widths);
        let region = &mut self.regions[number];
        region.claim(alloc, row, qual, value)
    }

    #[inline(always)]
    fn put(
        &mut self,
        alloc: Global,
        row: &Row,
        qual: &Bytes,
        value: &Bytes,
    ) -> Result<(), AllocError> {
        let number = number_of(row.table, row.bytes.list(), self.data_regions, self.widths);
        let region = &mut self.regions[number];
        region.put(alloc, row, qual, value)
    }

    #[inline(always)]
    fn append(&mut self, alloc: Global, row: &Row, piece: &Bytes) -> Result<(), AllocError> {
        let number = number_of(row.table, row.bytes.list(), self.data_regions, self.widths);
        let region = &mut self.regions[number];
        region.append(alloc, row, piece)
    }

    fn drop_cells(&mut self, row: &Row, which: &Drops) -> u64 {
        let number = number_of(row.table, row.bytes.list(), self.data_regions, self.widths);
        let region = &mut self.regions[number];
        region.drop_cells(row, which)
    }

    #[inline(always)]
    fn stamp(&mut self, row: &Row, qual: &Bytes, place: u64) {
        let number = number_of(row.table, row.bytes.list(), self.data_regions, self.widths);
        let region = &mut self.regions[number];
        region.stamp(row, qual, place);
    }

    fn stamp_counter(&mut self, kind: Kind, place: u64) {
        let counters = &mut self.regions[0];
        counters.stamp_counter(kind, place);
    }

    fn tally(&self) -> Tally {
        let counters = &self.regions[0];
        let counted = counters.tally();
        let ids = counted.ids;
        let mut point_rows = 0;
        let mut point_cells = 0;
        for region in &self.regions {
            let own = region.tally();
            point_rows += own.point_rows;
            point_cells += own.point_cells;
        }
        Tally {
            ids,
            point_rows,
            point_cells,
        }
    }

    fn listing(&self, alloc: Global) -> Result<Listing, AllocError> {
        let mut lines = Vec::new(alloc);
        for region in &self.regions[..] {
            let own = region.listing(alloc)?;
            add_lines(&mut lines, alloc, &own)?;
        }
        lines.sort_by(|one, other| place_order(one, other))?;
        listing_of(alloc, self.widths, lines)
    }
}

/// All regions, in order, without a cell, of a store whose ids have these widths.
fn empty_regions(
    alloc: Global,
    data_regions: u32,
    widths: Widths,
) -> Result<Vec<Region>, AllocError>
    requires least { 1 ≤ data_regions }
    requires most { data_regions ≤ MOST_DATA_REGIONS }
    ensures complete { IfOk result (λ regions. AreComplete widths data_regions regions.items) }
    ensures empty { IfOk result (λ regions. store_of_all widths regions.items ≡ no_cells widths) }
{
    let mut regions = Vec::new(alloc);
    for number in 0..NAME_REGIONS + data_regions {
        regions.push(Region::empty(alloc, number, data_regions, widths))?;
    }
    Ok(regions)
}

/// The number of a row's region, which is its place among the regions.
#[inline(always)]
fn number_of(table: Table, row: &[u8], data_regions: u32, widths: Widths) -> usize
    requires least { 1 ≤ data_regions }
    requires most { data_regions ≤ MOST_DATA_REGIONS }
    ensures number { result ≡ region_number widths data_regions table row.now }
    ensures among { result < NAME_REGIONS + data_regions }
{
    region_of(table, row, data_regions, widths) as usize
}
