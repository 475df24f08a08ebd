//! The three counters, which contracts see as the cells of their row.
ghost use Rattle.std.specs.Prelude.{◌≡◌, ◌≤◌, ◌++◌, ℕ, map, IfOk, OnOk};
ghost use Rattle.tsd_base.specs.declared.kinds.Kind.{Kind};
ghost use Rattle.std.specs.Int.{w64, to_be_bytes};
ghost use Rattle.std.specs.FinMap.{empty, insert, entries};
ghost use Rattle.cell_model.specs.Machine.{kind_qual, counter_row};
ghost use Rattle.cell_model.specs.Counts.{line_of};
ghost use Rattle.map_body.specs.Whole.{placed};
ghost use Rattle.packed_cells.specs.Keyed.{cells_in, cell_from, stamped};
ghost use Rattle.map_body.specs.Counting.{number_in, shown};
ghost use Rattle.cell_model.specs.KindWidths.{most_ids};
ghost use Rattle.cell_model.specs.Rising.{IsAboveCells, LinesRise};

use crate::store_lines::add_line;
use cell_model::{Cells, LineList};
use row_key::Table;
use std::alloc::{AllocError, Global};
use std::marker::Model;
use tsd_base::kinds::Kind;

/// The greatest id given, 0 where none was, and the version of its cell.
#[derive(Clone, Copy, Drop)]
struct Counter {
    number: u32,
    version: u64,
}

/// The counters of the three kinds.
///
/// Contracts see them as the cells of their row. A counter that is 0 has no cell.
#[derive(Drop)]
pub struct Counters {
    metric: Counter,
    tag_key: Counter,
    tag_value: Counter,
}

impl Model for Counters {
    ghost use Rattle.packed_cells.specs.Keyed.{CellMap, coded_cells};

    ghost Value = { CellMap };

    ghost coded = { coded_cells };

    ghost use Rattle.map_body.specs.Counting.{AreCounts, counter_cells};

    ghost view = { λ c. counter_cells c.metric c.tag_key c.tag_value };

    ghost invariant = { λ c. AreCounts c.metric.number c.tag_key.number c.tag_value.number };
}

impl Counters {
    /// All counters are 0.
    pub fn make() -> Counters
        ensures { result ≡ empty }
    {
        let none = Counter {
            number: 0,
            version: 0,
        };
        Counters {
            metric: none,
            tag_key: none,
            tag_value: none,
        }
    }

    /// The counter of a kind.
    pub fn number(&self, kind: Kind) -> u32
        ensures { result ≡ number_in self.now kind }
    {
        match kind {
            Kind::Metric => self.metric.number,
            Kind::TagKey => self.tag_key.number,
            Kind::TagValue => self.tag_value.number,
        }
    }

    /// Sets the counter of a kind and the version of its cell.
    pub fn set(&mut self, kind: Kind, number: u32, version: u64)
        requires { 1 ≤ number }
        ensures { self.new ≡ insert self.old (kind_qual kind) (to_be_bytes w64 number, version) }
    {
        let counter = Counter { number, version };
        match kind {
            Kind::Metric => self.metric = counter,
            Kind::TagKey => self.tag_key = counter,
            Kind::TagValue => self.tag_value = counter,
        }
    }

    /// Sets the version of a kind's cell, if it is there.
    pub fn stamp(&mut self, kind: Kind, version: u64)
        ensures { self.new ≡ stamped self.old (kind_qual kind) version }
    {
        match kind {
            Kind::Metric => self.metric.version = version,
            Kind::TagKey => self.tag_key.version = version,
            Kind::TagValue => self.tag_value.version = version,
        }
    }

    /// The cells of the counters' row.
    pub fn cells(&self, alloc: Global) -> Result<Cells, AllocError>
        ensures { IfOk result (λ cells. cells ≡ cells_in self.now) }
    {
        let mut cells = Cells::make(alloc);
        push(&mut cells, Kind::Metric, self.metric)?;
        push(&mut cells, Kind::TagKey, self.tag_key)?;
        push(&mut cells, Kind::TagValue, self.tag_value)?;
        Ok(cells)
    }

    /// Adds the lines of the counters' row.
    pub fn list(&self, alloc: Global, listing: &mut LineList) -> Result<(), AllocError>
        requires { LinesRise (listing.old ++ map line_of (map (placed counter_row) (entries self.now))) }
        ensures { OnOk result (listing.new ≡ listing.old ++ map line_of (map (placed counter_row) (entries self.now))) }
    {
        add(listing, alloc, Kind::Metric, self.metric)?;
        add(listing, alloc, Kind::TagKey, self.tag_key)?;
        add(listing, alloc, Kind::TagValue, self.tag_value)?;
        Ok(())
    }
}

// Adds the line of a counter's cell, if it has one.
fn add(
    listing: &mut LineList,
    alloc: Global,
    kind: Kind,
    counter: Counter,
) -> Result<(), AllocError>
    requires { LinesRise (listing.old ++ map line_of (map (placed counter_row) (shown kind counter))) }
    ensures { OnOk result (listing.new ≡ listing.old ++ map line_of (map (placed counter_row) (shown kind counter))) }
{
    if counter.number == 0 {
        return Ok(());
    }
    let value = (counter.number as u64).to_be_bytes();
    add_line(listing, alloc, Table::Ids, b"\x00", name(kind), &value)?;
    Ok(())
}

// Adds a counter's cell, if it has one.
fn push(cells: &mut Cells, kind: Kind, counter: Counter) -> Result<(), AllocError>
    requires above { IsAboveCells (kind_qual kind) cells.old }
    ensures ok { OnOk result (cells.new ≡ cells.old ++ map cell_from (shown kind counter)) }
{
    if counter.number == 0 {
        return Ok(());
    }
    let value = (counter.number as u64).to_be_bytes();
    cells.push(name(kind), &value, counter.version)?;
    Ok(())
}

/// The qualifier of a kind's cells.
pub fn name(kind: Kind) -> &'static [u8]
    ensures { result.now ≡ kind_qual kind }
{
    match kind {
        Kind::Metric => b"metrics",
        Kind::TagKey => b"tagk",
        Kind::TagValue => b"tagv",
    }
}

/// The kind whose qualifier this is.
pub fn kind_of(qual: &[u8]) -> Kind
    requires { (kind : Kind) × (qual.now ≡ kind_qual kind) }
    ensures { qual.now ≡ kind_qual result }
{
    if qual == name(Kind::Metric) {
        Kind::Metric
    } else if qual == name(Kind::TagKey) {
        Kind::TagKey
    } else {
        Kind::TagValue
    }
}

/// The number of a counter's value.
pub fn number_of(value: &[u8]) -> u32
    requires { (number : ℕ) × (1 ≤ number) × (number ≤ most_ids 4) × (value.now ≡ to_be_bytes w64 number) }
    ensures value { value.now ≡ to_be_bytes w64 result }
    ensures least { 1 ≤ result }
{
    match value.first_chunk::<8>() {
        Some(bytes) => u64::from_be_bytes(*bytes) as u32,
        None => 1,
    }
}
