//! The ranks of the ids of names.
ghost use Rattle.std.specs.Prelude.{◌≡◌, ◌≢◌, ◌<◌, ◌^◌, length, IfOk, OnOk, true, None, Some};
ghost use Rattle.std.specs.BTreeMap.{get};
ghost use Rattle.std.specs.Ordering.{nat_cmp};
ghost use Rattle.cell_model.specs.KindWidths.{IsWidth, kind_bytes, width_of};
ghost use Rattle.cell_model.specs.Machine.{kind_qual};
ghost use Rattle.cell_model.specs.Rising.{LinesRise};
ghost use Rattle.tsd_base.specs.declared.kinds.Kind.TheVariants.{Metric, TagKey, TagValue};
ghost use Rattle.listing_dump.specs.NameRanks.{AreRanks, HaveWidth, is_ids, is_name_of, AddsRank};

use cell_model::{ListLine, width_of};
use row_key::ids::id_of;
use row_key::{Table, Widths};
use std::alloc::{AllocError, Global};
use std::collections::BTreeMap;
use tsd_base::kinds::Kind;

/// The row of the counters.
const COUNTERS: &[u8] = b"\x00";

/// For the ids of each kind that names have the lines of these names, which rise by name.
#[derive(Drop)]
pub struct NameRanks {
    pub metrics: BTreeMap<u32, u32>,
    pub tag_keys: BTreeMap<u32, u32>,
    pub tag_values: BTreeMap<u32, u32>,
}

/// The qualifier of a kind.
fn qualifier(kind: Kind) -> &'static [u8]
    ensures { result.now ≡ kind_qual kind }
{
    match kind {
        Kind::Metric => b"metrics",
        Kind::TagKey => b"tagk",
        Kind::TagValue => b"tagv",
    }
}

/// Whether a table is that of ids.
fn is_ids(table: Table) -> bool
    ensures { result ≡ is_ids table }
{
    match table {
        Table::Ids => true,
        Table::Names => false,
        Table::Points => false,
    }
}

/// Whether a cell has the id of a name of a kind.
fn is_name_of(kind: Kind, cell: &ListLine) -> bool
    ensures { result ≡ is_name_of kind cell.now }
{
    is_ids(cell.table) && cell.qual.list() == qualifier(kind) && cell.row.list() != COUNTERS
}

/// Adds the rank of the id of a cell, if it is a name's. It fails only for want of memory.
fn add_rank(
    ranks: &mut BTreeMap<u32, u32>,
    widths: Widths,
    kind: Kind,
    cell: &ListLine,
    rank: u32,
) -> Result<(), AllocError>
    requires { is_name_of kind cell.now ≡ true → length cell.now.value ≡ width_of widths kind }
    ensures { OnOk result (AddsRank widths kind cell.now rank ranks.old ranks.new) }
{
    if is_name_of(kind, cell) {
        let id = id_of(cell.value.list(), width_of(kind, widths));
        ranks.insert(id, rank)?;
    }
    Ok(())
}

/// The ranks of the ids of a kind. It fails only for want of memory.
fn ranks_of(
    alloc: Global,
    widths: Widths,
    cells: &[ListLine],
    kind: Kind,
) -> Result<BTreeMap<u32, u32>, AllocError>
    requires few { length cells.now < 2 ^ 32 }
    requires rising { LinesRise cells.now }
    requires width { HaveWidth widths cells.now kind }
    ensures { IfOk result (AreRanks widths cells.now kind) }
{
    let mut ranks = BTreeMap::new(alloc);
    let mut at = 0;
    'names: while at < cells.len() && is_ids(cells[at].table) {
        add_rank(&mut ranks, widths, kind, &cells[at], at as u32)?;
        at += 1;
    }
    Ok(ranks)
}

impl NameRanks {
    /// The ranks of the ids of all kinds. It fails only for want of memory.
    pub fn of(alloc: Global, widths: Widths, cells: &[ListLine]) -> Result<NameRanks, AllocError>
        requires few { length cells.now < 2 ^ 32 }
        requires rising { LinesRise cells.now }
        requires metrics { HaveWidth widths cells.now Metric }
        requires tag_keys { HaveWidth widths cells.now TagKey }
        requires tag_values { HaveWidth widths cells.now TagValue }
        ensures metrics { IfOk result (λ ranks. AreRanks widths cells.now Metric ranks.metrics) }
        ensures tag_keys { IfOk result (λ ranks. AreRanks widths cells.now TagKey ranks.tag_keys) }
        ensures tag_values { IfOk result (λ ranks. AreRanks widths cells.now TagValue ranks.tag_values) }
    {
        let metrics = ranks_of(alloc, widths, cells, Kind::Metric)?;
        let tag_keys = ranks_of(alloc, widths, cells, Kind::TagKey)?;
        let tag_values = ranks_of(alloc, widths, cells, Kind::TagValue)?;
        Ok(NameRanks {
            metrics,
            tag_keys,
            tag_values,
        })
    }
}

/// The rank of an id that has one.
pub fn rank_of(ranks: &BTreeMap<u32, u32>, id: u32) -> u32
    requires { get nat_cmp ranks.now id ≢ None }
    ensures { get nat_cmp ranks.now id ≡ Some result }
{
    match ranks.get(&id) {
        Some(rank) => *rank,
        None => unreachable!(),
    }
}
