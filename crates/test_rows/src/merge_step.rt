//! Cells that merge others of their row.
ghost use Rattle.std.specs.Prelude.{◌≡◌, Contains, IfSome, IsTrue};
ghost use Rattle.row_key.specs.declared.tables.Table.TheVariants.{Points};
ghost use Rattle.qual_codec.specs.declared.cells.Dot.{Dot};
ghost use Rattle.qual_codec.specs.CellDots.{IsDots};
ghost use Rattle.cell_model.specs.Lawful.{MergedBasis};
ghost use Rattle.cell_model.specs.Seen.{Seen, KnowsCell};
ghost use Rattle.test_rows.specs.Facts.{AllHold};
ghost use Rattle.test_rows.specs.Merges.{AllWithin, ShowsDots, StandsIn};

use crate::fact::Fact;
use cell_model::Row;
use qual_codec::{Dot, is_column, read_cell};
use row_key::Table;
use std::alloc::Global;

/// Whether a row is one of points.
pub fn is_points(row: &Row) -> bool
    ensures { IsTrue result → row.now.table ≡ Points }
{
    matches!(row.table, Table::Points)
}

fn is_same(a: &Dot, b: &Dot) -> bool
    ensures { IsTrue result → a.now ≡ b.now }
{
    a.item.offset == b.item.offset
        && a.item.fine == b.item.fine
        && a.item.len == b.item.len
        && a.value == b.value
}

fn contains(dots: &[Dot], dot: &Dot) -> bool
    ensures { IsTrue result → Contains dots.now dot.now }
{
    for other in dots {
        if is_same(other, dot) {
            return true;
        }
    }
    false
}

/// Whether each data point of the first is among the others.
pub fn all_within(low: &[Dot], high: &[Dot]) -> bool
    ensures { IsTrue result → AllWithin low.now high.now }
{
    for dot in low {
        if !contains(high, dot) {
            return false;
        }
    }
    true
}

/// The data points that a cell has by its items, if it reads and isn't the column of appends.
pub fn dots_by_items(alloc: Global, qual: &[u8], value: &[u8]) -> Option<Vec<Dot>>
    ensures { IfSome result (λ dots. IsDots qual.now value.now dots.items) }
{
    if is_column(qual) {
        return None;
    }
    match read_cell(alloc, qual, value) {
        Ok(dots) => Some(dots),
        Err(_) => None,
    }
}

/// The data points of a cell of the row that a fact shows, if it isn't the column.
pub fn dots_in(alloc: Global, fact: &Fact, row: &Row) -> Option<Vec<Dot>>
    ensures { IfSome result (λ dots. ShowsDots fact.now row.now dots.items) }
{
    match fact {
        Fact::Cell {
            row: of,
            qual,
            value,
            ..
        } if *of == *row => dots_by_items(alloc, qual.list(), value.list()),
        _ => None,
    }
}

/// Whether a cell of the row has the data point.
fn stands(alloc: Global, facts: &[Fact], row: &Row, dot: &Dot) -> bool
    ensures { IsTrue result → StandsIn facts.now row.now dot.now }
{
    for fact in facts {
        if let Some(dots) = dots_in(alloc, fact, row) {
            if contains(dots.as_slice(), dot) {
                return true;
            }
        }
    }
    false
}

fn all_stand(alloc: Global, facts: &[Fact], row: &Row, dots: &[Dot]) -> bool
    ensures { IsTrue result → ((d : Dot) → Contains dots.now d → StandsIn facts.now row.now d) }
{
    for dot in dots {
        if !stands(alloc, facts, row, dot) {
            return false;
        }
    }
    true
}

/// Whether the facts show that a cell may be merged into its row: it reads by its items, and each of its data points stood there in a
/// cell that does.
pub fn may_merge(facts: &[Fact], alloc: Global, row: &Row, qual: &[u8], value: &[u8]) -> bool
    ensures { IsTrue result → (s : Seen) → AllHold s facts.now → MergedBasis (KnowsCell s row.now) row.now qual.now value.now }
{
    if !is_points(row) {
        return false;
    }
    match dots_by_items(alloc, qual, value) {
        Some(dots) => all_stand(alloc, facts, row, dots.as_slice()),
        None => false,
    }
}
