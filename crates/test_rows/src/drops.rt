//! Drops of cells that others of their row stand above.
ghost use Rattle.std.specs.Prelude.{◌≡◌, ℕ, List, IfOk, IfSome, IsTrue};
ghost use Rattle.row_key.specs.declared.tables.Table.TheVariants.{Points};
ghost use Rattle.qual_codec.specs.CellDots.{IsDots};
ghost use Rattle.cell_model.specs.Lawful.{DropBasis};
ghost use Rattle.cell_model.specs.Seen.{Seen, KnowsCell};
ghost use Rattle.test_rows.specs.Facts.{AllHold};
ghost use Rattle.test_rows.specs.Merges.{AllBelow, HasAbove, ShowsAbove};

use crate::fact::{Fact, last_value, last_version};
use crate::merge_step::{all_within, dots_by_items, dots_in, is_points};
use cell_model::{Drops, Row};
use qual_codec::{Bytes, Dot};
use std::alloc::{AllocError, Global};

/// Whether a fact shows a cell of the row of another qualifier that has each of these data points.
fn is_above(alloc: Global, fact: &Fact, row: &Row, qual: &[u8], low: &[Dot]) -> bool
    requires { (value : List ℕ) × IsDots qual.now value low.now }
    ensures { IsTrue result → ShowsAbove fact.now row.now qual.now }
{
    let Fact::Cell { qual: above, .. } = fact else {
        return false;
    };
    if above.list() == qual {
        return false;
    }
    match dots_in(alloc, fact, row) {
        Some(high) => all_within(low, high.as_slice()),
        None => false,
    }
}

/// Whether the facts show a cell of the row that is strictly above the one of this qualifier.
fn has_above(alloc: Global, facts: &[Fact], row: &Row, qual: &[u8]) -> bool
    ensures { IsTrue result → HasAbove facts.now row.now qual.now }
{
    let Some(value) = last_value(facts, row, qual) else {
        return false;
    };
    let Some(low) = dots_by_items(alloc, qual, value) else {
        return false;
    };
    for fact in facts {
        if is_above(alloc, fact, row, qual, low.as_slice()) {
            return true;
        }
    }
    false
}

/// What a drop of these cells of a point row names: each with the version that it was last read with. None where one of them wasn't
/// read, or the facts show no cell above it.
pub fn may_drop(
    facts: &[Fact],
    alloc: Global,
    row: &Row,
    quals: &[Bytes],
) -> Result<Option<Drops>, AllocError>
    ensures { IfOk result (λ found. IfSome found (λ which. (s : Seen) → AllHold s facts.now → DropBasis (KnowsCell s row.now) row.now which)) }
{
    if !is_points(row) {
        return Ok(None);
    }
    below(facts, alloc, row, quals)
}

/// The same, whatever the table.
fn below(
    facts: &[Fact],
    alloc: Global,
    row: &Row,
    quals: &[Bytes],
) -> Result<Option<Drops>, AllocError>
    ensures { IfOk result (λ found. IfSome found (AllBelow facts.now row.now)) }
{
    let mut which = Drops::make(alloc);
    for qual in quals {
        let Some(version) = last_version(facts, row, qual.list()) else {
            return Ok(None);
        };
        if !has_above(alloc, facts, row, qual.list()) {
            return Ok(None);
        }
        which.push(qual.again(alloc)?, version)?;
    }
    Ok(Some(which))
}
