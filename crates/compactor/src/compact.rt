//! Compacting one row.
ghost use Rattle.std.specs.Prelude.{◌≡◌, ◌≤◌, All, length};
ghost use Rattle.qual_codec.specs.CellDots.{ReadsByItems};
ghost use Rattle.row_key.specs.declared.tables.Table.TheVariants.{Points};
ghost use Rattle.cell_model.specs.Deeds.{MadeSo};
ghost use Rattle.cell_model.specs.Calls.{Leaves};
ghost use Rattle.compactor.specs.CompactFaults.{is_stop};
ghost use Rattle.compactor.specs.Compaction.{CompactMade};
ghost use Rattle.compactor.specs.Plans.{IsPlan, KnowsEach, WriteMade};

use crate::compaction::{CompactFault, Compacted};
use crate::plan::{Plan, by_items, count_by_items, make_plan};
use cell_model::row::Row;
use cell_model::rows::Rows;
use qual_codec::CellRef;
use std::alloc::Global;

/// Writes the merged cell of a row, and then drops the others. Behind the write it needs no memory.
fn write<R: Rows>(
    alloc: Global,
    rows: &mut R,
    cells: &[CellRef],
    plan: Plan,
) -> Result<Compacted, CompactFault>
    requires points { plan.row.table ≡ Points }
    requires read { All (λ c. ReadsByItems c.qual c.value) cells.now }
    requires plan { IsPlan plan.row cells.now plan }
    requires known { KnowsEach (R.seen rows.old) plan.row cells.now }
    ensures made { MadeSo (R.seen rows.old) (WriteMade plan.row cells.now plan.merged.qual plan.merged.value result) (R.seen rows.new) }
    ensures leaves { Leaves is_stop result (R.seen rows.new) (R.stops rows.old) (R.stops rows.new) }
{
    let Plan { row, merged, drops } = plan;
    rows.put_merged(alloc, &row, &merged.qual, &merged.value)?;
    let dropped = rows.drop_cells(row, drops)?;
    Ok(Compacted::Merged {
        before: cells.len() as u64,
        dropped,
    })
}

/// Compacts a point row: reads it, writes the one cell that its cells become, and then drops each cell that was read but the one
/// with the merged qualifier. The column of appends counts for nothing here, and is left as it is.
///
/// A row with fewer than two other cells, and one with a conflict among them, is left as it is. All memory but the store's own is taken before the
/// write, so behind it only a stop keeps this from dropping the others. Others may step in between: what was read and written is
/// all that it rests on.
pub fn compact_row<R: Rows>(
    alloc: Global,
    rows: &mut R,
    row: &Row,
) -> Result<Compacted, CompactFault>
    requires { row.now.table ≡ Points }
    ensures made { MadeSo (R.seen rows.old) (CompactMade row.now result) (R.seen rows.new) }
    ensures few { MadeSo (R.seen rows.old) (λ list. length list ≤ 3) (R.seen rows.new) }
    ensures leaves { Leaves is_stop result (R.seen rows.new) (R.stops rows.old) (R.stops rows.new) }
{
    let cells = rows.read(alloc, row)?;
    if count_by_items(&cells) < 2 {
        return Ok(Compacted::Nothing);
    }
    let refs = by_items(alloc, &cells)?;
    let others = refs.as_slice();
    let plan = make_plan(alloc, row, others)?;
    write(alloc, rows, others, plan)
}
