//! Compacting the rows of a queue.
ghost use Rattle.std.specs.Prelude.{◌≡◌, ◌≤◌, ◌*◌, length};
ghost use Rattle.row_key.specs.declared.tables.Table.TheVariants.{Points};
ghost use Rattle.cell_model.specs.Stops.{CountsStops, is_stop};
ghost use Rattle.cell_model.specs.Deeds.{MadeSo};
ghost use Rattle.compactor.specs.Drains.{DrainMade, OneMade, RowMade};

use crate::compact::compact_row;
use crate::compaction::{CompactFault, Drained};
use crate::queue::Queue;
use cell_model::answers::RowsFault;
use cell_model::row::Row;
use cell_model::rows::Rows;
use std::alloc::Global;

/// Compacts a row, and answers whether it has a conflict.
fn compact_queued<R: Rows>(alloc: Global, rows: &mut R, row: &Row) -> Result<bool, RowsFault>
    requires { row.now.table ≡ Points }
    ensures made { MadeSo (R.seen rows.old) (RowMade row.now result) (R.seen rows.new) }
    ensures stops { CountsStops is_stop result (R.stops rows.old) (R.stops rows.new) }
{
    match compact_row(alloc, rows, row) {
        Ok(_) => Ok(false),
        Err(CompactFault::Conflict { .. }) => Ok(true),
        Err(CompactFault::OutOfMemory) => Err(RowsFault::OutOfMemory),
        Err(CompactFault::Stopped) => Err(RowsFault::Stopped),
    }
}

/// Compacts the first row of the queue, where its hour begins before the second `before`, takes it out, and answers whether it has a
/// conflict. After a fault it is still there.
fn drain_one<R: Rows>(
    alloc: Global,
    rows: &mut R,
    queue: &mut Queue,
    before: u32,
) -> Result<Option<bool>, RowsFault>
    ensures made { MadeSo (R.seen rows.old) (OneMade before queue.old result queue.new) (R.seen rows.new) }
    ensures stops { CountsStops is_stop result (R.stops rows.old) (R.stops rows.new) }
{
    let Ok(next) = queue.next_below(alloc, before) else {
        return Err(RowsFault::OutOfMemory);
    };
    let Some(row) = next else {
        return Ok(None);
    };
    let conflict = compact_queued(alloc, rows, &row)?;
    let _ = queue.pop();
    Ok(Some(conflict))
}

/// Compacts the rows of the queue whose hour begins before the second `before`, in order, at most `max` of them, and takes them out.
/// A row with a conflict is taken out too.
///
/// After a fault the row in hand is still in the queue, and those before it were done.
pub fn drain<R: Rows>(
    alloc: Global,
    rows: &mut R,
    queue: &mut Queue,
    before: u32,
    max: u32,
) -> Result<Drained, RowsFault>
    ensures made { MadeSo (R.seen rows.old) (DrainMade before max queue.old result queue.new) (R.seen rows.new) }
    ensures few { MadeSo (R.seen rows.old) (λ list. length list ≤ 3 * max) (R.seen rows.new) }
    ensures stops { CountsStops is_stop result (R.stops rows.old) (R.stops rows.new) }
{
    let mut conflicts = 0;
    for done in 0..max {
        let Some(conflict) = drain_one(alloc, rows, queue, before)? else {
            return Ok(Drained { done, conflicts });
        };
        conflicts += u32::from(conflict);
    }
    Ok(Drained {
        done: max,
        conflicts,
    })
}
