//! Compacting each row of points of a store.
ghost use Rattle.std.specs.Prelude.{◌≡◌, ◌≤◌, true, OnOk};
ghost use Rattle.row_key.specs.declared.tables.Table.TheVariants.{Points};
ghost use Rattle.row_key.specs.IdWidths.{most_ids};
ghost use Rattle.cell_model.specs.Calls.{Leaves};
ghost use Rattle.cell_model.specs.Seen.{IsPossible};
ghost use Rattle.cell_model.specs.Stops.{CountsStops, is_stop};
ghost use Rattle.import_job.specs.Changes.{Changes, CompactsAll, CompactsMetric, CompactsRow};

use crate::counter::metric_count;
use cell_model::answers::RowsFault;
use cell_model::row::Row;
use cell_model::rows::Rows;
use compactor::{CompactFault, compact_row};
use row_scan::Scan;
use std::alloc::Global;

/// Compacts each row of points once, in order of rows. The caller steps alone. A row with a conflict stays as it is.
pub(crate) fn compact_rows<R: Rows>(alloc: Global, rows: &mut R) -> Result<(), RowsFault>
    requires alone { (R.seen rows.old).alone ≡ true }
    requires possible { IsPossible (R.seen rows.old) }
    ensures compacts { OnOk result (Changes CompactsAll (R.seen rows.old) (R.seen rows.new)) }
    ensures stops { CountsStops is_stop result (R.stops rows.old) (R.stops rows.new) }
{
    let count = metric_count(alloc, rows)?;
    for before in 0..count {
        compact_metric(alloc, rows, before + 1)?;
    }
    Ok(())
}

/// Compacts each row of a metric.
fn compact_metric<R: Rows>(alloc: Global, rows: &mut R, metric: u32) -> Result<(), RowsFault>
    requires fits { metric ≤ most_ids (R.seen rows.old).base.widths.metric }
    requires alone { (R.seen rows.old).alone ≡ true }
    requires possible { IsPossible (R.seen rows.old) }
    ensures compacts { OnOk result (Changes (CompactsMetric metric) (R.seen rows.old) (R.seen rows.new)) }
    ensures leaves { Leaves is_stop result (R.seen rows.new) (R.stops rows.old) (R.stops rows.new) }
{
    let mut scan = Scan::start(metric, 0, u32::MAX, rows.widths());
    for _ in 0..u64::MAX {
        let Some(found) = scan.turn(alloc, rows)? else {
            return Ok(());
        };
        compact_found(alloc, rows, &found.row)?;
    }
    Err(RowsFault::OutOfMemory)
}

/// Compacts one row.
fn compact_found<R: Rows>(alloc: Global, rows: &mut R, row: &Row) -> Result<(), RowsFault>
    requires points { row.now.table ≡ Points }
    requires alone { (R.seen rows.old).alone ≡ true }
    requires possible { IsPossible (R.seen rows.old) }
    ensures compacts { OnOk result (Changes (CompactsRow row.now) (R.seen rows.old) (R.seen rows.new)) }
    ensures leaves { Leaves is_stop result (R.seen rows.new) (R.stops rows.old) (R.stops rows.new) }
{
    match compact_row(alloc, rows, row) {
        Ok(_) => Ok(()),
        Err(CompactFault::Conflict { .. }) => Ok(()),
        Err(CompactFault::OutOfMemory) => Err(RowsFault::OutOfMemory),
        Err(CompactFault::Stopped) => Err(RowsFault::Stopped),
    }
}
