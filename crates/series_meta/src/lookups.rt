//! The series of a metric that pass filters.
ghost use Rattle.std.specs.Prelude.{[]};
ghost use Rattle.cell_model.specs.Calls.{Leaves};
ghost use Rattle.cell_model.specs.Seen.{IsPossible};
ghost use Rattle.metric_scan.specs.AskFaults as steps;
ghost use Rattle.metric_scan.specs.Walks.{HasWalked, RowRange, names_of, picks_of};
ghost use Rattle.series_meta.specs.MetaFaults.{is_stop};
ghost use Rattle.series_meta.specs.Lookups.{FindSays, LookupSays};
ghost use Rattle.series_meta.specs.SeriesTimes.{CountSays};

use crate::lookup_text::has_text_test;
use crate::meta_answers::Line;
use crate::meta_faults::{MetaFault, meta_fault};
use crate::series_counts::{SeriesCounts, count_row};
use crate::series_lines::{all_lines, first_lines};
use cell_model::Rows;
use metric_scan::{AskFault, MetricRows, RowTurn};
use query_text::queries::Sub;
use row_scan::laws;
use std::alloc::Global;
use std::collections::BTreeMap;
use uid_table::Uids;

/// The last time that a point may have, in milliseconds.
const LAST: u64 = 4_294_967_295_999;

/// At how many times the series of the rows have points, of those that are picked.
fn count_rows<R: Rows + Drop>(
    alloc: Global,
    names: &mut Uids<R>,
    rows: &mut MetricRows,
) -> Result<SeriesCounts, AskFault>
    requires begun { (r : RowRange) × HasWalked r [] [] rows.old (R.seen names.old.rows) }
    requires possible { IsPossible (R.seen names.old.rows) }
    ensures says { (r : RowRange) → HasWalked r [] [] rows.old (R.seen names.old.rows) → CountSays r (picks_of rows.old) result (names_of rows.new) (R.seen names.new.rows) }
    ensures leaves { Leaves steps.is_stop result (R.seen names.new.rows) (R.stops names.old.rows) (R.stops names.new.rows) }
{
    let mut series = SeriesCounts {
        metric: 0,
        counts: BTreeMap::new(alloc),
    };
    for _ in 0..u64::MAX {
        match rows.turn(alloc, names)? {
            RowTurn::End => return Ok(series),
            RowTurn::Passed => {}
            RowTurn::Picked { key, found } => count_row(alloc, key, found, &mut series)?,
        }
    }
    Err(AskFault::OutOfMemory)
}

/// The lines, by the faults of the steps.
fn find_series<R: Rows + Drop>(
    alloc: Global,
    names: &mut Uids<R>,
    sub: &Sub,
    limit: u32,
) -> Result<Vec<Line>, AskFault>
    ensures says { FindSays (record { sub = sub.now; limit = limit }) (R.seen names.old.rows) result (R.seen names.new.rows) }
    ensures leaves { Leaves steps.is_stop result (R.seen names.new.rows) (R.stops names.old.rows) (R.stops names.new.rows) }
{
    if has_text_test(sub.filters.list()) {
        return Err(AskFault::OutOfMemory);
    }
    laws::scan_is_whole();
    let mut rows = MetricRows::begin(alloc, names, sub, 0, LAST)?;
    let series = count_rows(alloc, names, &mut rows)?;
    let lines = all_lines(alloc, &rows, series.metric, series.counts, names.widths())?;
    Ok(first_lines(lines, limit)?)
}

/// The first `limit` series of a metric whose tags pass filters, in the order of their tags' pairs, each with its identifier and with how many
/// times it has points at. Only the metric and the filters of `sub` count.
///
/// The names are resolved first: the metric, and then each filter's key before its names. Then it goes through the rows of the metric. A series
/// without a point isn't told, and several values at one time count once.
///
/// `Unknown` exactly where its own read found no id of a name: it is the first such. `Duplicate` never comes. Filters that test the text of a
/// value, which `read_series` refuses, are answered by want of memory.
pub fn lookup<R: Rows + Drop>(
    alloc: Global,
    names: &mut Uids<R>,
    sub: &Sub,
    limit: u32,
) -> Result<Vec<Line>, MetaFault>
    ensures says { LookupSays (record { sub = sub.now; limit = limit }) (R.seen names.old.rows) result (R.seen names.new.rows) }
    ensures leaves { Leaves is_stop result (R.seen names.new.rows) (R.stops names.old.rows) (R.stops names.new.rows) }
{
    match find_series(alloc, names, sub, limit) {
        Ok(lines) => Ok(lines),
        Err(fault) => Err(meta_fault(fault)),
    }
}
