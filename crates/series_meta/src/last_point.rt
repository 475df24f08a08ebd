//! The last point of a series.
ghost use Rattle.std.specs.Prelude.{◌≡◌, ◌≤◌};
ghost use Rattle.tsd_base.specs.declared.times.TheConstants.{LAST_TIME};
ghost use Rattle.cell_model.specs.Calls.{Leaves};
ghost use Rattle.metric_scan.specs.AskFaults as steps;
ghost use Rattle.series_meta.specs.MetaFaults.{is_stop};
ghost use Rattle.series_meta.specs.LatestPoints.{FoundSays, LastSays};

use crate::hour_walk::walk;
use crate::meta_answers::Last;
use crate::meta_faults::{MetaFault, meta_fault};
use crate::series_row::{series_id, series_key};
use cell_model::Rows;
use metric_scan::AskFault;
use qual_codec::Bytes;
use std::alloc::Global;
use tsd_base::names::Name;
use tsd_base::tags::Tags;
use uid_table::Uids;

/// A point with the identifier of its series.
fn named(tsuid: Bytes, point: (u64, i64)) -> Last
    ensures { result ≡ record { tsuid = tsuid; time = point.0; value = point.1 } }
{
    Last {
        tsuid,
        time: point.0,
        value: point.1,
    }
}

/// The last point, by the faults of the steps.
fn find_last<R: Rows + Drop>(
    alloc: Global,
    names: &mut Uids<R>,
    metric: &Name,
    tags: &Tags,
    now: u64,
    back: u32,
) -> Result<Option<Last>, AskFault>
    requires now { now ≤ LAST_TIME }
    requires back { back ≤ 8784 }
    ensures says { FoundSays (record { metric = metric.now; tags = tags.now; now = now; back = back }) (R.seen names.old.rows) result (R.seen names.new.rows) }
    ensures leaves { Leaves steps.is_stop result (R.seen names.new.rows) (R.stops names.old.rows) (R.stops names.new.rows) }
{
    let mut key = series_key(alloc, names, metric, tags, now)?;
    let Some(point) = walk(alloc, names, &mut key, now, back)? else {
        return Ok(None);
    };
    let tsuid = series_id(alloc, &key, names.widths())?;
    Ok(Some(named(tsuid, point)))
}

/// The last point of a series up to the moment `now`, in its hour and the `back` hours before it. Times are in milliseconds.
///
/// The names are resolved first: the metric, and then each key before its value. Then it reads one row for each hour, the latest first, and
/// stops at the first that has a point up to the moment. So it makes at most `back + 2` steps, and two more for each tag.
///
/// `Unknown` exactly where its own read found no id of a name: it is the first such. `Duplicate` exactly where the row at which it stopped
/// has two values at its latest time up to the moment.
pub fn last<R: Rows + Drop>(
    alloc: Global,
    names: &mut Uids<R>,
    metric: &Name,
    tags: &Tags,
    now: u64,
    back: u32,
) -> Result<Option<Last>, MetaFault>
    requires now { now ≤ LAST_TIME }
    requires back { back ≤ 8784 }
    ensures says { LastSays (record { metric = metric.now; tags = tags.now; now = now; back = back }) (R.seen names.old.rows) result (R.seen names.new.rows) }
    ensures leaves { Leaves is_stop result (R.seen names.new.rows) (R.stops names.old.rows) (R.stops names.new.rows) }
{
    match find_last(alloc, names, metric, tags, now, back) {
        Ok(last) => Ok(last),
        Err(fault) => Err(meta_fault(fault)),
    }
}
