//! Working one sub query.
ghost use Rattle.std.specs.Prelude.{◌≡◌, ◌≤◌, List, All, IfOk};
ghost use Rattle.tsd_base.specs.declared.times.TheConstants.{LAST_TIME};
ghost use Rattle.query_text.specs.Subs.{CanDown};
ghost use Rattle.json_reply.specs.Replies.{IsReady};
ghost use Rattle.span_merge.specs.Spans.{Span};
ghost use Rattle.cell_model.specs.Stops.{CountsStops};
ghost use Rattle.metric_scan.specs.AskFaults.{is_stop};
ghost use Rattle.series_groups.specs.SeriesGroups.{IsWorkable};
ghost use Rattle.metric_scan.specs.RowNames.{known};
ghost use Rattle.query_run.specs.SubQuery.{AreCollected, GroupsSay, SubSays};

use crate::built_filters::built_filters;
use crate::collection::{Collected, collect};
use crate::series_tags::titled;
use crate::value_judges::value_judges;
use cell_model::rows::Rows;
use json_reply::reply::Group;
use lerp_aggregate::aggregation::AggFault;
use metric_scan::fault::AskFault;
use metric_scan::metric_rows::MetricRows;
use query_text::queries::{Query, Sub};
use row_scan::laws;
use series_groups::series_groups::{down_of, groups_of};
use std::alloc::Global;
use uid_table::uids::Uids;

/// The groups of the series of a sub query.
fn groups(
    alloc: Global,
    query: &Query,
    sub: &Sub,
    collected: Collected,
) -> Result<Vec<Group>, AskFault>
    requires works { IsWorkable query.now sub.now }
    requires collected { (spans : List Span) × AreCollected query.now sub.now collected spans }
    ensures says { (spans : List Span) → AreCollected query.now sub.now collected spans → GroupsSay query.now sub.now (known collected.names) spans result }
    ensures ready { IfOk result (λ groups. All IsReady groups.items) }
{
    let series = titled(alloc, collected)?;
    match groups_of(alloc, query, sub, series) {
        Ok(groups) => Ok(groups),
        Err(AggFault::Overflow { time }) => Err(AskFault::Overflow { time }),
        Err(AggFault::OutOfMemory) => Err(AskFault::OutOfMemory),
    }
}

/// Answers a sub query of a query.
pub(crate) fn work<R: Rows + Drop>(
    alloc: Global,
    names: &mut Uids<R>,
    query: &Query,
    sub: &Sub,
) -> Result<Vec<Group>, AskFault>
    requires order { query.now.start ≤ query.now.end }
    requires most { query.now.end ≤ LAST_TIME }
    requires down { CanDown query.now.ms sub.now }
    ensures says { SubSays query.now sub.now (R.seen names.old.rows) result (R.seen names.new.rows) }
    ensures ready { IfOk result (λ groups. All IsReady groups.items) }
    ensures stops { CountsStops is_stop result (R.stops names.old.rows) (R.stops names.new.rows) }
{
    laws::scan_covers();
    let built = built_filters(alloc, query, sub)?;
    let each = built.judges(alloc)?;
    let judges = value_judges(alloc, each)?;
    let how = down_of(query, sub);
    let rows = MetricRows::begin(alloc, names, sub, query.start, query.end)?;
    let collected = collect(alloc, names, rows, judges, how, query.start, query.end)?;
    groups(alloc, query, sub, collected)
}
