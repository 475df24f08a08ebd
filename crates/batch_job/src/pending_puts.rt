//! The points of all series, put into the store.
ghost use Rattle.std.specs.Prelude.{◌≡◌, ◌∷◌, [], All, IfOk, OnOk};
ghost use Rattle.cell_model.specs.Layout.{names_of};
ghost use Rattle.cell_model.specs.Stops.{CountsStops, is_stop};
ghost use Rattle.tsd_base.specs.Moments.{IsTime};
ghost use Rattle.tsd_base.specs.Points.{data_point};
ghost use Rattle.uid_table.specs.PlacedPoints.{IsPlaced};
ghost use Rattle.point_put.specs.TextPuts.{point_at};
ghost use Rattle.batch_job.specs.NotedIds.{names_in};
ghost use Rattle.point_lines.specs.OpenRules.{AllowsAll};
ghost use Rattle.batch_job.specs.PendingPuts.{Adds, AreResolved, AreTimes, MayPut, PutsAll, points_in};
ghost use Rattle.batch_job.specs.PendingSeries.{all_values};
ghost use Rattle.batch_job.specs.Storing.{IsAlone};

use crate::last_values::{is_rising, put_in_order};
use crate::pending_series::PendingSeries;
use crate::series_values::Values;
use cell_model::Rows;
use cell_model::answers::RowsFault;
use indexmap::IndexMap;
use point_put::{Config, PutFault, put_first, put_next};
use std::alloc::Global;
use tsd_base::names::Name;
use tsd_base::points::Point;
use tsd_base::tags::Tags;
use tsd_hooks::UidRule;
use uid_table::{PlacedPoint, Uids};

/// Names of each kind are given ids, which all of them have already, and points aren't appended.
const ALL_KINDS: Config = Config {
    auto_metric: true,
    auto_tag_key: true,
    auto_tag_value: true,
    appends: false,
};

/// Puts the points of all series: of each series at each time in each form the last value. The rule is one that allows each name.
pub fn put_all<R: Rows + Drop>(
    alloc: Global,
    store: &mut Uids<R>,
    rule: &UidRule,
    series: IndexMap<((Name, Tags), bool), PendingSeries>,
) -> Result<(), RowsFault>
    requires allows { AllowsAll rule.now.patterns }
    requires by { IsAlone (R.seen store.old.rows) }
    requires may { All (MayPut (R.seen store.old.rows)) (all_values series.entries) }
    ensures puts { OnOk result (PutsAll (R.seen store.old.rows) (all_values series.entries) (R.seen store.new.rows)) }
    ensures stops { CountsStops is_stop result (R.stops store.old.rows) (R.stops store.new.rows) }
{
    for (name, pending) in series {
        let ((metric, tags), fine) = name;
        let values = pending.into_values();
        put_series(alloc, store, rule, metric, tags, fine, &values)?;
    }
    Ok(())
}

/// Puts the points of one series in one form: at each time the last value. Values that came in order of time are taken as they are.
fn put_series<R: Rows + Drop>(
    alloc: Global,
    store: &mut Uids<R>,
    rule: &UidRule,
    metric: Name,
    tags: Tags,
    fine: bool,
    values: &Values,
) -> Result<(), RowsFault>
    requires allows { AllowsAll rule.now.patterns }
    requires may { MayPut (R.seen store.old.rows) (((metric, tags), fine), values.now) }
    ensures puts { OnOk result (PutsAll (R.seen store.old.rows) ((((metric, tags), fine), values.now) ∷ []) (R.seen store.new.rows)) }
    ensures stops { CountsStops is_stop result (R.stops store.old.rows) (R.stops store.new.rows) }
{
    if is_rising(values.list()) {
        return put_dots(alloc, store, rule, metric, tags, fine, values.list());
    }
    let Ok(dots) = put_in_order(alloc, values.list()) else {
        return Err(RowsFault::OutOfMemory);
    };
    put_dots(alloc, store, rule, metric, tags, fine, dots.list())
}

/// Puts these points of one series in one form: the first one by the ids of its names, and the others in its rows.
fn put_dots<R: Rows + Drop>(
    alloc: Global,
    store: &mut Uids<R>,
    rule: &UidRule,
    metric: Name,
    tags: Tags,
    fine: bool,
    dots: &[(u64, i64)],
) -> Result<(), RowsFault>
    requires allows { AllowsAll rule.now.patterns }
    requires times { AreTimes fine dots.now }
    requires resolved { AreResolved (R.seen store.old.rows) (names_in metric tags) }
    ensures adds { OnOk result (Adds (R.seen store.old.rows) (points_in metric tags fine dots.now) (R.seen store.new.rows)) }
    ensures stops { CountsStops is_stop result (R.stops store.old.rows) (R.stops store.new.rows) }
{
    let Some((first, others)) = dots.split_first() else {
        return Ok(());
    };
    let point = Point {
        metric,
        tags,
        time: first.0,
        fine,
        value: first.1,
    };
    let mut placed = put_one(alloc, store, rule, point)?;
    put_others(alloc, store, &mut placed, fine, others)
}

/// Puts other points of the series of one that was put.
fn put_others<R: Rows + Drop>(
    alloc: Global,
    store: &mut Uids<R>,
    placed: &mut PlacedPoint,
    fine: bool,
    values: &[(u64, i64)],
) -> Result<(), RowsFault>
    requires times { AreTimes fine values.now }
    requires placed { IsPlaced (R.seen store.old.rows) placed.old }
    requires resolved { AreResolved (R.seen store.old.rows) (names_of (data_point placed.old.point)) }
    ensures adds { OnOk result (Adds (R.seen store.old.rows) (points_in placed.old.point.metric placed.old.point.tags fine values.now) (R.seen store.new.rows)) }
    ensures stops { CountsStops is_stop result (R.stops store.old.rows) (R.stops store.new.rows) }
{
    for &(time, value) in values {
        put_other(alloc, store, placed, time, fine, value)?;
    }
    Ok(())
}

/// Puts a point whose names have ids, and answers it with its row.
fn put_one<R: Rows + Drop>(
    alloc: Global,
    store: &mut Uids<R>,
    rule: &UidRule,
    point: Point,
) -> Result<PlacedPoint, RowsFault>
    requires allows { AllowsAll rule.now.patterns }
    requires resolved { AreResolved (R.seen store.old.rows) (names_of (data_point point)) }
    ensures adds { OnOk result (Adds (R.seen store.old.rows) (data_point point ∷ []) (R.seen store.new.rows)) }
    ensures placed { IfOk result (λ placed. IsPlaced (R.seen store.new.rows) placed) }
    ensures point { IfOk result (λ placed. placed.point ≡ point) }
    ensures stops { CountsStops is_stop result (R.stops store.old.rows) (R.stops store.new.rows) }
{
    match put_first(alloc, store, rule, &ALL_KINDS, point) {
        Ok(placed) => Ok(placed),
        Err(PutFault::Unknown { .. }) => unreachable!(),
        Err(PutFault::Filtered { .. }) => unreachable!(),
        Err(PutFault::Exhausted { .. }) => unreachable!(),
        Err(PutFault::OutOfMemory) => Err(RowsFault::OutOfMemory),
        Err(PutFault::Stopped) => Err(RowsFault::Stopped),
    }
}

/// Puts another point of the series of one that was put.
#[inline]
fn put_other<R: Rows + Drop>(
    alloc: Global,
    store: &mut Uids<R>,
    placed: &mut PlacedPoint,
    time: u64,
    fine: bool,
    value: i64,
) -> Result<(), RowsFault>
    requires timed { IsTime time fine }
    requires placed { IsPlaced (R.seen store.old.rows) placed.old }
    requires resolved { AreResolved (R.seen store.old.rows) (names_of (data_point placed.old.point)) }
    ensures adds { OnOk result (Adds (R.seen store.old.rows) (point_at (data_point placed.old.point) time fine value ∷ []) (R.seen store.new.rows)) }
    ensures placed { IsPlaced (R.seen store.new.rows) placed.new }
    ensures metric { placed.new.point.metric ≡ placed.old.point.metric }
    ensures tags { placed.new.point.tags ≡ placed.old.point.tags }
    ensures stops { CountsStops is_stop result (R.stops store.old.rows) (R.stops store.new.rows) }
{
    match put_next(alloc, store, &ALL_KINDS, placed, time, fine, value) {
        Ok(()) => Ok(()),
        Err(PutFault::Unknown { .. }) => unreachable!(),
        Err(PutFault::Filtered { .. }) => unreachable!(),
        Err(PutFault::Exhausted { .. }) => unreachable!(),
        Err(PutFault::OutOfMemory) => Err(RowsFault::OutOfMemory),
        Err(PutFault::Stopped) => Err(RowsFault::Stopped),
    }
}
