//! Putting a point, and the next ones of its series.
ghost use Rattle.std.specs.Prelude.{◌≡◌, ◌≤◌, length, IfOk};
ghost use Rattle.tsd_base.specs.Moments.{IsTime};
ghost use Rattle.tsd_base.specs.Points.{data_point};
ghost use Rattle.row_key.specs.Key.{IsKey, key_bytes};
ghost use Rattle.cell_model.specs.Readings.{point_row};
ghost use Rattle.cell_model.specs.Calls.{Leaves};
ghost use Rattle.uid_table.specs.IdSteps.{MadeSo};
ghost use Rattle.uid_table.specs.PlacedPoints.{IsPlaced};
ghost use Rattle.point_put.specs.Admissions.{Admission, admission};
ghost use Rattle.point_put.specs.PutFaults.{is_stop};
ghost use Rattle.point_put.specs.PutPoint.{PutSays};
ghost use Rattle.point_put.specs.StoredTexts.{answer_at, place_of, put_answer};
ghost use Rattle.point_put.specs.TextPuts.{IsFewFor, point_at};

use crate::config::Config;
use crate::fault::PutFault;
use crate::point_cell::row_of;
use crate::point_key::key_for;
use crate::put_cell::store_placed;
use cell_model::rows::Rows;
use row_key::{RowKey, Widths};
use std::alloc::{AllocError, Global};
use tsd_base::points::Point;
use tsd_hooks::UidRule;
use uid_table::placed_point::PlacedPoint;
use uid_table::uids::Uids;

/// Puts a point as [`put`](crate::put) does, and answers it with its row, so that the next of its series may be put by [`put_next`].
pub fn put_first<R: Rows + Drop>(
    alloc: Global,
    names: &mut Uids<R>,
    rule: &UidRule,
    config: &Config,
    point: Point,
) -> Result<PlacedPoint, PutFault>
    ensures says { PutSays (admission config.now rule.now.patterns) (data_point point) (R.seen names.old.rows) (put_answer result) (R.seen names.new.rows) }
    ensures placed { IfOk result (λ placed. IsPlaced (R.seen names.new.rows) placed × (placed.point ≡ point)) }
    ensures few { MadeSo (R.seen names.old.rows) (IsFewFor (data_point point)) (R.seen names.new.rows) }
    ensures leaves { Leaves is_stop result (R.seen names.new.rows) (R.stops names.old.rows) (R.stops names.new.rows) }
{
    let key = key_for(names, alloc, rule, config, &point)?;
    let Ok(placed) = place(alloc, point, &key, names.widths()) else {
        return Err(PutFault::OutOfMemory);
    };
    match store_placed(names, alloc, config, &placed) {
        Ok(()) => Ok(placed),
        Err(fault) => Err(fault),
    }
}

/// A point in the row of its key.
fn place(
    alloc: Global,
    point: Point,
    key: &RowKey,
    widths: Widths,
) -> Result<PlacedPoint, AllocError>
    requires { IsKey widths key.now }
    ensures point { IfOk result (λ placed. placed.point ≡ point) }
    ensures row { IfOk result (λ placed. (placed.row ≡ point_row (key_bytes widths key.now)) × (key.now.base ≡ placed.base) × (widths.metric ≡ placed.metric_width)) }
{
    let row = row_of(alloc, key, widths)?;
    Ok(PlacedPoint {
        point,
        row,
        base: key.base,
        metric_width: widths.metric,
    })
}

/// Puts another point of the series, which takes the place of the one before. One step writes it, as [`put`](crate::put) does, and
/// nothing is asked: an id of each of its names was seen.
///
/// Where there was no memory or the caller was stopped, nothing was written, and the next point may be put all the same.
#[inline]
pub fn put_next<R: Rows + Drop>(
    alloc: Global,
    names: &mut Uids<R>,
    config: &Config,
    placed: &mut PlacedPoint,
    time: u64,
    fine: bool,
    value: i64,
) -> Result<(), PutFault>
    requires timed { IsTime time fine }
    requires placed { IsPlaced (R.seen names.old.rows) placed.old }
    ensures says { (c : Admission) → c.config.appends ≡ config.now.appends → PutSays c (point_at (data_point placed.old.point) time fine value) (R.seen names.old.rows) (answer_at result (place_of placed.new)) (R.seen names.new.rows) }
    ensures placed { IsPlaced (R.seen names.new.rows) placed.new }
    ensures metric { placed.new.point.metric ≡ placed.old.point.metric }
    ensures tags { placed.new.point.tags ≡ placed.old.point.tags }
    ensures few { MadeSo (R.seen names.old.rows) (λ list. length list ≤ 1) (R.seen names.new.rows) }
    ensures leaves { Leaves is_stop result (R.seen names.new.rows) (R.stops names.old.rows) (R.stops names.new.rows) }
{
    let Ok(()) = placed.refill(alloc, time, fine, value) else {
        return Err(PutFault::OutOfMemory);
    };
    store_placed(names, alloc, config, placed)
}
