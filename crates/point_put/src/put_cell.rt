//! Puts a point by the ids of its key, or in its row.
ghost use Rattle.std.specs.Prelude.{◌≤◌, OnOk, OnErr, IfErr};
ghost use Rattle.tsd_base.specs.Points.{data_point};
ghost use Rattle.cell_model.specs.declared.events.Step.TheVariants.{PutPoint};
ghost use Rattle.cell_model.specs.declared.events.Reply.TheVariants.{Written};
ghost use Rattle.cell_model.specs.Layout.{names_of};
ghost use Rattle.cell_model.specs.Seen.{IsPossible, Knows, RoseIfStopped, Stepped, Waited};
ghost use Rattle.cell_model.specs.Calls.{Leaves};
ghost use Rattle.uid_table.specs.PlacedPoints.{IsPlaced};
ghost use Rattle.point_put.specs.PutFaults.{is_stop};
ghost use Rattle.point_put.specs.ShownIds.{AllShown, KeyShown};
ghost use Rattle.point_put.specs.PutPoint.{StoreMade};
ghost use Rattle.cell_model.specs.Readings.{store_step};
ghost use Rattle.point_put.specs.StoredTexts.{answer_at, place_of};

use crate::config::Config;
use crate::fault::PutFault;
use crate::point_cell::{piece_of, qualifier_of, row_of, value_of};
use cell_model::answers::{RowsFault, Stored};
use cell_model::row::Row;
use cell_model::rows::Rows;
use qual_codec::Bytes;
use row_key::RowKey;
use std::alloc::Global;
use tsd_base::points::Point;
use uid_table::placed_point::PlacedPoint;
use uid_table::uids::Uids;

/// Puts a point in the row of its key.
pub fn store<R: Rows + Drop>(
    names: &mut Uids<R>,
    alloc: Global,
    config: &Config,
    point: &Point,
    key: &RowKey,
) -> Result<Stored, PutFault>
    requires key { KeyShown (R.seen names.old.rows) (data_point point.now) key.now }
    requires names { AllShown (R.seen names.old.rows) (names_of (data_point point.now)) }
    requires possible { IsPossible (R.seen names.old.rows) }
    ensures made { StoreMade config.now.appends (data_point point.now) (R.seen names.old.rows) result (R.seen names.new.rows) }
    ensures leaves { Leaves is_stop result (R.seen names.new.rows) (R.stops names.old.rows) (R.stops names.new.rows) }
{
    let row = row_of(alloc, key, names.widths())?;
    let value = value_of(point);
    let qual = qualifier_of(point, value.list());
    write_point(names, alloc, config.appends, point, &row, &qual, &value)?;
    Ok(Stored {
        row,
        base: key.base,
    })
}

/// Puts a point in the row where it is placed.
#[inline(always)]
pub fn store_placed<R: Rows + Drop>(
    names: &mut Uids<R>,
    alloc: Global,
    config: &Config,
    placed: &PlacedPoint,
) -> Result<(), PutFault>
    requires { IsPlaced (R.seen names.old.rows) placed.now }
    ensures made { StoreMade config.now.appends (data_point placed.now.point) (R.seen names.old.rows) (answer_at result (place_of placed.now)) (R.seen names.new.rows) }
    ensures leaves { Leaves is_stop result (R.seen names.new.rows) (R.stops names.old.rows) (R.stops names.new.rows) }
{
    let point = &placed.point;
    let value = value_of(point);
    let qual = qualifier_of(point, value.list());
    write_point(
        names,
        alloc,
        config.appends,
        point,
        &placed.row,
        &qual,
        &value,
    )?;
    Ok(())
}

/// Stores a point whose put is known to be allowed: as a cell, or where points are appended behind what stands in its row's column.
#[inline(always)]
fn write_point<R: Rows + Drop>(
    names: &mut Uids<R>,
    alloc: Global,
    appends: bool,
    point: &Point,
    row: &Row,
    qual: &Bytes,
    value: &Bytes,
) -> Result<(), RowsFault>
    requires { Knows (R.seen names.old.rows) (PutPoint (data_point point.now) row.now qual.now value.now) }
    ensures ok { OnOk result (Stepped (R.seen names.old.rows) (store_step appends (data_point point.now) row.now qual.now value.now) Written (R.seen names.new.rows)) }
    ensures err { OnErr result (Waited (R.seen names.old.rows) (R.seen names.new.rows)) }
    ensures possible { OnOk result (IsPossible (R.seen names.new.rows)) }
    ensures lives { OnErr result (IsPossible (R.seen names.old.rows) → IsPossible (R.seen names.new.rows)) }
    ensures grows { R.stops names.old.rows ≤ R.stops names.new.rows }
    ensures stopped { IfErr result (RoseIfStopped (R.stops names.old.rows) (R.stops names.new.rows)) }
{
    if appends {
        let piece = piece_of(qual.list(), value.list());
        names.append_point(alloc, point, row, &piece)
    } else {
        names.put_point(alloc, point, row, qual, value)
    }
}
