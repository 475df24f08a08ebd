//! Putting a point.
ghost use Rattle.std.specs.Prelude.{◌≤◌, ◌+◌, ◌*◌, length};
ghost use Rattle.tsd_base.specs.Points.{data_point};
ghost use Rattle.uid_table.specs.IdSteps.{MadeSo};
ghost use Rattle.cell_model.specs.Calls.{Leaves};
ghost use Rattle.point_put.specs.Admissions.{admission};
ghost use Rattle.point_put.specs.PutFaults.{is_stop};
ghost use Rattle.point_put.specs.PutPoint.{PutSays};

use crate::config::Config;
use crate::fault::PutFault;
use crate::point_key::key_for;
use crate::put_cell::store;
use cell_model::answers::Stored;
use cell_model::rows::Rows;
use std::alloc::Global;
use tsd_base::points::Point;
use tsd_hooks::UidRule;
use uid_table::uids::Uids;

/// Puts a point by the ids of its names, and answers its row.
///
/// The names are the metric, then each tag in byte order of its key, key before value. One that has no id is given one where names of
/// its kind are and the rule allows it, else it refuses the point; a name that has an id is never asked of the rule. Then one step
/// writes the point: it puts a cell, or where points are appended it adds to the column of the row. A fault writes neither, and names that
/// were given ids before it keep them.
pub fn put<R: Rows + Drop>(
    alloc: Global,
    names: &mut Uids<R>,
    rule: &UidRule,
    config: &Config,
    point: &Point,
) -> Result<Stored, PutFault>
    ensures says { PutSays (admission config.now rule.now.patterns) (data_point point.now) (R.seen names.old.rows) result (R.seen names.new.rows) }
    ensures few { MadeSo (R.seen names.old.rows) (λ list. length list ≤ 4 * (1 + 2 * length point.now.tags) + 1) (R.seen names.new.rows) }
    ensures leaves { Leaves is_stop result (R.seen names.new.rows) (R.stops names.old.rows) (R.stops names.new.rows) }
{
    let key = key_for(names, alloc, rule, config, point)?;
    store(names, alloc, config, point, &key)
}
