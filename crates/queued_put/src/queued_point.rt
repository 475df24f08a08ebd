//! The put of a point whose row is queued.
ghost use Rattle.std.specs.Prelude.{◌≡◌, OnOk, OnErr, IfErr};
ghost use Rattle.tsd_base.specs.Points.{data_point};
ghost use Rattle.cell_model.specs.Calls.{Leaves};
ghost use Rattle.point_put.specs.Admissions.{admission};
ghost use Rattle.point_put.specs.PutFaults.{is_stop};
ghost use Rattle.queued_put.specs.QueuedPuts.{FailsQueued, PutsQueued};

use cell_model::rows::Rows;
use compactor::queue::Queue;
use point_put::{Config, PutFault, put};
use std::alloc::Global;
use tsd_base::points::Point;
use tsd_hooks::UidRule;
use uid_table::uids::Uids;

/// Puts a point, and adds its row to the queue. A fault leaves the queue as it was. Where there was no memory the point may stand in
/// the store, since its row may have found none in the queue.
pub fn put_queued<R: Rows + Drop>(
    alloc: Global,
    names: &mut Uids<R>,
    rule: &UidRule,
    config: &Config,
    queue: &mut Queue,
    point: &Point,
) -> Result<(), PutFault>
    ensures ok { OnOk result (PutsQueued (admission config.now rule.now.patterns) (data_point point.now) (R.seen names.old.rows) queue.old (R.seen names.new.rows) queue.new) }
    ensures err { IfErr result (λ fault. FailsQueued (admission config.now rule.now.patterns) (data_point point.now) (R.seen names.old.rows) fault (R.seen names.new.rows)) }
    ensures same { OnErr result (queue.new ≡ queue.old) }
    ensures leaves { Leaves is_stop result (R.seen names.new.rows) (R.stops names.old.rows) (R.stops names.new.rows) }
{
    let stored = put(alloc, names, rule, config, point)?;
    queue.add(&stored.row, stored.base)?;
    Ok(())
}
