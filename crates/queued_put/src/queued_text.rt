//! The queue of rows, for a point that was put by its text.
ghost use Rattle.std.specs.Prelude.{◌≡◌, OnOk, OnErr};
ghost use Rattle.row_key.specs.declared.tables.Table.TheVariants.{Points};
ghost use Rattle.point_put.specs.StoredTexts.{MayBeKept, stored_at};
ghost use Rattle.queued_put.specs.QueuedPuts.{WasAdded};

use cell_model::rows::Rows;
use compactor::queue::Queue;
use point_put::StoredText;
use std::alloc::AllocError;
use uid_table::uids::Uids;

/// Adds the row of a point that was put by its text to the queue, and gives the series back that the answer holds. It fails only for want
/// of memory for the row, and then leaves the queue as it was.
#[inline]
pub fn queue_stored<R: Rows + Drop>(
    names: &mut Uids<R>,
    queue: &mut Queue,
    stored: StoredText,
) -> Result<(), AllocError>
    requires points { (stored_at stored).row.table ≡ Points }
    requires kept { MayBeKept (R.seen names.old.rows) stored }
    ensures names { names.new ≡ names.old }
    ensures ok { OnOk result (WasAdded queue.old (stored_at stored) queue.new) }
    ensures same { OnErr result (queue.new ≡ queue.old) }
{
    let added = queue.add(stored.row(), stored.base());
    stored.keep(names);
    match added {
        Ok(_) => Ok(()),
        Err(fault) => Err(fault),
    }
}
