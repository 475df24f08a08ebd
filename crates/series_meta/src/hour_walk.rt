//! The rows of a series hour by hour, the latest first.
ghost use Rattle.std.specs.Prelude.{◌≡◌, ◌*◌, ◌≤◌, All};
ghost use Rattle.row_key.specs.Key.{IsKey};
ghost use Rattle.qual_codec.specs.CellDots.{Reads};
ghost use Rattle.cell_model.specs.Calls.{Leaves};
ghost use Rattle.cell_model.specs.Deeds.{MadeSo};
ghost use Rattle.cell_model.specs.Seen.{IsPossible};
ghost use Rattle.metric_scan.specs.AskFaults.{is_stop};
ghost use Rattle.series_meta.specs.HourWalks.{GivesPoint, RowSays, WalkSays, row_fault, row_point};

use crate::latest_dot::latest_dot;
use cell_model::{Cells, Rows};
use metric_scan::AskFault;
use point_put::point_cell::row_of;
use qual_codec::{Dot, MergeFault};
use row_hours::{HOUR, LAST_OFFSET};
use row_key::RowKey;
use std::alloc::Global;
use uid_table::Uids;

/// The point of a data point whose hour begins at this millisecond.
fn row_point(begin: u64, dot: Option<Dot>) -> Option<(u64, i64)>
    requires { begin ≤ 4294967295000 }
    ensures { result ≡ row_point begin dot }
{
    match dot {
        Some(dot) => Some((begin + dot.item.offset as u64, dot.value)),
        None => None,
    }
}

/// Why a row has no latest point.
fn row_fault(begin: u64, fault: MergeFault) -> AskFault
    requires { begin ≤ 4294967295000 }
    ensures { result ≡ row_fault begin fault }
{
    match fault {
        MergeFault::Conflict { offset, a, b } => AskFault::Duplicate {
            time: begin + offset as u64,
            a,
            b,
        },
        MergeFault::OutOfMemory => AskFault::OutOfMemory,
    }
}

/// The latest point of a row's cells up to a moment in milliseconds. The row's hour begins at the second `base`.
fn cells_latest(
    alloc: Global,
    cells: &Cells,
    base: u32,
    now: u64,
) -> Result<Option<(u64, i64)>, AskFault>
    requires reads { All (λ c. Reads c.qual c.value) cells.now }
    requires begun { base * 1000 ≤ now }
    ensures { GivesPoint cells.now base now result }
{
    let begin = base as u64 * 1000;
    let most = (now - begin).min(LAST_OFFSET as u64) as u32;
    match latest_dot(alloc, cells, most) {
        Ok(dot) => Ok(row_point(begin, dot)),
        Err(fault) => Err(row_fault(begin, fault)),
    }
}

/// The latest point up to a moment of the row of a key, by one read.
fn row_latest<R: Rows + Drop>(
    alloc: Global,
    names: &mut Uids<R>,
    key: &RowKey,
    now: u64,
) -> Result<Option<(u64, i64)>, AskFault>
    requires key { IsKey (R.seen names.old.rows).base.widths key.now }
    requires begun { key.now.base * 1000 ≤ now }
    requires possible { IsPossible (R.seen names.old.rows) }
    ensures says { MadeSo (R.seen names.old.rows) (RowSays (R.seen names.old.rows).base.widths key.now now result) (R.seen names.new.rows) }
    ensures leaves { Leaves is_stop result (R.seen names.new.rows) (R.stops names.old.rows) (R.stops names.new.rows) }
{
    let row = row_of(alloc, key, names.widths())?;
    let cells = names.read(alloc, &row)?;
    cells_latest(alloc, &cells, key.base, now)
}

/// The latest point of a series up to a moment, of the hour of this key and so many before it. It reads one row for each hour, the latest
/// first, and stops at the first with such a point.
pub(crate) fn walk<R: Rows + Drop>(
    alloc: Global,
    names: &mut Uids<R>,
    key: &mut RowKey,
    now: u64,
    back: u32,
) -> Result<Option<(u64, i64)>, AskFault>
    requires key { IsKey (R.seen names.old.rows).base.widths key.old }
    requires begun { key.old.base * 1000 ≤ now }
    requires back { back ≤ 8784 }
    requires possible { IsPossible (R.seen names.old.rows) }
    ensures says { WalkSays key.old now back (R.seen names.old.rows) result (R.seen names.new.rows) key.new }
    ensures leaves { Leaves is_stop result (R.seen names.new.rows) (R.stops names.old.rows) (R.stops names.new.rows) }
{
    let top = key.base;
    for gone in 0..back + 1 {
        let Some(base) = top.checked_sub(gone * HOUR) else {
            return Ok(None);
        };
        key.base = base;
        if let Some(point) = row_latest(alloc, names, key, now)? {
            return Ok(Some(point));
        }
    }
    Ok(None)
}
