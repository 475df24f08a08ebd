//! The points of one row in a range of times.
ghost use Rattle.std.specs.Prelude.{◌+◌, ◌*◌, ◌<◌, ◌≤◌, All};
ghost use Rattle.qual_codec.specs.CellDots.{Reads};
ghost use Rattle.query_run.specs.RowDots.{DotsAsked};

use cell_model::row::Cells;
use metric_scan::fault::AskFault;
use qual_codec::MergeFault;
use row_hours::{HOUR_MILLIS, LAST_OFFSET};
use row_scan::timed_points;
use std::alloc::Global;
use tsd_base::dots::Dots;

/// The points of a row's cells with times from `start` to `end`, both included. The row's hour begins at the second `base`.
pub(crate) fn row_dots(
    alloc: Global,
    cells: &Cells,
    base: u32,
    start: u64,
    end: u64,
) -> Result<Dots, AskFault>
    requires reads { All (λ c. Reads c.qual c.value) cells.now }
    requires from_on { start < base * 1000 + HOUR_MILLIS }
    requires up_to { base * 1000 ≤ end }
    ensures { DotsAsked cells.now base start end result }
{
    let begin = base as u64 * 1000;
    let first = start.saturating_sub(begin) as u32;
    let last = (end - begin).min(LAST_OFFSET as u64) as u32;
    match timed_points(alloc, cells, base, first, last) {
        Ok(points) => Ok(points),
        Err(MergeFault::Conflict { offset, a, b }) => Err(AskFault::Duplicate {
            time: begin + offset as u64,
            a,
            b,
        }),
        Err(MergeFault::OutOfMemory) => Err(AskFault::OutOfMemory),
    }
}
