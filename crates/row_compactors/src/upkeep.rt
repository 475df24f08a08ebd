//! Rows whose caller only compacts.
ghost use Rattle.std.specs.Prelude.{◌≡◌};
ghost use Rattle.row_compactors.specs.Upkeep.{BroughtNothing};

use cell_model::rows::Rows;
use compactor::queue::Queue;
use compactor::queue_drain::drain;
use std::alloc::Global;

/// How many rows are compacted at most when some came.
const MOST_AT_ONCE: u32 = 1_000;

/// Rows of one caller that opened, and has only compacted since then: it brought nothing new.
#[derive(Drop)]
pub struct Upkeep<R: Rows + Drop> {
    rows: R,
    ghost nothing_new: { BroughtNothing (R.seen rows) (R.seen rows).caller },
}

impl<R: Rows + Drop> Upkeep<R> {
    /// These rows, whose caller has brought nothing new.
    pub(crate) fn of(rows: R) -> Self
        requires { BroughtNothing (R.seen rows) (R.seen rows).caller }
    {
        Upkeep { rows }
    }

    /// Compacts the first rows of a queue whose hours begin before this second. After a fault the others are left in the queue.
    pub(crate) fn compact(&mut self, alloc: Global, queue: &mut Queue, before: u32) {
        let _ = drain(alloc, &mut self.rows, queue, before, MOST_AT_ONCE);
    }

    /// The rows.
    pub(crate) fn part(self) -> R
        ensures { BroughtNothing (R.seen result) (R.seen result).caller }
    {
        let Upkeep { rows } = self;
        rows
    }
}
