//! Compaction workers, and the rows that are sent to them.
ghost use Rattle.std.specs.Prelude.{◌≡◌, []};
ghost use Rattle.row_compactors.specs.DueRows.{due_before};

use crate::upkeep::Upkeep;
use cell_model::rows::Rows;
use compactor::queue::Queue;
use crossbeam_channel::{Receiver, Sender};
use row_hours::{HOUR_MILLIS, base_of};
use std::alloc::Global;
use std::mem::replace;
use std::sync::Wait;
use tsd_base::times::LAST_TIME;
use tsd_io::clock::Clock;

/// A compaction worker: rows of one caller, and the rows of points that it compacts.
#[derive(Drop)]
pub struct RowCompactor<R: Rows + Drop, C: Clock + Drop> {
    /// The rows, whose caller only compacts.
    pub(crate) rows: Upkeep<R>,

    /// Rows of points that came and are to be compacted.
    pub(crate) queue: Queue,

    /// A twin of the fleet's clock.
    pub(crate) clock: C,

    /// Where rows of points come from.
    pub(crate) rows_from: Receiver<Queue>,

    /// Where memory comes from.
    pub(crate) alloc: Global,
}

/// Where rows of points go that are to be compacted.
pub trait RowsTo {
    /// Sends the rows of a queue, which is empty afterwards. Where there is no memory they aren't sent, and so not compacted.
    fn send(&self, alloc: Global, queue: &mut Queue)
        ensures { queue.new ≡ [] };
}

/// A compaction worker, as those see it who send rows to it.
#[derive(Drop)]
pub struct ToCompactor<'a, T: Wait> {
    /// What waits.
    pub rt: &'a T,

    /// Where the rows go.
    pub rows_to: &'a Sender<Queue>,
}

impl<'a, T: Wait> RowsTo for ToCompactor<'a, T> {
    fn send(&self, alloc: Global, queue: &mut Queue) {
        send_rows(self.rt, alloc, queue, self.rows_to);
    }
}

/// Sends the rows of a queue, which is empty afterwards.
fn send_rows<T: Wait>(rt: &T, alloc: Global, queue: &mut Queue, rows_to: &Sender<Queue>)
    ensures { queue.new ≡ [] }
{
    if queue.len() == 0 {
        return;
    }
    let rows = replace(queue, Queue::make(alloc));
    let _ = rows_to.send(rt, rows);
}

/// Compacts the rows that come, until nobody is left to send any and all that were sent have come.
pub(crate) fn compact_rows<R: Rows + Drop, C: Clock + Drop, T: Wait>(
    rt: &T,
    worker: &mut RowCompactor<R, C>,
) {
    for _ in rt.forever() {
        let Ok(sent) = worker.rows_from.recv(rt) else {
            return;
        };
        add_rows(&mut worker.queue, sent);
        compact_due(worker);
    }
}

/// Adds rows to a queue. One for which there is no memory isn't added.
fn add_rows(queue: &mut Queue, sent: Queue) {
    let mut sent = sent;
    while let Some(stored) = sent.pop() {
        let _ = queue.add(&stored.row, stored.base);
    }
}

/// Compacts the first rows whose hours are over for an hour or longer. Where the clock fails it does nothing.
fn compact_due<R: Rows + Drop, C: Clock + Drop>(worker: &mut RowCompactor<R, C>) {
    let Ok(moment) = worker.clock.now() else {
        return;
    };
    let before = due_before(moment);
    worker.rows.compact(worker.alloc, &mut worker.queue, before);
}

/// The second before which an hour begins whose rows are compacted at a moment, in milliseconds since 1970.
fn due_before(moment: u64) -> u32
    ensures { result ≡ due_before moment }
{
    base_of(moment.saturating_sub(HOUR_MILLIS).min(LAST_TIME))
}
