//! Compaction workers that have compacted no row yet, and how they are taken back.
ghost use Rattle.std.specs.Prelude.{◌≡◌, ◌≤◌, ◌+◌, IfOk, length, vec_len};
ghost use Rattle.step_count.specs.CounterRule.{AreDifferent};
ghost use Rattle.region_locks.specs.CallerViews.{numbers_of};
ghost use Rattle.row_compactors.specs.Upkeep.{TakesPlaces};

use crate::row_compactor::RowCompactor;
use crate::upkeep::Upkeep;
use cell_model::rows::Rows;
use cell_store::{Openings, Site, SitePass};
use compactor::queue::Queue;
use crossbeam_channel::{Receiver, Sender, unbounded};
use region_locks::{Gate, StepNames};
use std::alloc::{AllocError, Global};
use std::marker::Model;
use std::sync::Wait;
use tsd_io::clock::Clock;

/// Compaction workers, and where rows are sent to each.
#[derive(Drop)]
pub struct CompactorSeats<R: Rows + Drop, C: Clock + Drop> {
    /// Where rows are sent to each, in the same order.
    pub rows_to: Vec<Sender<Queue>>,

    /// The workers.
    pub workers: Vec<RowCompactor<R, C>>,
}

/// A compaction worker that is a new caller of the site, with a twin of the clock. It fails only for want of memory.
fn make_compactor<'a, J: StepNames, G: Gate + Drop, T: Wait, C: Clock + Drop>(
    rt: &'a T,
    alloc: Global,
    site: &'a Site<J, G>,
    openings: &mut Openings<J>,
    clock: &C,
    rows_from: Receiver<Queue>,
) -> Result<RowCompactor<SitePass<'a, J, G, T>, C>, AllocError>
    ensures { IfOk result (λ _. length openings.new ≡ length openings.old + 1) }
{
    let twin = clock.twin(alloc)?;
    let rows = site.open_pass(rt, openings)?;
    Ok(RowCompactor {
        rows: Upkeep::of(rows),
        queue: Queue::make(alloc),
        clock: twin,
        rows_from,
        alloc,
    })
}

/// So many compaction workers, each a new caller of the site with a twin of the clock. It fails only for want of memory.
pub fn make_compactors<'a, J: StepNames, G: Gate + Drop, T: Wait, C: Clock + Drop>(
    rt: &'a T,
    alloc: Global,
    site: &'a Site<J, G>,
    openings: &mut Openings<J>,
    clock: &C,
    count: u32,
) -> Result<CompactorSeats<SitePass<'a, J, G, T>, C>, AllocError>
    ensures queues { IfOk result (λ seats. vec_len seats.rows_to ≡ count) }
    ensures workers { IfOk result (λ seats. vec_len seats.workers ≡ count) }
    ensures opened { IfOk result (λ _. length openings.new ≡ length openings.old + count) }
{
    let mut rows_to = Vec::with_capacity(alloc, count as usize)?;
    let mut workers = Vec::with_capacity(alloc, count as usize)?;
    for _made in 0..count {
        let (sender, rows_from) = unbounded(alloc)?;
        rows_to.push(sender)?;
        workers.push(make_compactor(rt, alloc, site, openings, clock, rows_from)?)?;
    }
    Ok(CompactorSeats { rows_to, workers })
}

/// Takes the workers' places and their clocks back. Their callers brought nothing new.
pub fn take_compactors_back<'a, J: StepNames, G: Gate + Drop, T: Wait, C: Clock + Drop>(
    own: &mut SitePass<'a, J, G, T>,
    clock: &mut C,
    workers: Vec<RowCompactor<SitePass<'a, J, G, T>, C>>,
)
    ensures places { TakesPlaces own.old (length workers.entry.items) own.new }
    ensures clock_later { C.faults clock.old ≤ C.faults clock.new }
{
    for worker in workers {
        take_compactor_back(own, clock, worker);
    }
}

/// Takes a worker's place and its clock back.
fn take_compactor_back<'a, J: StepNames, G: Gate + Drop, T: Wait, C: Clock + Drop>(
    own: &mut SitePass<'a, J, G, T>,
    clock: &mut C,
    worker: RowCompactor<SitePass<'a, J, G, T>, C>,
)
    ensures place { TakesPlaces own.old 1 own.new }
    ensures different { AreDifferent (numbers_of own.new) }
    ensures clock_later { C.faults clock.old ≤ C.faults clock.new }
{
    let RowCompactor {
        rows,
        clock: twin,
        ..
    } = worker;
    own.absorb(rows.part());
    clock.rejoin(twin);
}
