//! One region behind its lock, with its licence.
ghost use Rattle.std.specs.Prelude.{◌≡◌, ◌+◌, ◌<◌, ◌≤◌, ◌++◌, ◌∷◌, [], true, vec_len, vec_capacity};
ghost use Rattle.row_key.specs.declared.regions.TheConstants.{MOST_DATA_REGIONS};
ghost use Rattle.cell_region.specs.RegionLists.{cells_in, rows_of};
ghost use Rattle.step_count.specs.CounterRule.{region_count};
ghost use Rattle.step_count.specs.Tokens.{counter_of_licence, counter_of_pass, view_of_licence, view_of_pass};
ghost use Rattle.step_count.specs.ViewSteps.{Lives, MayAdd, added, met};
ghost use Rattle.region_locks.specs.StepOrders.{step_of};
ghost use Rattle.region_locks.specs.StepEntries.{HasRun, MayRun, entry_of};
ghost use Rattle.region_locks.specs.SiteStarts.{AreToCome, IsHeld};
ghost use Rattle.region_locks.specs.SiteEnds.{Closed};

use crate::gate::Gate;
use crate::step_names::StepNames;
use crate::step_order::{Order, apply, stamp};
use cell_model::events::Reply;
use cell_region::Region;
use crossbeam_utils::CachePadded;
use row_key::{NAME_REGIONS, Widths};
use std::alloc::{AllocError, Global};
use std::hint::spin_loop;
use std::marker::{Brand, Model, PhantomData};
use std::sync::{Mutex, MutexGuard, Wait};
use std::vec::IntoIter;
use step_count::{Entry, Licence, Pass};

/// A region with its licence; one that the site doesn't have is empty and has none.
#[derive(Drop)]
pub(crate) struct Held<J: StepNames, const N: u32> {
    region: Region,
    licence: Option<Licence>,
    of: PhantomData<J>,
}

impl<J: StepNames, const N: u32> Model for Held<J, N> {
    ghost use Rattle.cell_region.specs.RegionLists.{cells_in, rows_of};
    ghost use Rattle.region_locks.specs.SiteStarts.{IsHeld};

    ghost Value = { Unit {0} };

    ghost view = { λ h. tt };

    ghost invariant = { λ h. IsHeld J.counter J.name N (cells_in h.region) (rows_of h.region) h.licence };
}

impl<J: StepNames, const N: u32> Held<J, N> {
    fn new(region: Region, licence: Option<Licence>) -> Self
        requires { IsHeld J.counter J.name N (cells_in region) (rows_of region) licence }
    {
        Held {
            region,
            licence,
            of: PhantomData,
        }
    }

    // The next region with its licence, or an empty one where none is left.
    fn next(
        alloc: Global,
        data_regions: u32,
        regions: &mut IntoIter<Region>,
        licences: &mut IntoIter<Licence>,
    ) -> Self
        requires data_regions { data_regions ≡ J.name.data_regions }
        requires most { data_regions ≤ MOST_DATA_REGIONS }
        requires unopened { AreToCome J.counter J.name N regions.old licences.old }
        ensures { AreToCome J.counter J.name (N + 1) regions.new licences.new }
    {
        if N < NAME_REGIONS + data_regions {
            Held::first(regions, licences)
        } else {
            Held::new(Region::empty(alloc, N, data_regions, Widths::three()), None)
        }
    }

    // The first of those to come.
    fn first(regions: &mut IntoIter<Region>, licences: &mut IntoIter<Licence>) -> Self
        requires among { N < region_count J.name }
        requires unopened { AreToCome J.counter J.name N regions.old licences.old }
        ensures { AreToCome J.counter J.name (N + 1) regions.new licences.new }
    {
        let Some(region) = regions.next() else {
            unreachable!()
        };
        let Some(licence) = licences.next() else {
            unreachable!()
        };
        Held::new(region, Some(licence))
    }

    fn part(self) -> (Region, Option<Licence>)
        ensures { IsHeld J.counter J.name N (cells_in result.0) (rows_of result.0) result.1 }
    {
        let Held {
            region,
            licence,
            of: _,
        } = self;
        (region, licence)
    }

    // One step on the region, after its gate was called. Memory is taken before the licence, and nothing that is refused touches the counter.
    fn run<G: Gate, T: Wait>(
        &mut self,
        gate: &G,
        alloc: Global,
        rt: &T,
        pass: &mut Pass,
        order: &Order,
    ) -> Result<Reply, AllocError>
        requires may { MayRun J.counter J.name N pass.old (step_of order.now) }
        ensures gate { G.lets_in gate.now N ≡ true }
        ensures run { HasRun J.counter J.name (view_of_pass pass.old) (step_of order.now) result pass.new }
    {
        gate.inside(N);
        let reply = apply(&mut self.region, alloc, order)?;
        let Some(licence) = self.licence.take() else {
            unreachable!()
        };
        pass.take(licence);
        let place = entered::<Brand, T>(pass, rt, order, &reply);
        stamp(&mut self.region, order, &reply, place);
        self.licence = Some(pass.give(N));
        Ok(reply)
    }
}

// The entry of an order and its reply is added.
fn entered<E: Entry, T: Wait>(pass: &mut Pass, rt: &T, order: &Order, reply: &Reply) -> u64
    requires entry { E.entry ≡ entry_of (view_of_pass pass.old) (step_of order.now) reply.now }
    requires may { MayAdd (view_of_pass pass.old) (entry_of (view_of_pass pass.old) (step_of order.now) reply.now) }
    ensures counter { counter_of_pass pass.new ≡ counter_of_pass pass.old }
    ensures view { view_of_pass pass.new ≡ added (view_of_pass pass.old) result (entry_of (view_of_pass pass.old) (step_of order.now) reply.now) }
    ensures up { (view_of_pass pass.old).length + 1 ≤ result }
    ensures live { Lives (view_of_pass pass.new) }
{
    let _order = order;
    let _reply = reply;
    pass.advance::<E, T>(rt)
}

// The pass takes the licence, and the list gets the region.
fn hand_over(region: Region, own: Licence, pass: &mut Pass, regions: &mut Vec<Region>)
    requires counter { counter_of_licence own ≡ counter_of_pass pass.old }
    requires room { vec_len regions.old < vec_capacity regions.old }
    ensures counter { counter_of_pass pass.new ≡ counter_of_pass pass.old }
    ensures view { view_of_pass pass.new ≡ met (view_of_pass pass.old) (view_of_licence own) }
    ensures regions { regions.new.items ≡ regions.old.items ++ region ∷ [] }
    ensures capacity { vec_capacity regions.new ≡ vec_capacity regions.old }
    ensures length { vec_len regions.new ≡ vec_len regions.old + 1 }
{
    pass.take(own);
    regions.push_reserved(region);
}

// How often a lock is tried before its caller sleeps.
const TRIES: u32 = 10;

// How many pauses of the processor there are between two tries. They took 4.6 microseconds where that was measured.
const PAUSES: u32 = 1024;

/// Takes the lock, and sleeps only where all tries were in vain: where a caller sleeps, a call of the system has to wake it, and all who come
/// meanwhile sleep too. Who holds the lock mostly gives it back within a microsecond. A caller waits longer than that before it tries again,
/// since each try takes the lock's cache line from the holder, and each change of hands the region's other lines too: so the holder makes
/// many steps while they are its own, and two callers that put points into one region do more than if they took turns.
fn locked<'a, H, T: Wait>(lock: &'a Mutex<H>, rt: &T) -> MutexGuard<'a, H> {
    for _ in 0..TRIES {
        if let Some(guard) = lock.try_lock() {
            return guard;
        }
        pause();
    }
    lock.lock(rt)
}

/// Lets a moment pass.
#[inline(never)]
fn pause() {
    for _ in 0..PAUSES {
        spin_loop();
    }
}

/// A region behind its lock, on cache lines of its own, so that steps on different regions don't wait for each other.
#[derive(Drop)]
pub(crate) struct RegionLock<J: StepNames, const N: u32> {
    lock: CachePadded<Mutex<Held<J, N>>>,
}

impl<J: StepNames, const N: u32> RegionLock<J, N> {
    /// The lock of the next region, or of an empty one where none is left.
    pub(crate) fn open(
        alloc: Global,
        data_regions: u32,
        regions: &mut IntoIter<Region>,
        licences: &mut IntoIter<Licence>,
    ) -> Self
        requires data_regions { data_regions ≡ J.name.data_regions }
        requires most { data_regions ≤ MOST_DATA_REGIONS }
        requires unopened { AreToCome J.counter J.name N regions.old licences.old }
        ensures { AreToCome J.counter J.name (N + 1) regions.new licences.new }
    {
        let held = Held::next(alloc, data_regions, regions, licences);
        RegionLock {
            lock: CachePadded::new(Mutex::new(held)),
        }
    }

    /// One step on the region, under its lock. The gate is called under it too, before the step.
    pub(crate) fn run<G: Gate, T: Wait>(
        &self,
        gate: &G,
        alloc: Global,
        rt: &T,
        pass: &mut Pass,
        order: &Order,
    ) -> Result<Reply, AllocError>
        requires { MayRun J.counter J.name N pass.old (step_of order.now) }
        ensures gate { G.lets_in gate.now N ≡ true }
        ensures run { HasRun J.counter J.name (view_of_pass pass.old) (step_of order.now) result pass.new }
    {
        let mut guard = locked(&self.lock, rt);
        let held = &mut *guard;
        held.run(gate, alloc, rt, pass, order)
    }

    /// Opens the lock for good: the pass takes the licence, and the list gets the region, if the site has it.
    pub(crate) fn close(self, pass: &mut Pass, regions: &mut Vec<Region>)
        requires counter { counter_of_pass pass.old ≡ J.counter }
        requires room { vec_len regions.old < vec_capacity regions.old }
        ensures counter { counter_of_pass pass.new ≡ J.counter }
        ensures closed { Closed J.name N (N + 1) (view_of_pass pass.old) regions.old.items (view_of_pass pass.new) regions.new.items }
        ensures capacity { vec_capacity regions.new ≡ vec_capacity regions.old }
        ensures length { vec_len regions.new ≤ vec_len regions.old + 1 }
    {
        let RegionLock { lock } = self;
        let (region, licence) = lock.into_inner().into_inner().part();
        match licence {
            Some(licence) => hand_over(region, licence, pass, regions),
            None => (),
        }
    }
}
