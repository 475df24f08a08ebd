//! What workers hand back when they have ended.
ghost use Rattle.std.specs.Prelude.{◌≡◌, ◌≤◌, ◌+◌, ◌++◌, ℕ, All, length, map};
ghost use Rattle.std.specs.List.{sum_by};
ghost use Rattle.tsd_io.specs.Causes.{joined};
ghost use Rattle.cell_model.specs.Deeds.{Extends};
ghost use Rattle.cell_model.specs.Seen.{IsOwn};
ghost use Rattle.step_count.specs.CounterRule.{AreDifferent};
ghost use Rattle.region_locks.specs.CallerViews.{MadeNoMore, numbers_of};
ghost use Rattle.point_put.specs.Admissions.{admission};
ghost use Rattle.conn_workers.specs.ServedLinks.{AllTell, WorkerServed};
ghost use Rattle.worker_returns.specs.GatheredLinks.{Gathered, ReturnsTold, TakenBack};

use cell_store::SitePass;
use conn_workers::conn_terms::ConnTerms;
use conn_workers::conn_worker::ConnWorker;
use link_workers::link_ends::{LinkEnds, give_back};
use region_locks::{Gate, StepNames};
use row_compactors::row_compactor::ToCompactor;
use std::marker::Model;
use std::sync::Wait;
use tsd_daemon::Served;
use tsd_doors::doors::{Bell, Doors};
use tsd_io::clock::Clock;

/// Takes a worker's place and its clock back, gives its connections back to the doors and adds their ends to those of the workers before it.
///
/// False says that there was no memory for their ends. Then none of its connections was given back, and yet they were served.
fn take_back<'a, J: StepNames + ConnTerms, G: Gate + Drop, T: Wait, C: Clock + Drop, D: Doors>(
    own: &mut SitePass<'a, J, G, T>,
    clock: &mut C,
    doors: &mut D,
    ends: &mut Vec<Served>,
    worker: LinkEnds<
        ConnWorker<'a, J, SitePass<'a, J, G, T>, C, D::Bell, ToCompactor<'a, T>>,
        D::Kept,
        Served,
    >,
) -> bool
    requires served { WorkerServed (record { admission = J.admission; moments = J.moments; inlets_tell = AllTell D.Inlet.taken; outlets_tell = AllTell D.Outlet.held })
        (admission worker.work.config worker.work.rule.now.patterns) worker.work.names.rows (record { moments = C.moments worker.work.clock; faults = C.faults worker.work.clock })
        (map (λ one. (D.shown one.0, one.1)) worker.ends.items) }
    requires few { length worker.ends.items ≤ (D.counts doors.old).out }
    ensures gathered { (count : ℕ) (first : ReturnsTold)
        → Gathered (record { admission = J.admission; moments = J.moments; inlets_tell = AllTell D.Inlet.taken; outlets_tell = AllTell D.Outlet.held })
        own.old own.old.absorbed count first (record { back = D.back doors.old; clock_faults = C.faults clock.old }) ends.old.items
        → Gathered (record { admission = J.admission; moments = J.moments; inlets_tell = AllTell D.Inlet.taken; outlets_tell = AllTell D.Outlet.held })
        own.new own.new.absorbed (count + 1) first (record { back = D.back doors.new; clock_faults = C.faults clock.new }) ends.new.items }
    ensures later { Extends own.old own.new }
    ensures made { MadeNoMore own.old own.new }
    ensures stays { (number : ℕ) → IsOwn own.old number → IsOwn own.new number }
    ensures caller { own.new.caller ≡ own.old.caller }
    ensures returned { TakenBack result (length worker.entry.ends.items) (length ends.old.items) (length ends.new.items) (D.counts doors.old) (D.counts doors.new) }
    ensures faults { D.faults doors.new ≡ D.faults doors.old }
    ensures waiting { D.waiting doors.new ≡ D.waiting doors.old }
    ensures moments { C.moments clock.new ≡ C.moments clock.old }
    ensures clock_later { C.faults clock.old ≤ C.faults clock.new }
{
    let LinkEnds { work, ends: served } = worker;
    absorb_worker(own, clock, work);
    give_back(doors, served, ends).is_ok()
}

/// Takes all workers back, in order. False says that there was no memory for the ends of one. Then none of its connections was given back.
pub fn take_all_back<
    'a,
    J: StepNames + ConnTerms,
    G: Gate + Drop,
    T: Wait,
    C: Clock + Drop,
    D: Doors,
>(
    own: &mut SitePass<'a, J, G, T>,
    clock: &mut C,
    doors: &mut D,
    ends: &mut Vec<Served>,
    workers: Vec<
        LinkEnds<
            ConnWorker<'a, J, SitePass<'a, J, G, T>, C, D::Bell, ToCompactor<'a, T>>,
            D::Kept,
            Served,
        >,
    >,
) -> bool
    requires served { All (λ worker. WorkerServed (record { admission = J.admission; moments = J.moments; inlets_tell = AllTell D.Inlet.taken; outlets_tell = AllTell D.Outlet.held })
        (admission worker.work.config worker.work.rule.now.patterns) worker.work.names.rows (record { moments = C.moments worker.work.clock; faults = C.faults worker.work.clock })
        (map (λ one. (D.shown one.0, one.1)) worker.ends.items)) workers.items }
    requires few { sum_by (λ worker. length worker.ends.items) workers.items ≤ (D.counts doors.old).out }
    ensures gathered { (count : ℕ) (first : ReturnsTold)
        → Gathered (record { admission = J.admission; moments = J.moments; inlets_tell = AllTell D.Inlet.taken; outlets_tell = AllTell D.Outlet.held })
        own.old own.old.absorbed count first (record { back = D.back doors.old; clock_faults = C.faults clock.old }) ends.old.items
        → Gathered (record { admission = J.admission; moments = J.moments; inlets_tell = AllTell D.Inlet.taken; outlets_tell = AllTell D.Outlet.held })
        own.new own.new.absorbed (count + length workers.entry.items) first (record { back = D.back doors.new; clock_faults = C.faults clock.new }) ends.new.items }
    ensures later { Extends own.old own.new }
    ensures made { MadeNoMore own.old own.new }
    ensures stays { (number : ℕ) → IsOwn own.old number → IsOwn own.new number }
    ensures caller { own.new.caller ≡ own.old.caller }
    ensures returned { TakenBack result (sum_by (λ worker. length worker.ends.items) workers.entry.items) (length ends.old.items) (length ends.new.items) (D.counts doors.old) (D.counts doors.new) }
    ensures faults { D.faults doors.new ≡ D.faults doors.old }
    ensures waiting { D.waiting doors.new ≡ D.waiting doors.old }
    ensures moments { C.moments clock.new ≡ C.moments clock.old }
    ensures clock_later { C.faults clock.old ≤ C.faults clock.new }
{
    let mut all = true;
    for worker in workers {
        all &= take_back(own, clock, doors, ends, worker);
    }
    all
}

/// Takes a worker's place and its clock back.
fn absorb_worker<
    'a,
    J: StepNames + ConnTerms,
    G: Gate + Drop,
    T: Wait,
    C: Clock + Drop,
    B: Bell + Drop,
>(
    own: &mut SitePass<'a, J, G, T>,
    clock: &mut C,
    work: ConnWorker<'a, J, SitePass<'a, J, G, T>, C, B, ToCompactor<'a, T>>,
)
    ensures mine { Extends own.old own.new }
    ensures theirs { Extends work.entry.names.rows own.new }
    ensures mine_made { MadeNoMore own.old own.new }
    ensures theirs_made { MadeNoMore work.entry.names.rows own.new }
    ensures caller { own.new.caller ≡ own.old.caller }
    ensures numbers { numbers_of own.new ≡ numbers_of own.old ++ numbers_of work.entry.names.rows }
    ensures different { AreDifferent (numbers_of own.new) }
    ensures moments { C.moments clock.new ≡ C.moments clock.old }
    ensures faults { C.faults clock.new ≡ joined (C.faults clock.old) (C.faults work.entry.clock) }
    ensures later { C.faults clock.old ≤ C.faults clock.new }
{
    let ConnWorker {
        names,
        clock: twin,
        ..
    } = work;
    own.absorb(names.part());
    clock.rejoin(twin);
}
