//! The connections of the doors, served by workers over one site.
ghost use Rattle.std.specs.Prelude.{◌≡◌, ◌⊎◌, ℕ, ◌≤◌, ◌+◌, true, [], All, IfOk, OnErr, length, map, vec_len};
ghost use Rattle.std.specs.List.{sum_by};
ghost use Rattle.step_count.specs.Tokens.{counter_of_pass, view_of_pass};
ghost use Rattle.region_locks.specs.CallerViews.{IsCaller, numbers_of, seen_of};
ghost use Rattle.point_put.specs.Admissions.{admission};
ghost use Rattle.conn_workers.specs.ServedLinks.{AllTell, WorkerServed};
ghost use Rattle.worker_returns.specs.GatheredLinks.{Gathered, TakenBack};
ghost use Rattle.site_workers.specs.ServedSites.{SiteLeft};

use cell_store::{Openings, Site, SitePass};
use compactor::queue::Queue;
use conn_workers::conn_service::serve_rows;
use conn_workers::conn_terms::ConnTerms;
use conn_workers::conn_worker::ConnWorker;
use conn_workers::worker_seats::make_workers;
use crossbeam_channel::Sender;
use link_acceptor::accept_loop::AcceptEnd;
use link_workers::link_ends::{LinkEnds, give_back};
use point_put::Config;
use region_locks::{Gate, StepNames};
use row_compactors::row_compactor::ToCompactor;
use std::alloc::{AllocError, Global};
use std::marker::Model;
use std::mem::replace;
use std::sync::Wait;
use std::thread::Threads;
use step_count::Pass;
use tsd_daemon::Served;
use tsd_doors::doors::Doors;
use tsd_hooks::UidRule;
use tsd_io::clock::Clock;
use tsd_io::halt::Halt;
use worker_returns::worker_return::take_all_back;

/// What is left where all workers of a site have ended.
#[derive(Drop)]
pub struct SiteServed {
    /// The token of a caller that took the place of all.
    pub pass: Pass,

    /// How many connections were accepted, up to the last `u64`.
    pub links: u64,

    /// Why no more were, or that there was no memory.
    pub end: AcceptEnd,

    /// How the connections ended that were given back, in order.
    pub ends: Vec<Served>,
}

/// Accepts connections, and has each served by one of the workers or by the caller, each of whom is a caller of the site. All are given
/// back to the doors, or where the end is `OutOfMemory` some. There is a queue of connections for each of these to which the rows of their
/// points are sent, with so many workers each; they are dropped at the end.
///
/// Err, for want of memory, says that no connection was accepted; the senders are dropped then too.
pub fn serve_connections<
    J: StepNames + ConnTerms + Send + Sync,
    G: Gate + Drop + Send + Sync,
    T: Threads + Wait + Sync,
    C: Clock + Send + Drop,
    H: Halt,
    D: Doors,
>(
    rt: &T,
    alloc: Global,
    workers_each: u32,
    site: &Site<J, G>,
    openings: &mut Openings<J>,
    rule: &UidRule,
    config: &Config,
    clock: &mut C,
    halt: &mut H,
    doors: &mut D,
    rows_to: &mut Vec<Sender<Queue>>,
) -> Result<SiteServed, AllocError>
    requires some_queues { 1 ≤ vec_len rows_to.old }
    requires most_queues { vec_len rows_to.old ≤ 8 }
    requires most_workers { workers_each ≤ 16 }
    requires admission { admission config.now rule.now.patterns ≡ J.admission }
    requires moments { C.moments clock.old ≡ J.moments }
    ensures left { IfOk result (λ s. SiteLeft H.answers J.counter J.name
        (record { waiting = D.waiting doors.old; back = D.back doors.old; counts = D.counts doors.old; faults = D.faults doors.old })
        (record { waiting = D.waiting doors.new; back = D.back doors.new; counts = D.counts doors.new; faults = D.faults doors.new })
        (H.stops halt.old) (H.stops halt.new) halt.old halt.new s) }
    ensures gathered { IfOk result (λ s. (count : ℕ) × (length openings.new ≡ length openings.old + count)
        × Gathered (record { admission = J.admission; moments = J.moments; inlets_tell = AllTell D.Inlet.taken; outlets_tell = AllTell D.Outlet.held })
        (seen_of (view_of_pass s.pass)) (numbers_of (seen_of (view_of_pass s.pass)))
        count (record { back = D.back doors.old; clock_faults = C.faults clock.old }) (record { back = D.back doors.new; clock_faults = C.faults clock.new }) s.ends.items) }
    ensures stops_later { H.stops halt.old ≤ H.stops halt.new }
    ensures clock_later { C.faults clock.old ≤ C.faults clock.new }
    ensures doors_later { D.faults doors.old ≤ D.faults doors.new }
    ensures dropped { rows_to.new.items ≡ [] }
    ensures doors { OnErr result (doors.new ≡ doors.old) }
    ensures clock { OnErr result (clock.new ≡ clock.old) }
    ensures halt { OnErr result (halt.new ≡ halt.old) }
{
    let rows_to = replace(rows_to, Vec::new(alloc));
    let count = rows_to.len() as u32 * workers_each + 1;
    let mut workers = make_workers(
        rt, alloc, site, openings, rule, config, clock, doors, &rows_to, count,
    )?;
    let Some(mut own) = workers.pop() else {
        unreachable!()
    };
    let accepted = serve_rows::<J, SitePass<'_, J, G, T>, ToCompactor<'_, T>, T, C, H, D>(
        rt,
        alloc,
        rows_to.len(),
        doors,
        halt,
        &mut workers,
        &mut own,
    );
    let gathered = gather(alloc, clock, doors, workers, own);
    Ok(SiteServed {
        pass: gathered.pass,
        links: accepted.links,
        end: end_with(gathered.all, accepted.end),
        ends: gathered.ends,
    })
}

/// How accepting ended, or that there was no memory for all ends.
fn end_with(all: bool, end: AcceptEnd) -> AcceptEnd
    ensures { ((all ≡ true) × (result ≡ end)) ⊎ (result ≡ AcceptEnd.OutOfMemory) }
{
    if all { end } else { AcceptEnd::OutOfMemory }
}

/// What workers handed back.
#[derive(Drop)]
struct HandedBack {
    pass: Pass,
    ends: Vec<Served>,

    // Whether there was memory for all ends.
    all: bool,
}

/// Takes the workers back, and then the caller's own connections.
fn gather<'a, J: StepNames + ConnTerms, G: Gate + Drop, T: Wait, C: Clock + Drop, D: Doors>(
    alloc: Global,
    clock: &mut C,
    doors: &mut D,
    workers: Vec<
        LinkEnds<
            ConnWorker<'a, J, SitePass<'a, J, G, T>, C, D::Bell, ToCompactor<'a, T>>,
            D::Kept,
            Served,
        >,
    >,
    own: LinkEnds<
        ConnWorker<'a, J, SitePass<'a, J, G, T>, C, D::Bell, ToCompactor<'a, T>>,
        D::Kept,
        Served,
    >,
) -> HandedBack
    requires served { All (λ worker. WorkerServed (record { admission = J.admission; moments = J.moments; inlets_tell = AllTell D.Inlet.taken; outlets_tell = AllTell D.Outlet.held })
        (admission worker.work.config worker.work.rule.now.patterns) worker.work.names.rows (record { moments = C.moments worker.work.clock; faults = C.faults worker.work.clock })
        (map (λ one. (D.shown one.0, one.1)) worker.ends.items)) workers.items }
    requires own_served { WorkerServed (record { admission = J.admission; moments = J.moments; inlets_tell = AllTell D.Inlet.taken; outlets_tell = AllTell D.Outlet.held })
        (admission own.work.config own.work.rule.now.patterns) own.work.names.rows (record { moments = C.moments own.work.clock; faults = C.faults own.work.clock })
        (map (λ one. (D.shown one.0, one.1)) own.ends.items) }
    requires few { sum_by (λ worker. length worker.ends.items) workers.items + length own.ends.items ≤ (D.counts doors.old).out }
    ensures counter { counter_of_pass result.pass ≡ J.counter }
    ensures caller { IsCaller J.name (view_of_pass result.pass) }
    ensures gathered { Gathered (record { admission = J.admission; moments = J.moments; inlets_tell = AllTell D.Inlet.taken; outlets_tell = AllTell D.Outlet.held })
        (seen_of (view_of_pass result.pass)) (numbers_of (seen_of (view_of_pass result.pass)))
        (length workers.entry.items + 1) (record { back = D.back doors.old; clock_faults = C.faults clock.old }) (record { back = D.back doors.new; clock_faults = C.faults clock.new }) result.ends.items }
    ensures returned { TakenBack result.all (sum_by (λ worker. length worker.ends.items) workers.entry.items + length own.entry.ends.items) 0 (length result.ends.items)
        (D.counts doors.old) (D.counts doors.new) }
    ensures clock_later { C.faults clock.old ≤ C.faults clock.new }
    ensures faults { D.faults doors.new ≡ D.faults doors.old }
    ensures waiting { D.waiting doors.new ≡ D.waiting doors.old }
{
    let LinkEnds { work, ends: served } = own;
    let ConnWorker {
        names,
        clock: twin,
        ..
    } = work;
    let mut pass = names.part();
    let mut ends = Vec::new(alloc);
    let mut all = take_all_back(&mut pass, clock, doors, &mut ends, workers);
    clock.rejoin(twin);
    all &= give_back(doors, served, &mut ends).is_ok();
    HandedBack {
        pass: pass.part(),
        ends,
        all,
    }
}
