//! Workers that have served no connection yet.
ghost use Rattle.std.specs.Prelude.{◌≡◌, ◌+◌, ◌<◌, [], All, IfOk, length, vec_len};
ghost use Rattle.point_put.specs.Admissions.{admission};
ghost use Rattle.conn_workers.specs.ServedLinks.{AllTell, WorkerServed};

use crate::conn_terms::ConnTerms;
use crate::conn_worker::ConnWorker;
use cell_store::{Openings, Site, SitePass};
use compactor::queue::Queue;
use crossbeam_channel::Sender;
use link_workers::link_ends::LinkEnds;
use point_put::Config;
use region_locks::{Gate, StepNames};
use row_compactors::row_compactor::ToCompactor;
use std::alloc::{AllocError, Global};
use std::marker::{Model, PhantomData};
use std::sync::Wait;
use tsd_daemon::Served;
use tsd_doors::doors::Doors;
use tsd_hooks::UidRule;
use tsd_io::clock::Clock;
use uid_table::uids::{KEPT_PAIRS, Uids};

/// A worker that is a new caller of the site, with a twin of the clock and a bell of the doors. It fails only for want of memory.
fn make_worker<'a, J: StepNames + ConnTerms, G: Gate + Drop, T: Wait, C: Clock + Drop, D: Doors>(
    rt: &'a T,
    alloc: Global,
    site: &'a Site<J, G>,
    openings: &mut Openings<J>,
    rule: &'a UidRule,
    config: &Config,
    clock: &C,
    doors: &D,
    rows_to: &'a Sender<Queue>,
) -> Result<ConnWorker<'a, J, SitePass<'a, J, G, T>, C, D::Bell, ToCompactor<'a, T>>, AllocError>
    requires admission { admission config.now rule.now.patterns ≡ J.admission }
    requires moments { C.moments clock.now ≡ J.moments }
    ensures begun { IfOk result (λ work. WorkerServed (record { admission = J.admission; moments = J.moments; inlets_tell = AllTell D.Inlet.taken; outlets_tell = AllTell D.Outlet.held })
        (admission work.config work.rule.now.patterns) work.names.rows (record { moments = C.moments work.clock; faults = C.faults work.clock }) []) }
    ensures opened { IfOk result (λ _. length openings.new ≡ length openings.old + 1) }
{
    let pass = site.open_pass(rt, openings)?;
    let Ok(names) = Uids::over(alloc, pass, KEPT_PAIRS) else {
        return Err(AllocError);
    };
    let twin = clock.twin(alloc)?;
    Ok(ConnWorker {
        names,
        queue: Queue::make(alloc),
        rows_to: ToCompactor { rt, rows_to },
        clock: twin,
        bell: doors.bell(),
        config: *config,
        rule,
        alloc,
        terms: PhantomData,
    })
}

/// So many workers, whose rows go in turn to these. It fails only for want of memory.
pub fn make_workers<
    'a,
    J: StepNames + ConnTerms,
    G: Gate + Drop,
    T: Wait,
    C: Clock + Drop,
    D: Doors,
>(
    rt: &'a T,
    alloc: Global,
    site: &'a Site<J, G>,
    openings: &mut Openings<J>,
    rule: &'a UidRule,
    config: &Config,
    clock: &C,
    doors: &D,
    rows_to: &'a [Sender<Queue>],
    count: u32,
) -> Result<
    Vec<
        LinkEnds<
            ConnWorker<'a, J, SitePass<'a, J, G, T>, C, D::Bell, ToCompactor<'a, T>>,
            D::Kept,
            Served,
        >,
    >,
    AllocError,
>
    requires some { 0 < length rows_to.now }
    requires admission { admission config.now rule.now.patterns ≡ J.admission }
    requires moments { C.moments clock.now ≡ J.moments }
    ensures len { IfOk result (λ workers. vec_len workers ≡ count) }
    ensures idle { IfOk result (λ workers. All (λ worker. worker.ends.items ≡ []) workers.items) }
    ensures begun { IfOk result (λ workers. All (λ worker. WorkerServed (record { admission = J.admission; moments = J.moments; inlets_tell = AllTell D.Inlet.taken; outlets_tell = AllTell D.Outlet.held })
        (admission worker.work.config worker.work.rule.now.patterns) worker.work.names.rows (record { moments = C.moments worker.work.clock; faults = C.faults worker.work.clock }) []) workers.items) }
    ensures opened { IfOk result (λ _. length openings.new ≡ length openings.old + count) }
{
    let mut workers = Vec::with_capacity(alloc, count as usize)?;
    for number in 0..count {
        let rows_to = &rows_to[number as usize % rows_to.len()];
        let work = make_worker(
            rt, alloc, site, openings, rule, config, clock, doors, rows_to,
        )?;
        workers.push(LinkEnds::make(alloc, work))?;
    }
    Ok(workers)
}
