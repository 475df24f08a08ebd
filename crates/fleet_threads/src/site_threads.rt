//! The connections of the doors, served over one site while rows of their points are compacted on other threads.
ghost use Rattle.std.specs.Prelude.{◌≡◌, ℕ, ◌≤◌, ◌+◌, [], IfOk, OnErr, length, vec_len};
ghost use Rattle.step_count.specs.Tokens.{view_of_pass};
ghost use Rattle.region_locks.specs.CallerViews.{numbers_of, seen_of};
ghost use Rattle.point_put.specs.Admissions.{admission};
ghost use Rattle.conn_workers.specs.ServedLinks.{AllTell};
ghost use Rattle.worker_returns.specs.GatheredLinks.{Gathered};
ghost use Rattle.site_workers.specs.ServedSites.{SiteLeft};
ghost use Rattle.fleet_threads.specs.WorkedSites.{SiteWorked};

use cell_store::{Openings, Site, SitePass};
use conn_workers::conn_terms::ConnTerms;
use point_put::Config;
use region_locks::{Gate, StepNames};
use row_compactors::compactor_seats::{CompactorSeats, make_compactors, take_compactors_back};
use row_compactors::compactor_threads::compact_beside;
use site_workers::site_service::{SiteServed, serve_connections};
use std::alloc::{AllocError, Global};
use std::sync::Wait;
use std::thread::Threads;
use tsd_doors::doors::Doors;
use tsd_hooks::UidRule;
use tsd_io::clock::Clock;
use tsd_io::halt::Halt;

/// Accepts connections, and has each served by one of the workers or by the caller, each of whom is a caller of the site, while the rows of
/// their points are compacted by further callers, one for each queue. All are given back to the doors, or where the end is `OutOfMemory`
/// some.
///
/// Err, for want of memory, says that nothing was done.
pub fn serve_site<
    J: StepNames + ConnTerms + Send + Sync,
    G: Gate + Drop + Send + Sync,
    T: Threads + Wait + Sync,
    C: Clock + Send + Drop,
    H: Halt,
    D: Doors,
>(
    rt: &T,
    alloc: Global,
    daemons: u32,
    workers: u32,
    site: &Site<J, G>,
    openings: &mut Openings<J>,
    rule: &UidRule,
    config: &Config,
    clock: &mut C,
    halt: &mut H,
    doors: &mut D,
) -> Result<SiteServed, AllocError>
    requires nobody { openings.old ≡ [] }
    requires daemons { 1 ≤ daemons }
    requires most_daemons { daemons ≤ 8 }
    requires most_workers { workers ≤ 16 }
    requires admission { admission config.now rule.now.patterns ≡ J.admission }
    requires moments { C.moments clock.old ≡ J.moments }
    ensures left { IfOk result (λ s. SiteLeft H.answers J.counter J.name
        (record { waiting = D.waiting doors.old; back = D.back doors.old; counts = D.counts doors.old; faults = D.faults doors.old })
        (record { waiting = D.waiting doors.new; back = D.back doors.new; counts = D.counts doors.new; faults = D.faults doors.new })
        (H.stops halt.old) (H.stops halt.new) halt.old halt.new s) }
    ensures worked { IfOk result (λ s. SiteWorked (record { admission = J.admission; moments = J.moments; inlets_tell = AllTell D.Inlet.taken; outlets_tell = AllTell D.Outlet.held })
        openings.new (seen_of (view_of_pass s.pass)) (record { back = D.back doors.old; clock_faults = C.faults clock.old }) (record { back = D.back doors.new; clock_faults = C.faults clock.new }) s.ends.items) }
    ensures stops_later { H.stops halt.old ≤ H.stops halt.new }
    ensures clock_later { C.faults clock.old ≤ C.faults clock.new }
    ensures doors_later { D.faults doors.old ≤ D.faults doors.new }
    ensures doors { OnErr result (doors.new ≡ doors.old) }
    ensures clock { OnErr result (clock.new ≡ clock.old) }
    ensures halt { OnErr result (halt.new ≡ halt.old) }
{
    let CompactorSeats {
        rows_to,
        workers: compactors,
    } = make_compactors(rt, alloc, site, openings, clock, daemons)?;
    let (mut rows_to, mut compactors) = (rows_to, compactors);
    let served = compact_beside(
        rt,
        &mut compactors,
        &mut || -> Result<SiteServed, AllocError>
            requires { (1 ≤ vec_len rows_to) × (vec_len rows_to ≤ 8) × (workers ≤ 16)
                × (admission config.now rule.now.patterns ≡ J.admission) × (C.moments clock.now ≡ J.moments) }
            ensures left { IfOk result (λ s. SiteLeft H.answers J.counter J.name
                (record { waiting = D.waiting doors.entry.now; back = D.back doors.entry.now; counts = D.counts doors.entry.now; faults = D.faults doors.entry.now })
                (record { waiting = D.waiting doors.exit.now; back = D.back doors.exit.now; counts = D.counts doors.exit.now; faults = D.faults doors.exit.now })
                (H.stops halt.entry.now) (H.stops halt.exit.now) halt.entry.now halt.exit.now s) }
            ensures gathered { IfOk result (λ s. (count : ℕ) × (length openings.exit.now ≡ length openings.entry.now + count)
                × Gathered (record { admission = J.admission; moments = J.moments; inlets_tell = AllTell D.Inlet.taken; outlets_tell = AllTell D.Outlet.held })
                (seen_of (view_of_pass s.pass)) (numbers_of (seen_of (view_of_pass s.pass)))
                count (record { back = D.back doors.entry.now; clock_faults = C.faults clock.entry.now }) (record { back = D.back doors.exit.now; clock_faults = C.faults clock.exit.now }) s.ends.items) }
            ensures stops_later { H.stops halt.entry.now ≤ H.stops halt.exit.now }
            ensures clock_later { C.faults clock.entry.now ≤ C.faults clock.exit.now }
            ensures doors_later { D.faults doors.entry.now ≤ D.faults doors.exit.now }
            ensures doors { OnErr result (doors.exit.now ≡ doors.entry.now) }
            ensures clock { OnErr result (clock.exit.now ≡ clock.entry.now) }
            ensures halt { OnErr result (halt.exit.now ≡ halt.entry.now) }
        {
            serve_connections(
                rt,
                alloc,
                workers,
                site,
                openings,
                rule,
                config,
                clock,
                halt,
                doors,
                &mut rows_to,
            )
        },
    )?;
    let SiteServed {
        pass,
        links,
        end,
        ends,
    } = served;
    let mut own = SitePass::of(site, rt, pass);
    take_compactors_back(&mut own, clock, compactors);
    Ok(SiteServed {
        pass: own.part(),
        links,
        end,
        ends,
    })
}
