//! A fleet: connections that come through doors, served by workers over one store in memory.
ghost use Rattle.std.specs.Prelude.{◌≡◌, ◌≤◌, [], IfOk, OnErr};
ghost use Rattle.row_key.specs.Made.{three};
ghost use Rattle.cell_model.specs.Sound.{IsBase};
ghost use Rattle.cell_model.specs.Store.{no_cells};
ghost use Rattle.step_count.specs.CounterRule.{store_in};
ghost use Rattle.point_put.specs.Admissions.{admission};
ghost use Rattle.conn_workers.specs.ServedLinks.{AllTell};
ghost use Rattle.tsd_fleet.specs.Devices.{OutputTold};
ghost use Rattle.tsd_fleet.specs.FleetServes.{FleetDoes, FleetKeeps, IsTally, KeepsRows, ServesKept, outcome_none};

use crate::fleet_end::{FleetEnd, fleet_end};
use crate::listening::listen;
use cell_model::{Body, Listing, Tally};
use cell_region::Regions;
use cell_store::SiteParts;
use conn_workers::conn_terms::ConnTerms;
use fleet_threads::site_threads::serve_site;
use point_put::Config;
use region_locks::{Gate, StepNames};
use row_key::Widths;
use std::alloc::{AllocError, Global};
use std::marker::{Brand, Model};
use std::sync::Wait;
use std::thread::Threads;
use tsd_daemon::Served;
use tsd_doors::doors::Doors;
use tsd_hooks::UidRule;
use tsd_io::clock::Clock;
use tsd_io::halt::Halt;
use tsd_io::ports::Sink;

/// Where a fleet listens, and how large it is.
#[derive(Clone, Copy, Debug, PartialEq, Eq)]
pub struct Fleet {
    /// The port, or 0 for one that the system picks.
    pub port: u16,

    /// How many queues connections go to in turn, from 1 to 8.
    pub daemons: u32,

    /// How many workers each queue has, from 1 to 16.
    pub workers: u32,

    /// In how many regions the rows of points lie, from 1 to 16.
    pub regions: u32,
}

/// What a fleet did.
#[derive(Drop)]
pub struct FleetDone<H> {
    /// Why it ended.
    pub end: FleetEnd,

    /// The halt, as its last ask left it.
    pub halt: H,

    /// How many connections were accepted, up to the last `u64`.
    pub links: u64,

    /// How the connections ended that were given back to the doors, in the same order.
    pub ends: Vec<Served>,

    /// The numbers of the store that it left.
    pub tally: Tally,
}

/// What a fleet did, and the store that it left.
#[derive(Drop)]
pub struct FleetKept<H> {
    /// What it did.
    pub done: FleetDone<H>,

    /// The store after its whole history. There is none exactly where the end is `OutOfMemory`.
    pub rows: Option<Regions>,
}

/// What a store's workers did, and the store that they left.
#[derive(Drop)]
struct StoreServed {
    end: FleetEnd,
    links: u64,
    ends: Vec<Served>,
    tally: Tally,
    rows: Option<Regions>,
}

/// Binds the port, writes `listening P` with the port that was bound, and serves connections over an empty store until no more come, or
/// there is a cause to stop. The halt is asked before each accept. Each worker serves on a thread of its own; when all have ended, the
/// caller serves what is left. Then all connections are given back to the doors.
///
/// `Died` where no more came and on one connection the request `diediedie` did; it rings the bell, and the other connections go on to
/// their own ends. After `OutOfMemory` a connection may have no end.
pub fn serve<
    T: Threads + Wait + Sync,
    G: Gate + Drop + Send + Sync,
    K: Sink,
    C: Clock + Send + Drop,
    H: Halt + Drop,
    D: Doors,
>(
    rt: &T,
    alloc: Global,
    fleet: &Fleet,
    gate: G,
    rule: &UidRule,
    config: &Config,
    output: &mut K,
    clock: &mut C,
    halt: H,
    doors: &mut D,
) -> FleetDone<H>
    requires daemons { (1 ≤ fleet.now.daemons) × (fleet.now.daemons ≤ 8) }
    requires workers { (1 ≤ fleet.now.workers) × (fleet.now.workers ≤ 16) }
    requires regions { (1 ≤ fleet.now.regions) × (fleet.now.regions ≤ 16) }
    ensures does { FleetDoes H.answers
        (record { port = fleet.now.port; admission = admission config.now rule.now.patterns; base = no_cells three; inlets_tell = AllTell D.Inlet.taken; outlets_tell = AllTell D.Outlet.held })
        (record { output = record { held = K.held output.old; faults = K.faults output.old }; clock = record { moments = C.moments clock.old; faults = C.faults clock.old }; doors = record { waiting = D.waiting doors.old; back = D.back doors.old; counts = D.counts doors.old; faults = D.faults doors.old }; stops = H.stops halt })
        (record { output = record { held = K.held output.new; faults = K.faults output.new }; clock = record { moments = C.moments clock.new; faults = C.faults clock.new }; doors = record { waiting = D.waiting doors.new; back = D.back doors.new; counts = D.counts doors.new; faults = D.faults doors.new }; stops = H.stops result.halt })
        halt result.halt (record { end = result.end; links = result.links; ends = result.ends.items; tally = result.tally }) }
{
    let empty = Listing::none(alloc, Widths::three());
    let Ok(base) = Regions::of(alloc, empty, fleet.regions) else {
        let kept = none_served(alloc, FleetEnd::OutOfMemory, halt, no_tally(), None);
        return kept.done;
    };
    let kept = serve_from(
        rt, alloc, fleet, base, gate, rule, config, output, clock, halt, doors,
    );
    kept.done
}

/// The same over a store that is given, with which the history begins; its widths are those of the ids. The store that is left is handed
/// back, unless the end is `OutOfMemory`.
pub fn serve_from<
    T: Threads + Wait + Sync,
    G: Gate + Drop + Send + Sync,
    K: Sink,
    C: Clock + Send + Drop,
    H: Halt + Drop,
    D: Doors,
>(
    rt: &T,
    alloc: Global,
    fleet: &Fleet,
    base: Regions,
    gate: G,
    rule: &UidRule,
    config: &Config,
    output: &mut K,
    clock: &mut C,
    halt: H,
    doors: &mut D,
) -> FleetKept<H>
    requires daemons { (1 ≤ fleet.now.daemons) × (fleet.now.daemons ≤ 8) }
    requires workers { (1 ≤ fleet.now.workers) × (fleet.now.workers ≤ 16) }
    requires regions { (1 ≤ fleet.now.regions) × (fleet.now.regions ≤ 16) }
    requires base { IsBase base.content }
    requires divided { base.data_regions ≡ fleet.now.regions }
    ensures keeps { FleetKeeps H.answers
        (record { port = fleet.now.port; admission = admission config.now rule.now.patterns; base = base.content; inlets_tell = AllTell D.Inlet.taken; outlets_tell = AllTell D.Outlet.held })
        (record { output = record { held = K.held output.old; faults = K.faults output.old }; clock = record { moments = C.moments clock.old; faults = C.faults clock.old }; doors = record { waiting = D.waiting doors.old; back = D.back doors.old; counts = D.counts doors.old; faults = D.faults doors.old }; stops = H.stops halt })
        (record { output = record { held = K.held output.new; faults = K.faults output.new }; clock = record { moments = C.moments clock.new; faults = C.faults clock.new }; doors = record { waiting = D.waiting doors.new; back = D.back doors.new; counts = D.counts doors.new; faults = D.faults doors.new }; stops = H.stops result.done.halt })
        halt result.done.halt (record { end = result.done.end; links = result.done.links; ends = result.done.ends.items; tally = result.done.tally })
        base.data_regions result.rows }
{
    let mut halt = halt;
    let tally = base.tally();
    match listen(alloc, fleet.port, doors, output) {
        Ok(()) => {}
        Err(end) => {
            return none_served(alloc, end, halt, tally, unless_memory(end, base));
        }
    }
    let Ok(parts) = SiteParts::make(alloc, base, gate) else {
        return none_served(alloc, FleetEnd::OutOfMemory, halt, tally, None);
    };
    match serve_parts::<Brand, T, G, C, H, D>(
        rt, alloc, fleet, parts, rule, config, clock, &mut halt, doors,
    ) {
        Ok(served) => FleetKept {
            done: FleetDone {
                end: served.end,
                halt,
                links: served.links,
                ends: served.ends,
                tally: served.tally,
            },
            rows: served.rows,
        },
        Err(_) => none_served(alloc, FleetEnd::OutOfMemory, halt, tally, None),
    }
}

/// The numbers of the empty store.
fn no_tally() -> Tally
    ensures { IsTally (no_cells three) result }
{
    Tally {
        ids: [0, 0, 0],
        point_rows: 0,
        point_cells: 0,
    }
}

/// What a fleet did that served no connection.
fn none_served<H: Drop>(
    alloc: Global,
    end: FleetEnd,
    halt: H,
    tally: Tally,
    rows: Option<Regions>,
) -> FleetKept<H>
    ensures outcome { (record { end = result.done.end; links = result.done.links; ends = result.done.ends.items; tally = result.done.tally }) ≡ outcome_none end tally }
    ensures halt { result.done.halt ≡ halt }
    ensures rows { result.rows ≡ rows }
{
    FleetKept {
        done: FleetDone {
            end,
            halt,
            links: 0,
            ends: Vec::new(alloc),
            tally,
        },
        rows,
    }
}

/// The rows, unless memory ran out.
fn unless_memory(end: FleetEnd, rows: Regions) -> Option<Regions>
    ensures { KeepsRows end rows.content rows.data_regions result }
{
    match end {
        FleetEnd::OutOfMemory => None,
        FleetEnd::Closed
        | FleetEnd::Died
        | FleetEnd::Stopped
        | FleetEnd::DoorFault
        | FleetEnd::WriteFault => Some(rows),
    }
}

/// Serves connections over the parts of a site.
fn serve_parts<
    J: StepNames + ConnTerms + Send + Sync,
    T: Threads + Wait + Sync,
    G: Gate + Drop + Send + Sync,
    C: Clock + Send + Drop,
    H: Halt,
    D: Doors,
>(
    rt: &T,
    alloc: Global,
    fleet: &Fleet,
    parts: SiteParts<G>,
    rule: &UidRule,
    config: &Config,
    clock: &mut C,
    halt: &mut H,
    doors: &mut D,
) -> Result<StoreServed, AllocError>
    requires daemons { (1 ≤ fleet.now.daemons) × (fleet.now.daemons ≤ 8) }
    requires workers { fleet.now.workers ≤ 16 }
    requires counter { parts.counter ≡ J.counter }
    requires name { parts.name ≡ J.name }
    requires admission { admission config.now rule.now.patterns ≡ J.admission }
    requires moments { C.moments clock.old ≡ J.moments }
    ensures served { IfOk result (λ s. (told told' : OutputTold) → ServesKept H.answers
        (record { port = fleet.now.port; admission = admission config.now rule.now.patterns; base = store_in parts.name; inlets_tell = AllTell D.Inlet.taken; outlets_tell = AllTell D.Outlet.held })
        (record { output = told; clock = record { moments = C.moments clock.old; faults = C.faults clock.old }; doors = record { waiting = D.waiting doors.old; back = D.back doors.old; counts = D.counts doors.old; faults = D.faults doors.old }; stops = H.stops halt.old })
        (record { output = told'; clock = record { moments = C.moments clock.new; faults = C.faults clock.new }; doors = record { waiting = D.waiting doors.new; back = D.back doors.new; counts = D.counts doors.new; faults = D.faults doors.new }; stops = H.stops halt.new })
        halt.old halt.new (record { end = s.end; links = s.links; ends = s.ends.items; tally = s.tally })
        parts.name.data_regions s.rows) }
    ensures port { IfOk result (λ s. (D.counts doors.new).port ≡ (D.counts doors.old).port) }
    ensures stops_later { H.stops halt.old ≤ H.stops halt.new }
    ensures clock_later { C.faults clock.old ≤ C.faults clock.new }
    ensures doors_later { D.faults doors.old ≤ D.faults doors.new }
    ensures doors { OnErr result (doors.new ≡ doors.old) }
    ensures clock { OnErr result (clock.new ≡ clock.old) }
    ensures halt { OnErr result (halt.new ≡ halt.old) }
{
    let (site, mut openings) = parts.named::<J>();
    let served = serve_site(
        rt,
        alloc,
        fleet.daemons,
        fleet.workers,
        &site,
        &mut openings,
        rule,
        config,
        clock,
        halt,
        doors,
    )?;
    let regions = site.end(openings, served.pass);
    let end = fleet_end(served.end, &served.ends);
    let tally = regions.tally();
    Ok(StoreServed {
        end,
        links: served.links,
        ends: served.ends,
        tally,
        rows: unless_memory(end, regions),
    })
}
