//! A fleet over a store of its own, from the line of its port to its last lines.
ghost use Rattle.std.specs.Prelude.{◌≡◌, ◌≢◌, ◌≤◌, true, Some};
ghost use Rattle.cell_model.specs.Sound.{IsBase, IsSound};
ghost use Rattle.cell_region.specs.DividedStore.{DividedStore};
ghost use Rattle.point_put.specs.Admissions.{admission};
ghost use Rattle.conn_workers.specs.ServedLinks.{AllTell};
ghost use Rattle.serve_job.specs.FleetRuns.{FinishesJob, FleetCauses, RunsFleet, WriteCause, has_no_more};

use crate::last_lines::last_lines;
use cell_model::Tally;
use cell_region::Regions;
use point_put::Config;
use region_locks::NoGate;
use std::alloc::Global;
use std::sync::Wait;
use std::thread::Threads;
use tsd_doors::doors::Doors;
use tsd_fleet::{Fleet, FleetDone, FleetEnd, FleetKept, serve_from};
use tsd_hooks::UidRule;
use tsd_io::clock::Clock;
use tsd_io::halt::Halt;
use tsd_io::ports::{Failed, Sink};

/// How a fleet's job ended.
#[derive(Drop)]
pub struct Finished<H> {
    /// Why it ended.
    pub end: FleetEnd,

    /// Whether the store was to be saved, and has a cell that is too large for an image.
    pub refused: bool,

    /// The halt, as its last ask left it.
    pub halt: H,
}

/// Serves the connections of a fleet as `serve_from` does. Where no more come it prints how many were accepted, and the numbers of the
/// store that they left: `links N`, `ids A B C`, `rows R`, `cells C`, a line each. A store that is to be saved follows: `image N`, and the
/// N bytes of its image, or `image: cell N too large` where it has none. Where the output fails then, the end is `WriteFault`. Where memory
/// runs out nothing is printed behind the port's line.
pub fn serve_fleet<
    T: Threads + Wait + Sync,
    K: Sink,
    C: Clock + Send + Drop,
    H: Halt + Drop,
    D: Doors,
>(
    rt: &T,
    alloc: Global,
    fleet: &Fleet,
    base: Regions,
    save: bool,
    rule: &UidRule,
    config: &Config,
    output: &mut K,
    clock: &mut C,
    halt: H,
    doors: &mut D,
) -> Finished<H>
    requires daemons { (1 ≤ fleet.now.daemons) × (fleet.now.daemons ≤ 8) }
    requires workers { (1 ≤ fleet.now.workers) × (fleet.now.workers ≤ 16) }
    requires regions { (1 ≤ fleet.now.regions) × (fleet.now.regions ≤ 16) }
    requires base { IsBase base.content }
    requires divided { base.data_regions ≡ fleet.now.regions }
    ensures runs { RunsFleet
        (record { port = fleet.now.port; admission = admission config.now rule.now.patterns; base = base.content; inlets_tell = AllTell D.Inlet.taken; outlets_tell = AllTell D.Outlet.held }) save
        (record { output = record { held = K.held output.old; faults = K.faults output.old }; clock = record { moments = C.moments clock.old; faults = C.faults clock.old }; doors = record { waiting = D.waiting doors.old; back = D.back doors.old; counts = D.counts doors.old; faults = D.faults doors.old }; stops = H.stops halt })
        (record { output = record { held = K.held output.new; faults = K.faults output.new }; clock = record { moments = C.moments clock.new; faults = C.faults clock.new }; doors = record { waiting = D.waiting doors.new; back = D.back doors.new; counts = D.counts doors.new; faults = D.faults doors.new }; stops = H.stops result.halt })
        result.end result.refused }
    ensures causes { FleetCauses
        (record { output = record { held = K.held output.old; faults = K.faults output.old }; clock = record { moments = C.moments clock.old; faults = C.faults clock.old }; doors = record { waiting = D.waiting doors.old; back = D.back doors.old; counts = D.counts doors.old; faults = D.faults doors.old }; stops = H.stops halt })
        (record { output = record { held = K.held output.new; faults = K.faults output.new }; clock = record { moments = C.moments clock.new; faults = C.faults clock.new }; doors = record { waiting = D.waiting doors.new; back = D.back doors.new; counts = D.counts doors.new; faults = D.faults doors.new }; stops = H.stops result.halt })
        result.end }
{
    let FleetKept { done, rows } = serve_from(
        rt, alloc, fleet, base, NoGate, rule, config, output, clock, halt, doors,
    );
    let FleetDone {
        end,
        halt,
        links,
        ends: _,
        tally,
    } = done;
    let finished = finish(alloc, end, links, &tally, save, rows, output);
    Finished {
        end: finished.end,
        refused: finished.refused,
        halt,
    }
}

/// How a job ended behind the serving.
#[derive(Clone, Copy, Debug, PartialEq, Eq)]
struct JobEnd {
    end: FleetEnd,
    refused: bool,
}

/// Prints the last lines where no more connections came, and behind them the store where it is to be saved, and answers how the job ended.
fn finish<K: Sink>(
    alloc: Global,
    end: FleetEnd,
    links: u64,
    tally: &Tally,
    save: bool,
    rows: Option<Regions>,
    output: &mut K,
) -> JobEnd
    requires sound { (left : DividedStore) → end ≢ FleetEnd.OutOfMemory → rows ≡ Some left → IsSound left.content }
    ensures prints { (left : DividedStore) → (end ≢ FleetEnd.OutOfMemory → rows ≡ Some left) → FinishesJob end result.end result.refused save (K.held output.old) (K.held output.new) links tally.now left.content }
    ensures cause { WriteCause end result.end (K.faults output.old) (K.faults output.new) }
{
    match end {
        FleetEnd::Closed | FleetEnd::Died => match rows {
            Some(rows) => print_last(alloc, end, links, tally, save, &rows, output),
            None => JobEnd {
                end: FleetEnd::OutOfMemory,
                refused: false,
            },
        },
        _ => JobEnd {
            end,
            refused: false,
        },
    }
}

/// Prints the last lines of a fleet that no more connections came to.
fn print_last<K: Sink>(
    alloc: Global,
    end: FleetEnd,
    links: u64,
    tally: &Tally,
    save: bool,
    rows: &Regions,
    output: &mut K,
) -> JobEnd
    requires more { has_no_more end ≡ true }
    requires sound { IsSound rows.now.content }
    ensures prints { FinishesJob end result.end result.refused save (K.held output.old) (K.held output.new) links tally.now rows.now.content }
    ensures cause { WriteCause end result.end (K.faults output.old) (K.faults output.new) }
{
    let Ok(lines) = last_lines(alloc, links, tally, save, rows) else {
        return JobEnd {
            end: FleetEnd::OutOfMemory,
            refused: false,
        };
    };
    match lines.give(output) {
        Ok(()) => JobEnd {
            end,
            refused: lines.refused,
        },
        Err(Failed) => JobEnd {
            end: FleetEnd::WriteFault,
            refused: false,
        },
    }
}
