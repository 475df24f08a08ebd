//! The top call: everything that the program does.
ghost use Rattle.std.specs.Prelude.{◌≡◌, ◌≢◌, true, false, map, string_bytes, None};
ghost use Rattle.tsd_hooks.specs.AllowedNames.{allowed};
ghost use Rattle.conn_workers.specs.ServedLinks.{AllTell};
ghost use Rattle.serve_job.specs.FleetRuns.{has_no_more};
ghost use Rattle.command_words.specs.CommandWords.{asked_of, fleet_asked};
ghost use Rattle.command_words.specs.PlainAsked.{IsFleet, plain_serve};
ghost use Rattle.tsd_run.specs.FleetStatuses.{asks_clock, fleet_status, reads_input};
ghost use Rattle.tsd_run.specs.RunHeadlines.{RunHeadline};
ghost use Rattle.tsd_run.specs.RunPromises.{Ran, RanFleet};

use crate::fleet_base::first_store;
use crate::new_names::{config_of, patterns_of};
use crate::run_alone::{no_memory, run_alone};
use batch_run::{Ended, Status};
use command_words::{Serve, read_fleet};
use serve_job::{Finished, serve_fleet};
use std::alloc::{AllocError, Global};
use std::sync::Wait;
use std::thread::Threads;
use tsd_base::kinds::Kind;
use tsd_base::names::Name;
use tsd_doors::doors::Doors;
use tsd_fleet::{Fleet, FleetEnd};
use tsd_hooks::UidRule;
use tsd_io::clock::Clock;
use tsd_io::halt::Halt;
use tsd_io::ports::{Sink, Source};

/// Runs the command that the words ask for, over an input, an output and the doors of connections.
///
/// `serve PORT [--daemons N] [--workers N] [--regions N] [--image] [--save]` and the options of `stdio` but `--widths` serves the connections
/// of a port over a store that is empty at first, or with `--image` the one whose image is on the input, which is read before the port is
/// bound. An image that is refused is told as by `unpack`, and no port is bound. It prints `listening P`, and where no more connections come
/// `links N`, `ids A B C`, `rows R` and `cells C`. With `--save` the line `image N` follows and the N bytes of the store's image, or
/// `image: cell N too large` in place of both. Any other words are those of [`crate::run_alone::run_alone`].
pub fn run<
    T: Threads + Wait + Sync,
    S: Source,
    K: Sink,
    C: Clock + Send + Drop,
    H: Halt + Drop,
    D: Doors,
>(
    rt: &T,
    alloc: Global,
    words: &[String],
    input: &mut S,
    output: &mut K,
    clock: &mut C,
    halt: H,
    doors: &mut D,
) -> Ended<H>
    // What a batch prints is the plain aggregation of its points. In the one history of a store names keep their ids, and each reply to a query is the plain aggregation of accepted points.
    ensures headline { RunHeadline (asked_of (map string_bytes words.now)) (AllTell D.Inlet.taken) (AllTell D.Outlet.held)
        (record {
          input = record { taken = S.taken input.old; left = S.left input.old; faults = S.faults input.old };
          output = record { held = K.held output.old; faults = K.faults output.old };
          clock = record { moments = C.moments clock.old; faults = C.faults clock.old };
          doors = record { waiting = D.waiting doors.old; back = D.back doors.old; counts = D.counts doors.old; faults = D.faults doors.old };
          stops = H.stops halt;
        })
        (record {
          input = record { taken = S.taken input.new; left = S.left input.new; faults = S.faults input.new };
          output = record { held = K.held output.new; faults = K.faults output.new };
          clock = record { moments = C.moments clock.new; faults = C.faults clock.new };
          doors = record { waiting = D.waiting doors.new; back = D.back doors.new; counts = D.counts doors.new; faults = D.faults doors.new };
          stops = H.stops result.halt;
        }) result.status }

    // What a command that waits for nobody does, or a fleet, and why it ended so.
    ensures ran { Ran (asked_of (map string_bytes words.now)) (AllTell D.Inlet.taken) (AllTell D.Outlet.held)
        (record {
          input = record { taken = S.taken input.old; left = S.left input.old; faults = S.faults input.old };
          output = record { held = K.held output.old; faults = K.faults output.old };
          clock = record { moments = C.moments clock.old; faults = C.faults clock.old };
          doors = record { waiting = D.waiting doors.old; back = D.back doors.old; counts = D.counts doors.old; faults = D.faults doors.old };
          stops = H.stops halt;
        })
        (record {
          input = record { taken = S.taken input.new; left = S.left input.new; faults = S.faults input.new };
          output = record { held = K.held output.new; faults = K.faults output.new };
          clock = record { moments = C.moments clock.new; faults = C.faults clock.new };
          doors = record { waiting = D.waiting doors.new; back = D.back doors.new; counts = D.counts doors.new; faults = D.faults doors.new };
          stops = H.stops result.halt;
        }) result.status }

    // A fleet takes nothing of the input but an image, and only a fleet touches the doors. Connections alone ask the clock.
    ensures input { reads_input (asked_of (map string_bytes words.now)) ≡ false → input.new ≡ input.old }
    ensures doors { fleet_asked (asked_of (map string_bytes words.now)) ≡ None → doors.new ≡ doors.old }
    ensures clock { asks_clock (asked_of (map string_bytes words.now)) ≡ false → clock.new ≡ clock.old }
{
    match read_fleet(alloc, words) {
        Ok(Some(serve)) => run_fleet(rt, alloc, &serve, input, output, clock, halt, doors),
        Ok(None) => run_alone(alloc, words, input, output, clock, halt),
        Err(AllocError) => no_memory(halt),
    }
}

/// Makes the rule for new names, and serves the connections of a fleet from the store that it begins with.
fn run_fleet<
    T: Threads + Wait + Sync,
    S: Source,
    K: Sink,
    C: Clock + Send + Drop,
    H: Halt + Drop,
    D: Doors,
>(
    rt: &T,
    alloc: Global,
    asked: &Serve<'_>,
    input: &mut S,
    output: &mut K,
    clock: &mut C,
    halt: H,
    doors: &mut D,
) -> Ended<H>
    requires fleet { IsFleet asked.now }
    ensures ran { RanFleet (plain_serve asked.now) (AllTell D.Inlet.taken) (AllTell D.Outlet.held)
        (record {
          input = record { taken = S.taken input.old; left = S.left input.old; faults = S.faults input.old };
          output = record { held = K.held output.old; faults = K.faults output.old };
          clock = record { moments = C.moments clock.old; faults = C.faults clock.old };
          doors = record { waiting = D.waiting doors.old; back = D.back doors.old; counts = D.counts doors.old; faults = D.faults doors.old };
          stops = H.stops halt;
        })
        (record {
          input = record { taken = S.taken input.new; left = S.left input.new; faults = S.faults input.new };
          output = record { held = K.held output.new; faults = K.faults output.new };
          clock = record { moments = C.moments clock.new; faults = C.faults clock.new };
          doors = record { waiting = D.waiting doors.new; back = D.back doors.new; counts = D.counts doors.new; faults = D.faults doors.new };
          stops = H.stops result.halt;
        }) result.status }
    ensures input { asked.now.image ≡ false → input.new ≡ input.old }
{
    let Ok(patterns) = patterns_of(alloc, &asked.names.patterns) else {
        return no_memory(halt);
    };
    let Ok(kept) = patterns.again(alloc) else {
        return no_memory(halt);
    };
    let Ok(test) = Box::new(
        alloc,
        move |kind: Kind, name: &Name|
            ensures { result ≡ allowed patterns kind name.now }
        { patterns.allow(kind, name) },
    ) else {
        return no_memory(halt);
    };
    let rule = UidRule::keep(kept, test);
    let base = match first_store(alloc, asked, input, output) {
        Ok(base) => base,
        Err(status) => return Ended { status, halt },
    };
    let config = config_of(&asked.names, asked.appends);
    let fleet = fleet_of(asked);
    let Finished { end, refused, halt } = serve_fleet(
        rt, alloc, &fleet, base, asked.save, &rule, &config, output, clock, halt, doors,
    );
    let status = status_of(end, refused);
    Ended { status, halt }
}

/// Where a fleet listens, and how large it is.
fn fleet_of(asked: &Serve<'_>) -> Fleet
    ensures port { result.port ≡ asked.now.port }
    ensures daemons { result.daemons ≡ asked.now.daemons }
    ensures workers { result.workers ≡ asked.now.workers }
    ensures regions { result.regions ≡ asked.now.regions }
{
    Fleet {
        port: asked.port,
        daemons: asked.daemons,
        workers: asked.workers,
        regions: asked.regions,
    }
}

/// The status of a fleet's end, and whether its store was to be saved and has no image.
fn status_of(end: FleetEnd, refused: bool) -> Status
    ensures status { result ≡ fleet_status end refused }
    ensures done { result ≡ Status.Done → has_no_more end ≡ true }
    ensures stopped { result ≡ Status.Stopped → end ≡ FleetEnd.Stopped }
    ensures door_fault { result ≡ Status.DoorFault → end ≡ FleetEnd.DoorFault }
    ensures write_fault { result ≡ Status.WriteFault → end ≡ FleetEnd.WriteFault }
    ensures no_read { result ≢ Status.ReadFault }
    ensures no_clock { result ≢ Status.ClockFault }
{
    if refused {
        return Status::Refused;
    }
    match end {
        FleetEnd::Closed | FleetEnd::Died => Status::Done,
        FleetEnd::Stopped => Status::Stopped,
        FleetEnd::DoorFault => Status::DoorFault,
        FleetEnd::WriteFault => Status::WriteFault,
        FleetEnd::OutOfMemory => Status::Memory,
    }
}
