//! Fleets over doors in memory.
ghost use Rattle.std.specs.Prelude.{◌≡◌, ◌≤◌, ◌<◌, All, IfOk};
ghost use Rattle.tsd_doors.specs.MemLinks.{IsFresh};
ghost use Rattle.tsd_hooks.specs.AllowedNames.{allowed};

use point_put::Config;
use region_locks::{Gate, NoGate};
use std::alloc::{AllocError, Global};
use std::hint::spin_loop;
use std::sync::Wait;
use std::sync::atomic::{AtomicBool, AtomicU32, Ordering};
use std::thread::Threads;
use tsd_base::kinds::Kind;
use tsd_base::names::Name;
use tsd_daemon::Served;
use tsd_doors::mem_doors::{MemDoors, new_link};
use tsd_fleet::{Fleet, FleetDone, FleetEnd, serve};
use tsd_hooks::{Patterns, UidRule};
use tsd_io::clock::MemClock;
use tsd_io::halt::MemHalt;
use tsd_io::memory::{MemSink, MemSource};

/// Adds a connection with these bytes.
fn add_link(
    alloc: Global,
    links: &mut Vec<(MemSource, MemSink)>,
    bytes: &[u8],
) -> Result<(), AllocError>
    requires { All IsFresh links.old.items }
    ensures { IfOk result (λ _. All IsFresh links.new.items) }
{
    let link = new_link(alloc, bytes, 1_000)?;
    links.push(link)?;
    Ok(())
}

/// Doors with two connections.
fn two_links(alloc: Global, first: &[u8], second: &[u8]) -> Result<MemDoors, AllocError> {
    let mut links = Vec::new(alloc);
    add_link(alloc, &mut links, first)?;
    add_link(alloc, &mut links, second)?;
    MemDoors::make(alloc, links, Vec::new(alloc))
}

/// What a fleet of daemons with one worker each did over doors, with a rule that allows each name. Data points stand in three regions.
fn run_fleet<T: Threads + Wait + Sync, G: Gate + Drop + Send + Sync>(
    rt: &T,
    alloc: Global,
    daemons: u32,
    gate: G,
    doors: &mut MemDoors,
) -> Result<FleetDone<MemHalt>, AllocError>
    requires least { 1 ≤ daemons }
    requires most { daemons ≤ 8 }
{
    let fleet = Fleet {
        port: 0,
        daemons,
        workers: 1,
        regions: 3,
    };
    let config = Config {
        auto_metric: true,
        ..Config::usual()
    };
    let mut output = MemSink::make(alloc, 100, Vec::new(alloc))?;
    let mut clock = MemClock::make(Vec::new(alloc), Vec::new(alloc));
    let halt = MemHalt::make(Vec::new(alloc));
    let patterns = Patterns::none();
    let kept = patterns.again(alloc)?;
    let test = Box::new(
        alloc,
        move |kind: Kind, name: &Name|
            ensures { result ≡ allowed patterns kind name.now }
        { patterns.allow(kind, name) },
    )?;
    let rule = UidRule::keep(kept, test);
    Ok(serve(
        rt,
        alloc,
        &fleet,
        gate,
        &rule,
        &config,
        &mut output,
        &mut clock,
        halt,
        doors,
    ))
}

/// How long a call waits for another.
const TURNS: u32 = 1_000_000_000;

/// Two calls, each of which waits for the other.
#[derive(Drop)]
struct Meeting {
    /// The first step on the counters is under way.
    has_counted: AtomicBool,
    /// The first step on the last region of names is under way.
    has_named: AtomicBool,
    /// One waited in vain.
    was_missed: AtomicBool,
}

/// Notes that a call came, and waits for the other, if it is the first.
fn meet(meeting: &Meeting, mine: &AtomicBool, other: &AtomicBool) {
    if mine.load(Ordering::SeqCst) {
        return;
    }
    mine.store(true, Ordering::SeqCst);
    for _ in 0..TURNS {
        if other.load(Ordering::SeqCst) {
            return;
        }
        spin_loop();
    }
    meeting.was_missed.store(true, Ordering::SeqCst);
}

/// It holds the first step in each of two regions until both are under way.
#[derive(Drop)]
struct MeetingGate<'a> {
    meeting: &'a Meeting,
}

impl<'a> Gate for MeetingGate<'a> {
    ghost use Rattle.std.specs.Prelude.{true};

    ghost lets_in = { λ _ _. true };

    fn inside(&self, region: u32) {
        let meeting = self.meeting;
        if region == 0 {
            meet(meeting, &meeting.has_counted, &meeting.has_named);
        }
        if region == 4 {
            meet(meeting, &meeting.has_named, &meeting.has_counted);
        }
    }
}

#[test]
fn connections_are_served_beside_each_other(rt: HostRuntime) -> Result<(), AllocError> {
    let meeting = Meeting {
        has_counted: AtomicBool::new(false),
        has_named: AtomicBool::new(false),
        was_missed: AtomicBool::new(false),
    };
    let mut doors = two_links(
        rt.alloc(),
        b"put m 1356998400 1 h=a\ndiediedie\n",
        b"GET /api/suggest?type=tagk HTTP/1.1\r\n\r\n",
    )?;
    let done = run_fleet(
        &rt,
        rt.alloc(),
        2,
        MeetingGate { meeting: &meeting },
        &mut doors,
    )?;
    assert!(rt; done.end == FleetEnd::Died);
    assert!(rt; done.ends.as_slice() == [Served::Die, Served::End].as_slice());
    assert!(rt; meeting.has_counted.load(Ordering::SeqCst));
    assert!(rt; meeting.has_named.load(Ordering::SeqCst));
    assert!(rt; !meeting.was_missed.load(Ordering::SeqCst));
    Ok(())
}

/// It notes the greatest number of a region.
#[derive(Drop)]
struct GreatestGate<'a> {
    greatest: &'a AtomicU32,
}

impl<'a> Gate for GreatestGate<'a> {
    ghost use Rattle.std.specs.Prelude.{true};

    ghost lets_in = { λ _ _. true };

    fn inside(&self, region: u32) {
        self.greatest.fetch_max(region, Ordering::SeqCst);
    }
}

// The nine regions before those of data points are of names. A metric's id says in which of the others its points stand.
#[test]
fn data_points_stand_in_as_many_regions_as_asked(rt: HostRuntime) -> Result<(), AllocError> {
    let greatest = AtomicU32::new(0);
    let puts = b"put a 1 1 h=a\nput b 1 1 h=a\nput c 1 1 h=a\n";
    let mut doors = two_links(rt.alloc(), puts, b"")?;
    let gate = GreatestGate {
        greatest: &greatest,
    };
    let done = run_fleet(&rt, rt.alloc(), 1, gate, &mut doors)?;
    assert!(rt; done.tally.point_rows == 3);
    assert!(rt; greatest.load(Ordering::SeqCst) == 11);
    Ok(())
}

/// How many points each of four workers puts.
const EACH: u32 = 100_000;

/// Adds the line of a point, at a second that no other point of any worker has: of two metrics and four hosts, and of a part that is
/// new to each worker after each 1,000 points.
fn add_point(text: &mut String, worker: u32, number: u32) -> Result<(), AllocError>
    requires worker { worker < 4 }
    requires number { number < 100000 }
{
    let second = 1_356_998_400 + worker * EACH + number;
    let metric = number % 2;
    let host = number % 4;
    let part = number / 1000;
    writeln!(
        text,
        "put m{metric} {second} {number} host=h{host} part=p{part}"
    )
}

/// Adds a connection that puts the points of a worker.
fn add_worker(
    alloc: Global,
    links: &mut Vec<(MemSource, MemSink)>,
    worker: u32,
) -> Result<(), AllocError>
    requires worker { worker < 4 }
    requires fresh { All IsFresh links.old.items }
    ensures { IfOk result (λ _. All IsFresh links.new.items) }
{
    let mut text = String::new(alloc);
    for number in 0..EACH {
        add_point(&mut text, worker, number)?;
    }
    add_link(alloc, links, text.as_bytes())
}

/// Doors with a connection for each of four workers.
fn four_workers(alloc: Global) -> Result<MemDoors, AllocError> {
    let mut links = Vec::new(alloc);
    add_worker(alloc, &mut links, 0)?;
    add_worker(alloc, &mut links, 1)?;
    add_worker(alloc, &mut links, 2)?;
    add_worker(alloc, &mut links, 3)?;
    MemDoors::make(alloc, links, Vec::new(alloc))
}

// The series have 1,956 rows in the 112 hours if each name has one id throughout.
#[test]
fn workers_that_race_for_names_share_one_id(rt: HostRuntime) -> Result<(), AllocError> {
    let mut doors = four_workers(rt.alloc())?;
    let done = run_fleet(&rt, rt.alloc(), 4, NoGate, &mut doors)?;
    assert!(rt; done.end == FleetEnd::Closed);
    assert!(rt; done.ends.as_slice() == [Served::End; 4].as_slice());
    assert!(rt; done.tally.point_rows == 1_956);
    assert!(rt; done.tally.point_cells == 400_000);
    Ok(())
}
