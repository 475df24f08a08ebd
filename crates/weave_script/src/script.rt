//! A script of three daemons.
ghost use Rattle.std.specs.Prelude.{◌≡◌, ◌≤◌, true, IfOk};
ghost use Rattle.weave_rows.specs.WovenHistories.{IsWoven};

use crate::daemons::Daemon;
use cell_region::Regions;
use compactor::drain;
use compactor::queue::Queue;
use std::alloc::{AllocError, Global};
use tsd_base::kinds::Kind;
use tsd_base::names::Name;
use tsd_hooks::{Patterns, UidRule};
use weave_rows::{Loom, NoDaemon};

/// The third daemon, and then the second and the first, each with those behind it.
type Third<'a> = Daemon<'a, NoDaemon>;

type Second<'a> = Daemon<'a, Third<'a>>;

type First<'a> = Daemon<'a, Second<'a>>;

/// What a script leaves: the store, and how many points were put.
#[derive(Drop)]
pub struct WovenStore {
    pub body: Regions,
    pub accepted: u64,
}

/// The store and the daemons, between two operations of the first.
#[derive(Drop)]
struct Script<'a> {
    loom: Loom,
    first: First<'a>,
}

impl<'a> Script<'a> {
    /// Nothing was done yet.
    fn begin(alloc: Global, rule: &'a UidRule, seed: u64) -> Result<Script<'a>, AllocError> {
        let third: Third<'a> = Daemon::before(alloc, rule, NoDaemon);
        let second: Second<'a> = Daemon::before(alloc, rule, third);
        Ok(Script {
            loom: Loom::make(alloc, seed)?,
            first: Daemon::before(alloc, rule, second),
        })
    }

    /// One more operation of the first daemon.
    fn next(self, alloc: Global) -> Result<Script<'a>, AllocError> {
        let Script { loom, first } = self;
        let mut loom = loom;
        loom.turn(1);
        let worked = first.work(alloc, loom);
        worked.done?;
        Ok(Script {
            loom: worked.loom,
            first: worked.daemon,
        })
    }

    /// Compacts what is left in the queues, that of the first daemon first, without a draw.
    fn end(self, alloc: Global) -> Result<Loom, AllocError> {
        let Script { loom, first } = self;
        let mut loom = loom;
        let second = first.next;
        let third = second.next;
        drain_all(alloc, &mut loom, 1, first.queue)?;
        drain_all(alloc, &mut loom, 2, second.queue)?;
        drain_all(alloc, &mut loom, 3, third.queue)?;
        Ok(loom)
    }
}

/// Compacts each row of a queue, as this caller.
fn drain_all(alloc: Global, loom: &mut Loom, caller: u8, queue: Queue) -> Result<(), AllocError>
    requires least { 1 ≤ caller }
    requires most { caller ≤ 3 }
{
    let mut queue = queue;
    loom.turn(caller);
    let rows = queue.len().min(u64::from(u32::MAX)) as u32;
    match drain(alloc, loom, &mut queue, u32::MAX, rows) {
        Ok(_) => Ok(()),
        Err(_) => Err(AllocError),
    }
}

/// Runs the script of a seed: the first of three daemons does `count` operations on an empty store, in front of whose steps the others do
/// theirs, and then what is left in their queues is compacted. It fails only for want of memory.
pub fn run_script(alloc: Global, seed: u64, count: u32) -> Result<WovenStore, AllocError>
    ensures { IfOk result (λ woven. IsWoven woven.accepted woven.body.content) }
{
    let test = Box::new(
        alloc,
        |_kind: Kind, _name: &Name|
            ensures { result ≡ true }
        { true },
    )?;
    let rule = UidRule::keep(Patterns::none(), test);
    let mut script = Script::begin(alloc, &rule, seed)?;
    for _ in 0..count {
        script = script.next(alloc)?;
    }
    let loom = script.end(alloc)?;
    let (body, accepted) = loom.part();
    Ok(WovenStore { body, accepted })
}
