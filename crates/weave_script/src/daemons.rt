//! Daemons, one behind the other.
ghost use Rattle.std.specs.Prelude.{◌≡◌, ◌≤◌, ◌+◌};
ghost use Rattle.cell_solo.specs.Turns.{history_of};
ghost use Rattle.weave_rows.specs.WovenHistories.{IsLater};

use crate::operations::{act, draw_operation};
use compactor::queue::Queue;
use std::alloc::{AllocError, Global};
use std::marker::Brand;
use tsd_hooks::UidRule;
use weave_rows::{Beginning, DaemonRows, Loom, NextDaemon, Worked};

/// A daemon between two operations: the rows that it is to compact, and the daemon behind it.
#[derive(Drop)]
pub(crate) struct Daemon<'a, N: NextDaemon> {
    pub(crate) rule: &'a UidRule,
    pub(crate) queue: Queue,
    pub(crate) next: N,
}

impl<'a, N: NextDaemon> Daemon<'a, N> {
    /// A daemon whose queue is empty, in front of another one.
    pub(crate) fn before(alloc: Global, rule: &'a UidRule, next: N) -> Daemon<'a, N> {
        Daemon {
            rule,
            queue: Queue::make(alloc),
            next,
        }
    }

    /// Does one operation, as the caller whose turn it is. What it is is drawn first.
    pub(crate) fn work(self, alloc: Global, loom: Loom) -> Worked<Daemon<'a, N>>
        requires least { 1 ≤ loom.play.caller }
        requires most { loom.play.caller + N.depth ≤ 3 }
        ensures turn { result.loom.play.caller ≡ loom.play.caller }
        ensures later { IsLater loom.play.caller (history_of loom.play) (history_of result.loom.play) }
    {
        work_from::<Brand, N>(alloc, self, loom)
    }
}

/// Does one operation that begins here.
fn work_from<'a, J: Beginning, N: NextDaemon>(
    alloc: Global,
    daemon: Daemon<'a, N>,
    loom: Loom,
) -> Worked<Daemon<'a, N>>
    requires history { history_of loom.play ≡ J.history }
    requires caller { loom.play.caller ≡ J.caller }
    requires least { 1 ≤ loom.play.caller }
    requires most { loom.play.caller + N.depth ≤ 3 }
    ensures turn { result.loom.play.caller ≡ J.caller }
    ensures later { IsLater J.caller J.history (history_of result.loom.play) }
{
    let Daemon { rule, queue, next } = daemon;
    let mut loom = loom;
    let mut queue = queue;
    let operation = match draw_operation(alloc, &mut loom) {
        Ok(operation) => operation,
        Err(error) => {
            return Worked {
                loom,
                daemon: Daemon { rule, queue, next },
                done: Err(error),
            };
        }
    };
    let rows: DaemonRows<J, N> = DaemonRows::over(alloc, loom, next);
    let (rows, done) = act(alloc, rows, rule, &mut queue, operation);
    let (loom, next, fed) = rows.part();
    Worked {
        loom,
        daemon: Daemon { rule, queue, next },
        done: if fed { done } else { Err(AllocError) },
    }
}

impl<'a, N: NextDaemon> NextDaemon for Daemon<'a, N> {
    ghost use Rattle.std.specs.Prelude.{◌+◌};

    ghost depth = { N.depth + 1 };

    fn operate(self, alloc: Global, loom: Loom) -> Worked<Daemon<'a, N>> {
        let mut loom = loom;
        let caller = loom.caller();
        loom.turn(caller + 1);
        let mut worked = self.work(alloc, loom);
        worked.loom.turn(caller);
        worked
    }
}
