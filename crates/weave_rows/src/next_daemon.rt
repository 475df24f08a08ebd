//! The daemon behind another one.
ghost use Rattle.std.specs.Prelude.{◌≡◌, ◌≤◌, ◌+◌};
ghost use Rattle.cell_solo.specs.Turns.{history_of};
ghost use Rattle.weave_rows.specs.WovenHistories.{IsLater};

use crate::loom::Loom;
use std::alloc::{AllocError, Global};

/// What an operation leaves: the store, the daemon, and whether there was memory for all of it.
#[derive(Drop)]
pub struct Worked<N: Drop> {
    pub loom: Loom,
    pub daemon: N,
    pub done: Result<(), AllocError>,
}

/// A daemon that stands behind another one, or none. Before a step of that one it may do one operation of its own.
pub trait NextDaemon: Sized + Drop {
    ghost use Rattle.std.specs.Prelude.{ℕ};

    /// How many daemons there are from this one on.
    ghost depth: { ℕ };

    /// Does one operation, as the caller behind the one whose turn it is. Then it is the turn of that one again.
    fn operate(self, alloc: Global, loom: Loom) -> Worked<Self>
        requires most { loom.play.caller + depth ≤ 3 }
        ensures turn { result.loom.play.caller ≡ loom.play.caller }
        ensures later { IsLater (loom.play.caller + 1) (history_of loom.play) (history_of result.loom.play) };
}

/// No daemon stands behind the last one.
#[derive(Drop)]
pub struct NoDaemon;

impl NextDaemon for NoDaemon {
    ghost depth = { 0 };

    fn operate(self, _alloc: Global, loom: Loom) -> Worked<NoDaemon> {
        Worked {
            loom,
            daemon: self,
            done: Ok(()),
        }
    }
}
