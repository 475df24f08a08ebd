//! The rows of a daemon at work.
ghost use Rattle.std.specs.Prelude.{◌≡◌, ◌≤◌, ◌+◌, OnErr, OnOk};
ghost use Rattle.tsd_io.specs.Causes.{Rose};
ghost use Rattle.cell_model.specs.Seen.{Waited, IsPossible};
ghost use Rattle.cell_solo.specs.Turns.{history_of, sight};
ghost use Rattle.weave_rows.specs.WovenHistories.{IsLater};

use crate::beginning::Beginning;
use crate::loom::Loom;
use crate::next_daemon::NextDaemon;
use cell_model::answers::{Bumped, Claimed, RowsFault, Stopped};
use cell_model::row::{Cells, Drops, Found, Row};
use cell_model::rows::Rows;
use qual_codec::Bytes;
use row_key::{Table, Widths};
use std::alloc::Global;
use std::marker::{Model, PhantomData};
use tsd_base::kinds::Kind;
use tsd_base::points::Point;

/// The rows of a daemon, for one operation.
///
/// Before each step a number below 8 is drawn. On 0 the daemon behind this one does one operation first. On 1 a number below 32 is drawn,
/// and on 0 this daemon is stopped before the step: its count of stops rises. Where the daemon behind found no memory, this one is stopped too.
#[derive(Drop)]
pub struct DaemonRows<J: Beginning, N: NextDaemon> {
    // None only while the daemon behind is at work.
    inner: Option<(Loom, N)>,
    stops: u64,
    fed: bool,
    alloc: Global,
    of: PhantomData<J>,
}

impl<J: Beginning, N: NextDaemon> Model for DaemonRows<J, N> {
    ghost use Rattle.weave_rows.specs.DaemonPlays.{DaemonPlay, IsAtWork, loom_in};

    ghost Value = { DaemonPlay };

    ghost view = { λ d. record { loom = loom_in d.inner; stops = d.stops } };

    ghost invariant = { λ d. IsAtWork J.history J.caller N.depth d.inner };
}

impl<J: Beginning, N: NextDaemon> DaemonRows<J, N> {
    /// The rows of the caller whose turn it is, in front of another daemon, if there is one.
    pub fn over(alloc: Global, loom: Loom, next: N) -> DaemonRows<J, N>
        requires history { history_of loom.play ≡ J.history }
        requires caller { loom.play.caller ≡ J.caller }
        requires least { 1 ≤ loom.play.caller }
        requires most { loom.play.caller + N.depth ≤ 3 }
    {
        DaemonRows {
            inner: Some((loom, next)),
            stops: 0,
            fed: true,
            alloc,
            of: PhantomData,
        }
    }

    /// The store, the daemon behind, and whether it found memory whenever it worked.
    pub fn part(self) -> (Loom, N, bool)
        ensures turn { result.0.play.caller ≡ J.caller }
        ensures later { IsLater J.caller J.history (history_of result.0.play) }
    {
        let DaemonRows {
            inner,
            stops: _,
            fed,
            alloc: _,
            of: _,
        } = self;
        let Some((loom, next)) = inner else {
            unreachable!()
        };
        (loom, next, fed)
    }

    /// Draws what comes before a step, and answers whether it is to be made. Behind it there is room for a step that takes no memory.
    fn may_step(&mut self) -> Result<(), Stopped>
        ensures waited { Waited (sight self.old.loom.play) (sight self.new.loom.play) }
        ensures possible { IsPossible (sight self.new.loom.play) }
        ensures grows { self.old.stops ≤ self.new.stops }
        ensures stopped { OnErr result (Rose self.old.stops self.new.stops) }
        ensures stands { OnOk result (self.new.stops ≡ self.old.stops) }
        ensures room { OnOk result (1 ≤ self.new.loom.room) }
    {
        let Some((loom, next)) = self.inner.take() else {
            unreachable!()
        };
        let drawn = draw_step(self.alloc, loom, next);
        let has_room = drawn.loom.has_room();
        self.inner = Some((drawn.loom, drawn.next));
        if !has_room || !drawn.fed {
            self.fed = false;
            self.stops = self.stops.saturating_add(1);
            return Err(Stopped);
        }
        if drawn.goes_on {
            return Ok(());
        }
        self.stops = self.stops.saturating_add(1);
        Err(Stopped)
    }
}

/// What was drawn before a step: whether the step is to be made, and whether the daemon behind found memory.
#[derive(Drop)]
struct Drawn<N: NextDaemon> {
    loom: Loom,
    next: N,
    goes_on: bool,
    fed: bool,
}

/// Draws what comes before a step of the caller whose turn it is: the daemon behind it may work first.
fn draw_step<N: NextDaemon>(alloc: Global, loom: Loom, next: N) -> Drawn<N>
    requires most { loom.play.caller + N.depth ≤ 3 }
    ensures callers { loom.play.callers ≡ 3 }
    ensures turn { result.loom.play.caller ≡ loom.play.caller }
    ensures later { IsLater (loom.play.caller + 1) (history_of loom.play) (history_of result.loom.play) }
{
    let mut loom = loom;
    match loom.draw(8) {
        0 => {
            let worked = next.operate(alloc, loom);
            Drawn {
                loom: worked.loom,
                next: worked.daemon,
                goes_on: true,
                fed: worked.done.is_ok(),
            }
        }
        1 => {
            let goes_on = loom.draw(32) != 0;
            Drawn {
                loom,
                next,
                goes_on,
                fed: true,
            }
        }
        _ => Drawn {
            loom,
            next,
            goes_on: true,
            fed: true,
        },
    }
}

impl<J: Beginning, N: NextDaemon> Rows for DaemonRows<J, N> {
    ghost use Rattle.cell_solo.specs.Turns.{sight};

    ghost seen = { λ d. sight d.loom.play };

    ghost stops = { λ d. d.stops };

    ghost spare = { λ d. 2 };

    fn widths(&self) -> Widths {
        let Some((loom, _)) = &self.inner else {
            unreachable!()
        };
        loom.widths()
    }

    fn read(&mut self, alloc: Global, row: &Row) -> Result<Cells, RowsFault> {
        let Ok(()) = self.may_step() else {
            return Err(RowsFault::Stopped);
        };
        let Some((loom, _)) = &mut self.inner else {
            unreachable!()
        };
        loom.read(alloc, row)
    }

    fn next_row(
        &mut self,
        alloc: Global,
        table: Table,
        from: &Bytes,
        to: &Bytes,
    ) -> Result<Option<Found>, RowsFault> {
        let Ok(()) = self.may_step() else {
            return Err(RowsFault::Stopped);
        };
        let Some((loom, _)) = &mut self.inner else {
            unreachable!()
        };
        loom.next_row(alloc, table, from, to)
    }

    fn bump(&mut self, kind: Kind) -> Result<Bumped, Stopped> {
        let Ok(()) = self.may_step() else {
            return Err(Stopped);
        };
        let Some((loom, _)) = &mut self.inner else {
            unreachable!()
        };
        loom.bump(kind)
    }

    fn claim(
        &mut self,
        alloc: Global,
        row: &Row,
        qual: &Bytes,
        value: &Bytes,
    ) -> Result<Claimed, RowsFault> {
        let Ok(()) = self.may_step() else {
            return Err(RowsFault::Stopped);
        };
        let Some((loom, _)) = &mut self.inner else {
            unreachable!()
        };
        loom.claim(alloc, row, qual, value)
    }

    fn put_point(
        &mut self,
        alloc: Global,
        point: &Point,
        row: &Row,
        qual: &Bytes,
        value: &Bytes,
    ) -> Result<(), RowsFault> {
        let Ok(()) = self.may_step() else {
            return Err(RowsFault::Stopped);
        };
        let Some((loom, _)) = &mut self.inner else {
            unreachable!()
        };
        loom.put_point(alloc, point, row, qual, value)
    }

    fn append_point(
        &mut self,
        alloc: Global,
        point: &Point,
        row: &Row,
        piece: &Bytes,
    ) -> Result<(), RowsFault> {
        let Ok(()) = self.may_step() else {
            return Err(RowsFault::Stopped);
        };
        let Some((loom, _)) = &mut self.inner else {
            unreachable!()
        };
        loom.append_point(alloc, point, row, piece)
    }

    fn put_merged(
        &mut self,
        alloc: Global,
        row: &Row,
        qual: &Bytes,
        value: &Bytes,
    ) -> Result<(), RowsFault> {
        let Ok(()) = self.may_step() else {
            return Err(RowsFault::Stopped);
        };
        let Some((loom, _)) = &mut self.inner else {
            unreachable!()
        };
        loom.put_merged(alloc, row, qual, value)
    }

    fn drop_cells(&mut self, row: Row, which: Drops) -> Result<u64, Stopped> {
        let Ok(()) = self.may_step() else {
            return Err(Stopped);
        };
        let Some((loom, _)) = &mut self.inner else {
            unreachable!()
        };
        loom.drop_cells(row, which)
    }
}
