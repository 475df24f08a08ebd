//! Rows of caller 1, between whose steps others step as a script has it.
ghost use Rattle.std.specs.Prelude.{◌≡◌, ◌≤◌};
ghost use Rattle.tsd_io.specs.Causes.{Rose};
ghost use Rattle.cell_model.specs.Seen.{Waited, IsPossible};
ghost use Rattle.cell_solo.specs.Turns.{sight};

use crate::script::Script;
use crate::sharing::{CALLERS, Shared};
use cell_model::{Bumped, Cells, Claimed, Drops, Found, Row, Rows, RowsFault, Stopped};
use qual_codec::Bytes;
use row_key::{Table, Widths};
use std::alloc::{AllocError, Global};
use std::marker::Model;
use tsd_base::kinds::Kind;
use tsd_base::points::Point;

/// Rows of caller 1 of a store. Before each of its steps the others make those that the script has there. Where there is no memory
/// for one of them, the step of caller 1 isn't made either.
///
/// Contracts see it as the callers with what was shown, and how often caller 1 was stopped.
#[derive(Drop)]
pub struct Scripted {
    shared: Shared,
    alloc: Global,
    script: Script,
    stops: u64,
}

impl Model for Scripted {
    ghost use Rattle.test_rows.specs.Sharing.{Scene, IsScene};

    ghost Value = { Scene };

    ghost view = { λ r. record { shared = r.shared; stops = r.stops } };

    ghost invariant = { λ r. IsScene (record { shared = r.shared; stops = r.stops }) };
}

impl Scripted {
    /// Caller 1 of these callers, of which the others do nothing yet.
    pub fn of(alloc: Global, mut shared: Shared) -> Scripted {
        shared.turn(1);
        Scripted {
            shared,
            alloc,
            script: Script::of(Vec::new(alloc), Vec::new(alloc)),
            stops: 0,
        }
    }

    /// What the others do from here on.
    pub fn begin(&mut self, script: Script)
        ensures { self.new ≡ self.old }
    {
        self.script = script;
    }

    /// All callers.
    pub fn shared(&self) -> &Shared {
        &self.shared
    }

    /// The callers, once the others made all steps that were left, and the script with what became of it. Where memory ran out it says
    /// so, and further steps weren't made.
    pub fn end(mut self) -> (Shared, Script, Result<(), AllocError>) {
        let finished = self.script.finish(&mut self.shared, self.alloc);
        (self.shared, self.script, finished)
    }

    /// The steps of others that come before the next one of caller 1.
    fn let_others(&mut self) -> Result<(), AllocError>
        ensures waits { Waited (sight self.old.shared.solo) (sight self.new.shared.solo) }
        ensures possible { IsPossible (sight self.new.shared.solo) }
        ensures stops { self.new.stops ≡ self.old.stops }
    {
        self.shared.turn(1);
        self.script.let_others(&mut self.shared, self.alloc)
    }

    /// Counts a stop.
    fn stop(&mut self) -> Stopped
        ensures shared { self.new.shared ≡ self.old.shared }
        ensures stopped { Rose self.old.stops self.new.stops }
        ensures grows { self.old.stops ≤ self.new.stops }
    {
        self.stops = self.stops.saturating_add(1);
        Stopped
    }
}

impl Rows for Scripted {
    ghost seen = { λ r. sight r.shared.solo };

    ghost stops = { λ r. r.stops };

    ghost spare = { λ r. 2 };

    fn widths(&self) -> Widths {
        self.shared.widths()
    }

    fn read(&mut self, alloc: Global, row: &Row) -> Result<Cells, RowsFault> {
        let Ok(()) = self.let_others() else {
            return Err(RowsFault::OutOfMemory);
        };
        self.shared.read(alloc, row)
    }

    fn next_row(
        &mut self,
        alloc: Global,
        table: Table,
        from: &Bytes,
        to: &Bytes,
    ) -> Result<Option<Found>, RowsFault> {
        let Ok(()) = self.let_others() else {
            return Err(RowsFault::OutOfMemory);
        };
        self.shared.next_row(alloc, table, from, to)
    }

    fn bump(&mut self, kind: Kind) -> Result<Bumped, Stopped> {
        let Ok(()) = self.let_others() else {
            return Err(self.stop());
        };
        if !self.shared.has_room() {
            return Err(self.stop());
        }
        self.shared.bump(kind)
    }

    fn claim(
        &mut self,
        alloc: Global,
        row: &Row,
        qual: &Bytes,
        value: &Bytes,
    ) -> Result<Claimed, RowsFault> {
        let Ok(()) = self.let_others() else {
            return Err(RowsFault::OutOfMemory);
        };
        self.shared.claim(alloc, row, qual, value)
    }

    fn put_point(
        &mut self,
        alloc: Global,
        point: &Point,
        row: &Row,
        qual: &Bytes,
        value: &Bytes,
    ) -> Result<(), RowsFault> {
        let Ok(()) = self.let_others() else {
            return Err(RowsFault::OutOfMemory);
        };
        self.shared.put_point(alloc, point, row, qual, value)
    }

    fn append_point(
        &mut self,
        alloc: Global,
        point: &Point,
        row: &Row,
        piece: &Bytes,
    ) -> Result<(), RowsFault> {
        let Ok(()) = self.let_others() else {
            return Err(RowsFault::OutOfMemory);
        };
        self.shared.append_point(alloc, point, row, piece)
    }

    fn put_merged(
        &mut self,
        alloc: Global,
        row: &Row,
        qual: &Bytes,
        value: &Bytes,
    ) -> Result<(), RowsFault> {
        let Ok(()) = self.let_others() else {
            return Err(RowsFault::OutOfMemory);
        };
        self.shared.put_merged(alloc, row, qual, value)
    }

    fn drop_cells(&mut self, row: Row, which: Drops) -> Result<u64, Stopped> {
        let Ok(()) = self.let_others() else {
            return Err(self.stop());
        };
        if !self.shared.has_room() {
            return Err(self.stop());
        }
        self.shared.drop_cells(row, which)
    }
}
