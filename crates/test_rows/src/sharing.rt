//! Callers of one store, in turns, and what its history showed.
ghost use Rattle.std.specs.Prelude.{◌≡◌, ◌≤◌, true, IfOk, IfErr, IsOk, OnOk, OnErr};
ghost use Rattle.tsd_base.specs.Points.{data_point};
ghost use Rattle.cell_model.specs.Ranges.{InOneRange};
ghost use Rattle.cell_model.specs.Seen.{IsPossible, Knows};
ghost use Rattle.cell_model.specs.declared.answers.RowsFault.TheVariants.{OutOfMemory};
ghost use Rattle.cell_model.specs.declared.events.Step.TheVariants.{Read, NextRow, Bump, Claim, PutPoint, AppendPoint, PutMerged, DropCells};
ghost use Rattle.cell_model.specs.declared.events.Reply.TheVariants.{Shown, Next, BumpReply, ClaimReply, Written, Removed};
ghost use Rattle.cell_solo.specs.Turns.{sight, Steps, Stays};
ghost use Rattle.test_rows.specs.Facts.{AllHold};
ghost use Rattle.test_rows.specs.Sharing.{turned};

use crate::fact::{Fact, note_bump, note_cell, note_cells, note_claim, note_found};
use cell_model::{Bumped, Cells, Claimed, Drops, Found, Row, Rows, RowsFault, Stopped};
use cell_region::Regions;
use cell_solo::Solo;
use qual_codec::Bytes;
use row_key::{Table, Widths};
use std::alloc::Global;
use std::marker::Model;
use tsd_base::kinds::Kind;
use tsd_base::points::Point;

/// How many callers there are.
pub const CALLERS: u8 = 4;

/// For how many steps that take no memory there is room, behind one that takes some.
const ROOM: u8 = 8;

/// Callers 1 to 4 of one store. It makes the steps of the one whose turn it is, and notes what each shows.
///
/// Contracts see it as the callers, the facts, and for how many steps that take no memory there is room at least.
#[derive(Drop)]
pub struct Shared {
    solo: Solo<Regions>,
    facts: Vec<Fact>,
    room: u8,
}

impl Model for Shared {
    ghost use Rattle.test_rows.specs.Sharing.{Sharing, IsSharing};

    ghost Value = { Sharing };

    ghost view = { λ s. record { solo = s.solo; facts = s.facts.items; room = s.room } };

    ghost invariant = { λ s. IsSharing (record { solo = s.solo; facts = s.facts.items; room = s.room }) };
}

impl Shared {
    /// Callers of which nothing was shown yet.
    pub(crate) fn of(alloc: Global, solo: Solo<Regions>) -> Shared
        requires callers { solo.callers ≡ 4 }
        requires room { 8 ≤ solo.room }
        ensures { result.solo ≡ solo }
    {
        Shared {
            solo,
            facts: Vec::new(alloc),
            room: ROOM,
        }
    }

    /// Makes it the turn of a caller.
    pub(crate) fn turn(&mut self, caller: u8)
        requires least { 1 ≤ caller }
        requires most { caller ≤ 4 }
        ensures turned { self.new ≡ turned caller self.old }
        ensures callers { self.old.solo.callers ≡ 4 }
        ensures possible { IsPossible (sight self.new.solo) }
    {
        self.solo.turn(caller);
    }

    /// What was shown.
    pub(crate) fn facts(&self) -> &[Fact]
        ensures facts { result.now ≡ self.now.facts }
        ensures hold { AllHold (sight self.now.solo) result.now }
    {
        self.facts.as_slice()
    }

    /// Whose turn it is.
    pub(crate) fn caller(&self) -> u8
        ensures { result ≡ self.now.solo.caller }
    {
        self.solo.caller()
    }

    /// Whether there is room for a step that takes no memory.
    pub(crate) fn has_room(&self) -> bool
        ensures { result ≡ true → 1 ≤ self.now.room }
    {
        self.room > 0
    }

    /// How many entries of the history are this caller's, its opening included.
    pub fn entries(&self, caller: u8) -> u64 {
        self.solo.entries(caller)
    }

    /// The body, whose store is that after the history.
    pub fn part(self) -> Regions {
        self.solo.part()
    }
}

/// The steps of the caller whose turn it is.
impl Shared {
    /// How many bytes the ids of each kind have.
    pub(crate) fn widths(&self) -> Widths
        ensures { result ≡ (sight self.now.solo).base.widths }
    {
        self.solo.widths()
    }

    /// Reads a row.
    pub(crate) fn read(&mut self, alloc: Global, row: &Row) -> Result<Cells, RowsFault>
        ensures steps { IfOk result (λ cells. Steps self.old.solo (Read row.now) (Shown cells) self.new.solo) }
        ensures stays { OnErr result (Stays self.old.solo self.new.solo) }
        ensures memory { IfErr result (λ fault. fault ≡ OutOfMemory) }
    {
        match self.solo.read(alloc, row) {
            Ok(cells) => {
                self.room = ROOM;
                note_cells(&mut self.facts, alloc, row, &cells);
                Ok(cells)
            }
            Err(fault) => {
                self.room = 0;
                Err(fault)
            }
        }
    }

    /// Looks for the next row of a table from one place on and below another.
    pub(crate) fn next_row(
        &mut self,
        alloc: Global,
        table: Table,
        from: &Bytes,
        to: &Bytes,
    ) -> Result<Option<Found>, RowsFault>
        requires range { InOneRange (sight self.old.solo).base.widths table from.now to.now }
        ensures steps { IfOk result (λ found. Steps self.old.solo (NextRow table from.now to.now) (Next found) self.new.solo) }
        ensures stays { OnErr result (Stays self.old.solo self.new.solo) }
        ensures memory { IfErr result (λ fault. fault ≡ OutOfMemory) }
    {
        match self.solo.next_row(alloc, table, from, to) {
            Ok(found) => {
                self.room = ROOM;
                note_found(&mut self.facts, alloc, &found);
                Ok(found)
            }
            Err(fault) => {
                self.room = 0;
                Err(fault)
            }
        }
    }

    /// Asks for an id.
    pub(crate) fn bump(&mut self, kind: Kind) -> Result<Bumped, Stopped>
        requires spare { 1 ≤ self.old.room }
        ensures steps { IfOk result (λ bumped. Steps self.old.solo (Bump kind) (BumpReply bumped) self.new.solo) }
        ensures never { IsOk result }
    {
        let caller = self.solo.caller();
        let bumped = self.solo.bump(kind)?;
        self.room -= 1;
        note_bump(&mut self.facts, caller, kind, bumped);
        Ok(bumped)
    }

    /// Claims a cell.
    pub(crate) fn claim(
        &mut self,
        alloc: Global,
        row: &Row,
        qual: &Bytes,
        value: &Bytes,
    ) -> Result<Claimed, RowsFault>
        requires knows { Knows (sight self.old.solo) (Claim row.now qual.now value.now) }
        ensures steps { IfOk result (λ claimed. Steps self.old.solo (Claim row.now qual.now value.now) (ClaimReply claimed) self.new.solo) }
        ensures stays { OnErr result (Stays self.old.solo self.new.solo) }
        ensures memory { IfErr result (λ fault. fault ≡ OutOfMemory) }
    {
        match self.solo.claim(alloc, row, qual, value) {
            Ok(claimed) => {
                self.room = ROOM;
                note_claim(&mut self.facts, alloc, row, qual, value, &claimed);
                Ok(claimed)
            }
            Err(fault) => {
                self.room = 0;
                Err(fault)
            }
        }
    }

    /// Writes the cell of a point.
    pub(crate) fn put_point(
        &mut self,
        alloc: Global,
        point: &Point,
        row: &Row,
        qual: &Bytes,
        value: &Bytes,
    ) -> Result<(), RowsFault>
        requires knows { Knows (sight self.old.solo) (PutPoint (data_point point.now) row.now qual.now value.now) }
        ensures steps { OnOk result (Steps self.old.solo (PutPoint (data_point point.now) row.now qual.now value.now) Written self.new.solo) }
        ensures stays { OnErr result (Stays self.old.solo self.new.solo) }
        ensures memory { IfErr result (λ fault. fault ≡ OutOfMemory) }
    {
        match self.solo.put_point(alloc, point, row, qual, value) {
            Ok(()) => {
                self.room = ROOM;
                note_cell(&mut self.facts, alloc, row, qual.list(), value.list(), None);
                Ok(())
            }
            Err(fault) => {
                self.room = 0;
                Err(fault)
            }
        }
    }

    /// Appends a point to the column of its row. It shows no value of the column, so nothing is noted.
    pub(crate) fn append_point(
        &mut self,
        alloc: Global,
        point: &Point,
        row: &Row,
        piece: &Bytes,
    ) -> Result<(), RowsFault>
        requires knows { Knows (sight self.old.solo) (AppendPoint (data_point point.now) row.now piece.now) }
        ensures steps { OnOk result (Steps self.old.solo (AppendPoint (data_point point.now) row.now piece.now) Written self.new.solo) }
        ensures stays { OnErr result (Stays self.old.solo self.new.solo) }
        ensures memory { IfErr result (λ fault. fault ≡ OutOfMemory) }
    {
        match self.solo.append_point(alloc, point, row, piece) {
            Ok(()) => {
                self.room = ROOM;
                Ok(())
            }
            Err(fault) => {
                self.room = 0;
                Err(fault)
            }
        }
    }

    /// Writes a cell that merges others.
    pub(crate) fn put_merged(
        &mut self,
        alloc: Global,
        row: &Row,
        qual: &Bytes,
        value: &Bytes,
    ) -> Result<(), RowsFault>
        requires knows { Knows (sight self.old.solo) (PutMerged row.now qual.now value.now) }
        ensures steps { OnOk result (Steps self.old.solo (PutMerged row.now qual.now value.now) Written self.new.solo) }
        ensures stays { OnErr result (Stays self.old.solo self.new.solo) }
        ensures memory { IfErr result (λ fault. fault ≡ OutOfMemory) }
    {
        match self.solo.put_merged(alloc, row, qual, value) {
            Ok(()) => {
                self.room = ROOM;
                note_cell(&mut self.facts, alloc, row, qual.list(), value.list(), None);
                Ok(())
            }
            Err(fault) => {
                self.room = 0;
                Err(fault)
            }
        }
    }

    /// Drops cells up to their versions.
    pub(crate) fn drop_cells(&mut self, row: Row, which: Drops) -> Result<u64, Stopped>
        requires knows { Knows (sight self.old.solo) (DropCells row which) }
        requires spare { 1 ≤ self.old.room }
        ensures steps { IfOk result (λ count. Steps self.old.solo (DropCells row which) (Removed count) self.new.solo) }
        ensures never { IsOk result }
    {
        let count = self.solo.drop_cells(row, which)?;
        self.room -= 1;
        Ok(count)
    }
}
