//! One store of three callers.
ghost use Rattle.std.specs.Prelude.{◌≡◌, ◌≤◌, ◌<◌, ◌+◌, true, IfOk, IfErr, IsOk, OnOk, OnErr};
ghost use Rattle.tsd_base.specs.Points.{data_point};
ghost use Rattle.cell_model.specs.declared.answers.RowsFault.TheVariants.{OutOfMemory};
ghost use Rattle.cell_model.specs.declared.events.Step.TheVariants.{Read, NextRow, Bump, Claim, PutPoint, AppendPoint, PutMerged, DropCells};
ghost use Rattle.cell_model.specs.declared.events.Reply.TheVariants.{Shown, Next, BumpReply, ClaimReply, Written, Removed};
ghost use Rattle.cell_model.specs.Ranges.{InOneRange};
ghost use Rattle.cell_model.specs.Seen.{Knows, IsPossible};
ghost use Rattle.cell_solo.specs.Turns.{sight, Steps, Stays};
ghost use Rattle.weave_rows.specs.Looms.{turned};
ghost use Rattle.weave_rows.specs.WovenHistories.{IsWoven};

use crate::draws::Draws;
use cell_model::answers::{Bumped, Claimed, RowsFault, Stopped};
use cell_model::row::{Cells, Drops, Found, Listing, Row};
use cell_model::rows::Rows;
use cell_region::{DATA_REGIONS, Regions};
use cell_solo::Solo;
use qual_codec::Bytes;
use row_key::{Table, Widths};
use std::alloc::{AllocError, Global};
use std::marker::Model;
use tsd_base::kinds::Kind;
use tsd_base::points::Point;

/// How many callers there are.
const CALLERS: u8 = 3;

/// For how many steps that take no memory there is room behind one that takes some.
const ROOM: u8 = 8;

/// One store of three callers, with what they share: the numbers by which their script goes on.
///
/// It is [`Rows`] for the caller whose turn it is, and counts the points that any of them puts. Contracts see the callers' turns, that number, and for
/// how many steps that take no memory there is room at least.
#[derive(Drop)]
pub struct Loom {
    rows: Solo<Regions>,
    draws: Draws,
    accepted: u64,
    room: u8,
}

impl Model for Loom {
    ghost use Rattle.weave_rows.specs.Looms.{IsLoom, Loomed};

    ghost Value = { Loomed };

    ghost view = { λ l. record { play = l.rows; accepted = l.accepted; room = l.room } };

    ghost invariant = { λ l. IsLoom (record { play = l.rows; accepted = l.accepted; room = l.room }) };
}

impl Loom {
    /// An empty store of three callers, each of which has opened, and a generator that begins with a seed. It is the turn of the first.
    pub fn make(alloc: Global, seed: u64) -> Result<Loom, AllocError> {
        let body = Regions::of(alloc, Listing::none(alloc, Widths::three()), DATA_REGIONS)?;
        let rows = Solo::make(alloc, body, CALLERS)?;
        Ok(Loom {
            rows,
            draws: Draws::seeded(seed),
            accepted: 0,
            room: ROOM,
        })
    }

    /// The next number below a bound.
    pub fn draw(&mut self, bound: u32) -> u32
        requires { 1 ≤ bound }
        ensures below { result < bound }
        ensures same { self.new ≡ self.old }
        ensures callers { self.old.play.callers ≡ 3 }
    {
        self.draws.below(bound)
    }

    /// The number of the caller whose turn it is.
    pub fn caller(&self) -> u8
        ensures { result ≡ self.now.play.caller }
    {
        self.rows.caller()
    }

    /// Makes it the turn of another caller.
    pub fn turn(&mut self, caller: u8)
        requires least { 1 ≤ caller }
        requires most { caller ≤ 3 }
        ensures turned { self.new ≡ turned caller self.old }
        ensures possible { IsPossible (sight self.new.play) }
    {
        self.rows.turn(caller);
    }

    /// Whether there is room for one more step that takes no memory.
    pub fn has_room(&self) -> bool
        ensures room { result ≡ true → 1 ≤ self.now.room }
        ensures callers { self.now.play.callers ≡ 3 }
        ensures possible { IsPossible (sight self.now.play) }
    {
        self.room > 0
    }

    /// The store, and how many points were put.
    pub fn part(self) -> (Regions, u64)
        ensures { IsWoven result.1 result.0.content }
    {
        (self.rows.part(), self.accepted)
    }
}

impl Rows for Loom {
    ghost use Rattle.cell_solo.specs.Turns.{sight};

    ghost seen = { λ l. sight l.play };

    ghost stops = { λ l. 0 };

    ghost spare = { λ l. l.room };

    fn widths(&self) -> Widths {
        self.rows.widths()
    }

    fn read(&mut self, alloc: Global, row: &Row) -> Result<Cells, RowsFault>
        ensures steps { IfOk result (λ cells. Steps self.old.play (Read row.now) (Shown cells) self.new.play) }
        ensures stays { OnErr result (Stays self.old.play self.new.play) }
        ensures memory { IfErr result (λ fault. fault ≡ OutOfMemory) }
        ensures room { OnOk result (self.new.room ≡ 8) }
    {
        match self.rows.read(alloc, row) {
            Ok(cells) => {
                self.room = ROOM;
                Ok(cells)
            }
            Err(fault) => {
                self.room = 0;
                Err(fault)
            }
        }
    }

    fn next_row(
        &mut self,
        alloc: Global,
        table: Table,
        from: &Bytes,
        to: &Bytes,
    ) -> Result<Option<Found>, RowsFault>
        requires range { InOneRange (sight self.old.play).base.widths table from.now to.now }
        ensures steps { IfOk result (λ found. Steps self.old.play (NextRow table from.now to.now) (Next found) self.new.play) }
        ensures stays { OnErr result (Stays self.old.play self.new.play) }
        ensures memory { IfErr result (λ fault. fault ≡ OutOfMemory) }
        ensures room { OnOk result (self.new.room ≡ 8) }
    {
        match self.rows.next_row(alloc, table, from, to) {
            Ok(found) => {
                self.room = ROOM;
                Ok(found)
            }
            Err(fault) => {
                self.room = 0;
                Err(fault)
            }
        }
    }

    fn bump(&mut self, kind: Kind) -> Result<Bumped, Stopped>
        requires spare { 1 ≤ self.old.room }
        ensures steps { IfOk result (λ bumped. Steps self.old.play (Bump kind) (BumpReply bumped) self.new.play) }
        ensures never { IsOk result }
        ensures spare { self.old.room ≤ self.new.room + 1 }
    {
        let bumped = self.rows.bump(kind)?;
        self.room -= 1;
        Ok(bumped)
    }

    fn claim(
        &mut self,
        alloc: Global,
        row: &Row,
        qual: &Bytes,
        value: &Bytes,
    ) -> Result<Claimed, RowsFault>
        requires knows { Knows (sight self.old.play) (Claim row.now qual.now value.now) }
        ensures steps { IfOk result (λ claimed. Steps self.old.play (Claim row.now qual.now value.now) (ClaimReply claimed) self.new.play) }
        ensures stays { OnErr result (Stays self.old.play self.new.play) }
        ensures memory { IfErr result (λ fault. fault ≡ OutOfMemory) }
        ensures room { OnOk result (self.new.room ≡ 8) }
    {
        match self.rows.claim(alloc, row, qual, value) {
            Ok(claimed) => {
                self.room = ROOM;
                Ok(claimed)
            }
            Err(fault) => {
                self.room = 0;
                Err(fault)
            }
        }
    }

    fn put_point(
        &mut self,
        alloc: Global,
        point: &Point,
        row: &Row,
        qual: &Bytes,
        value: &Bytes,
    ) -> Result<(), RowsFault>
        requires knows { Knows (sight self.old.play) (PutPoint (data_point point.now) row.now qual.now value.now) }
        ensures steps { OnOk result (Steps self.old.play (PutPoint (data_point point.now) row.now qual.now value.now) Written self.new.play) }
        ensures stays { OnErr result (Stays self.old.play self.new.play) }
        ensures memory { IfErr result (λ fault. fault ≡ OutOfMemory) }
        ensures room { OnOk result (self.new.room ≡ 8) }
    {
        let Some(accepted) = self.accepted.checked_add(1) else {
            return Err(RowsFault::OutOfMemory);
        };
        match self.rows.put_point(alloc, point, row, qual, value) {
            Ok(()) => {
                self.accepted = accepted;
                self.room = ROOM;
                Ok(())
            }
            Err(fault) => {
                self.room = 0;
                Err(fault)
            }
        }
    }

    fn append_point(
        &mut self,
        alloc: Global,
        point: &Point,
        row: &Row,
        piece: &Bytes,
    ) -> Result<(), RowsFault>
        requires knows { Knows (sight self.old.play) (AppendPoint (data_point point.now) row.now piece.now) }
        ensures steps { OnOk result (Steps self.old.play (AppendPoint (data_point point.now) row.now piece.now) Written self.new.play) }
        ensures stays { OnErr result (Stays self.old.play self.new.play) }
        ensures memory { IfErr result (λ fault. fault ≡ OutOfMemory) }
        ensures room { OnOk result (self.new.room ≡ 8) }
    {
        match self.rows.append_point(alloc, point, row, piece) {
            Ok(()) => {
                self.room = ROOM;
                Ok(())
            }
            Err(fault) => {
                self.room = 0;
                Err(fault)
            }
        }
    }

    fn put_merged(
        &mut self,
        alloc: Global,
        row: &Row,
        qual: &Bytes,
        value: &Bytes,
    ) -> Result<(), RowsFault>
        requires knows { Knows (sight self.old.play) (PutMerged row.now qual.now value.now) }
        ensures steps { OnOk result (Steps self.old.play (PutMerged row.now qual.now value.now) Written self.new.play) }
        ensures stays { OnErr result (Stays self.old.play self.new.play) }
        ensures memory { IfErr result (λ fault. fault ≡ OutOfMemory) }
        ensures room { OnOk result (self.new.room ≡ 8) }
    {
        match self.rows.put_merged(alloc, row, qual, value) {
            Ok(()) => {
                self.room = ROOM;
                Ok(())
            }
            Err(fault) => {
                self.room = 0;
                Err(fault)
            }
        }
    }

    fn drop_cells(&mut self, row: Row, which: Drops) -> Result<u64, Stopped>
        requires knows { Knows (sight self.old.play) (DropCells row which) }
        requires spare { 1 ≤ self.old.room }
        ensures steps { IfOk result (λ count. Steps self.old.play (DropCells row which) (Removed count) self.new.play) }
        ensures never { IsOk result }
        ensures spare { self.old.room ≤ self.new.room + 1 }
    {
        let count = self.rows.drop_cells(row, which)?;
        self.room -= 1;
        Ok(count)
    }
}
