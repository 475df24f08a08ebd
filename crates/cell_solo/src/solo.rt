//! Several callers of one body, in turns.
ghost use Rattle.std.specs.Prelude.{◌≡◌, ◌≢◌, ◌≤◌, ◌<◌, ◌%◌, ◌^◌, ◌+◌, length, drop, min, if◌then◌else◌, IfOk, IfErr, IsOk, OnOk, OnErr, nat_eq, IsTrue};
ghost use Rattle.cell_model.specs.declared.row.Row.{Row as AnyRow};
ghost use Rattle.cell_model.specs.Sound.{IsBase};
ghost use Rattle.cell_model.specs.Store.{appended};
ghost use Rattle.cell_model.specs.Machine.{after, counter_row};
ghost use Rattle.cell_model.specs.History.{store_after};
ghost use Rattle.cell_model.specs.Lawful.{IsLawful};
ghost use Rattle.cell_model.specs.Ranges.{InOneRange};
ghost use Rattle.cell_model.specs.Seen.{IsPossible, HasSeenOpening, Fits, Knows};
ghost use Rattle.tsd_base.specs.Points.{data_point};
ghost use Rattle.cell_model.specs.declared.answers.RowsFault.TheVariants.{OutOfMemory};
ghost use Rattle.cell_model.specs.declared.events.Step.TheVariants.{Read, NextRow, Bump, Claim, PutPoint, AppendPoint, PutMerged, DropCells};
ghost use Rattle.cell_model.specs.declared.events.Reply.TheVariants.{Shown, Next, BumpReply, ClaimReply, Written, Removed};
ghost use Rattle.cell_solo.specs.Turns.{opened, openings, entries_of, whole_seen, history_of, sight, Steps, Stays};

use crate::turn_bytes::MOST_NAMES;
use crate::turns::Turns;
use cell_model::answers::{Bumped, Claimed, RowsFault, Stopped};
use cell_model::body::Body;
use cell_model::row::{Cells, Drops, Found, Listing, Row};
use cell_model::rows::Rows;
use cell_model::stamp::{append_at, bump_at, claim_at, put_at};
use qual_codec::Bytes;
use row_key::{Table, Widths};
use std::alloc::{AllocError, Global};
use std::marker::Model;
use tsd_base::kinds::Kind;
use tsd_base::points::Point;

/// Callers 1 to `callers` of one body, each in its turn.
///
/// It is [`Rows`] for the caller whose turn it is: that caller has seen the whole history, and steps alone where there is no
/// other. It keeps the listing of the store with which it began and each step, from which the history follows. No step is
/// ever stopped, and a step that takes memory leaves room for 8 further ones that take none.
#[derive(Drop)]
pub struct Solo<B: Body + Drop> {
    body: B,
    base: Listing,
    turns: Turns,
    callers: u8,
    caller: u8,
}

impl<B: Body + Drop> Model for Solo<B> {
    ghost use Rattle.cell_solo.specs.Turns.{Play, IsPlayed};

    ghost Value = { Play };

    ghost view = { λ s. record { lines = s.base; turns = s.turns.list; callers = s.callers; caller = s.caller; room = s.turns.spare } };

    ghost invariant = { λ s. IsPlayed (B.content s.body) (B.covers s.body) (record { lines = s.base; turns = s.turns.list; callers = s.callers; caller = s.caller; room = s.turns.spare }) };
}

impl<B: Body + Drop> Solo<B> {
    /// Callers 1 to `callers` over a body whose store is a base, and which is over every row. Each has opened, at the place of
    /// its number; it is the turn of caller 1. It fails only for want of memory.
    pub fn make(alloc: Global, body: B, callers: u8) -> Result<Solo<B>, AllocError>
        requires base { IsBase (B.content body) }
        requires covers { (row : AnyRow) → IsTrue (B.covers body row) }
        requires least { 1 ≤ callers }
        requires most { callers ≤ 16 }
        ensures history { IfOk result (λ s. history_of s ≡ opened (B.content body) callers) }
        ensures seen { IfOk result (λ s. sight s ≡ whole_seen (opened (B.content body) callers) 1 (nat_eq callers 1)) }
        ensures callers { IfOk result (λ s. s.callers ≡ callers) }
        ensures possible { IfOk result (λ s. IsPossible (sight s)) }
        ensures opening { IfOk result (λ s. HasSeenOpening (sight s)) }
        ensures room { IfOk result (λ s. 8 ≤ s.room) }
    {
        let base = body.listing(alloc)?;
        let turns = open_each(alloc, callers)?;
        Ok(Solo {
            body,
            base,
            turns,
            callers,
            caller: 1,
        })
    }

    /// Makes it the turn of another caller. The history stays.
    pub fn turn(&mut self, caller: u8)
        requires least { 1 ≤ caller }
        requires most { caller ≤ self.old.callers }
        ensures turn { self.new ≡ record self.old { caller = caller } }
        ensures possible { IsPossible (sight self.new) }
        ensures opening { HasSeenOpening (sight self.new) }
    {
        self.caller = caller;
    }

    /// The number of the caller whose turn it is.
    pub fn caller(&self) -> u8
        ensures { result ≡ self.now.caller }
    {
        self.caller
    }

    /// How many entries of the history are this caller's, its opening included. It takes time as the history is long.
    pub fn entries(&self, caller: u8) -> u64
        ensures { result ≡ entries_of (history_of self.now) caller }
    {
        self.turns.count(caller)
    }

    /// The body, whose store is that after the history.
    pub fn part(self) -> B
        ensures content { B.content result ≡ store_after (history_of self) }
        ensures covers { (row : AnyRow) → IsTrue (B.covers result row) }
        ensures lawful { IsLawful (history_of self) }
        ensures fits { Fits (sight self) (history_of self) }
    {
        self.body
    }
}

/// The openings of callers 1 to `callers`.
fn open_each(alloc: Global, callers: u8) -> Result<Turns, AllocError>
    ensures turns { IfOk result (λ turns. turns.list ≡ openings callers) }
    ensures room { 1 ≤ callers → IfOk result (λ turns. 8 ≤ turns.spare) }
{
    let mut turns = Turns::make(alloc);
    for earlier in 0..callers {
        turns.reserve(0)?;
        turns.add_open(earlier + 1);
    }
    Ok(turns)
}

/// How many bytes the parts of a cell have together; more than fit wherever that can't be told.
fn cell_len(row: &Row, qual: &Bytes, value: &Bytes) -> usize
    ensures { result ≡ min (length row.now.bytes + length qual.now + length value.now) 18446744073709551615 }
{
    let row_len = row.bytes.list().len();
    row_len
        .saturating_add(qual.list().len())
        .saturating_add(value.list().len())
}

/// How many bytes a row and a value, or a piece, have together, with the most that the names of a point have.
fn point_len(row: &Row, value: &Bytes) -> usize
    ensures { result ≡ min (length row.now.bytes + length value.now + 4352) 18446744073709551615 }
{
    let row_len = row.bytes.list().len();
    row_len
        .saturating_add(value.list().len())
        .saturating_add(MOST_NAMES)
}

/// Puts a cell at the place of the next step, once there is room for that step and for `len` bytes of it.
#[inline(always)]
fn put_next<B: Body>(
    body: &mut B,
    turns: &mut Turns,
    alloc: Global,
    row: &Row,
    qual: &Bytes,
    value: &Bytes,
    len: usize,
) -> Result<(), AllocError>
    requires covered { IsTrue (B.covers body.old row.now) }
    requires no_counter { row.now ≢ counter_row }
    ensures ok { OnOk result (B.content body.new ≡ after (B.content body.old) (length turns.old.list + 1) (PutMerged row.now qual.now value.now)) }
    ensures err { OnErr result (B.content body.new ≡ B.content body.old) }
    ensures covers { B.covers body.new ≡ B.covers body.old }
    ensures list { turns.new.list ≡ turns.old.list }
    ensures spare { OnOk result (9 ≤ turns.new.spare) }
    ensures room { OnOk result (len ≤ turns.new.room) }
    ensures fits { OnOk result (len < 2 ^ 32) }
{
    turns.reserve(len)?;
    let place = turns.len() + 1;
    put_at(body, alloc, row, qual, value, place)
}

/// Appends a piece at the place of the next step, once there is room for that step and for `len` bytes of it.
#[inline(always)]
fn append_next<B: Body>(
    body: &mut B,
    turns: &mut Turns,
    alloc: Global,
    row: &Row,
    piece: &Bytes,
    len: usize,
) -> Result<(), AllocError>
    requires covered { IsTrue (B.covers body.old row.now) }
    requires no_counter { row.now ≢ counter_row }
    ensures ok { OnOk result (B.content body.new ≡ appended (B.content body.old) row.now piece.now ((length turns.old.list + 1) % 2 ^ 64)) }
    ensures err { OnErr result (B.content body.new ≡ B.content body.old) }
    ensures covers { B.covers body.new ≡ B.covers body.old }
    ensures list { turns.new.list ≡ turns.old.list }
    ensures spare { OnOk result (9 ≤ turns.new.spare) }
    ensures room { OnOk result (len ≤ turns.new.room) }
    ensures fits { OnOk result (len < 2 ^ 32) }
{
    turns.reserve(len)?;
    let place = turns.len() + 1;
    append_at(body, alloc, row, piece, place)
}

/// The value in a piece, behind its one item, which has 4 bytes where it is fine, else 2.
#[inline]
fn value_of(piece: &Bytes, fine: bool) -> &[u8]
    requires { (if fine then 4 else 2) ≤ length piece.now }
    ensures { result.now ≡ drop (if fine then 4 else 2) piece.now }
{
    let bytes = piece.list();
    if fine { &bytes[4..] } else { &bytes[2..] }
}

impl<B: Body + Drop> Rows for Solo<B> {
    ghost use Rattle.cell_solo.specs.Turns.{sight};

    ghost seen = { λ p. sight p };

    ghost stops = { λ p. 0 };

    ghost spare = { λ p. p.room };

    fn widths(&self) -> Widths {
        self.base.widths()
    }

    fn read(&mut self, alloc: Global, row: &Row) -> Result<Cells, RowsFault>
        ensures steps { IfOk result (λ cells. Steps self.old (Read row.now) (Shown cells) self.new) }
        ensures stays { OnErr result (Stays self.old self.new) }
        ensures memory { IfErr result (λ fault. fault ≡ OutOfMemory) }
        ensures room { OnOk result (8 ≤ self.new.room) }
    {
        self.turns.reserve(row.bytes.list().len())?;
        let cells = self.body.read(alloc, row)?;
        self.turns.add_read(self.caller, row);
        Ok(cells)
    }

    fn next_row(
        &mut self,
        alloc: Global,
        table: Table,
        from: &Bytes,
        to: &Bytes,
    ) -> Result<Option<Found>, RowsFault>
        requires range { InOneRange (sight self.old).base.widths table from.now to.now }
        ensures steps { IfOk result (λ found. Steps self.old (NextRow table from.now to.now) (Next found) self.new) }
        ensures stays { OnErr result (Stays self.old self.new) }
        ensures memory { IfErr result (λ fault. fault ≡ OutOfMemory) }
        ensures room { OnOk result (8 ≤ self.new.room) }
    {
        let len = from.list().len() + to.list().len();
        self.turns.reserve(len)?;
        let found = self.body.next_row(alloc, table, from, to)?;
        self.turns.add_next_row(self.caller, table, from, to);
        Ok(found)
    }

    fn bump(&mut self, kind: Kind) -> Result<Bumped, Stopped>
        requires spare { 1 ≤ self.old.room }
        ensures steps { IfOk result (λ bumped. Steps self.old (Bump kind) (BumpReply bumped) self.new) }
        ensures never { IsOk result }
        ensures spare { self.old.room ≤ self.new.room + 1 }
    {
        let place = self.turns.len() + 1;
        let bumped = bump_at(&mut self.body, kind, place);
        self.turns.add_bump(self.caller, kind);
        Ok(bumped)
    }

    fn claim(
        &mut self,
        alloc: Global,
        row: &Row,
        qual: &Bytes,
        value: &Bytes,
    ) -> Result<Claimed, RowsFault>
        requires knows { Knows (sight self.old) (Claim row.now qual.now value.now) }
        ensures steps { IfOk result (λ claimed. Steps self.old (Claim row.now qual.now value.now) (ClaimReply claimed) self.new) }
        ensures stays { OnErr result (Stays self.old self.new) }
        ensures memory { IfErr result (λ fault. fault ≡ OutOfMemory) }
        ensures room { OnOk result (8 ≤ self.new.room) }
    {
        self.turns.reserve(cell_len(row, qual, value))?;
        let place = self.turns.len() + 1;
        let claimed = claim_at(&mut self.body, alloc, row, qual, value, place)?;
        self.turns.add_claim(self.caller, row, qual, value);
        Ok(claimed)
    }

    fn put_point(
        &mut self,
        alloc: Global,
        point: &Point,
        row: &Row,
        qual: &Bytes,
        value: &Bytes,
    ) -> Result<(), RowsFault>
        requires knows { Knows (sight self.old) (PutPoint (data_point point.now) row.now qual.now value.now) }
        ensures steps { OnOk result (Steps self.old (PutPoint (data_point point.now) row.now qual.now value.now) Written self.new) }
        ensures stays { OnErr result (Stays self.old self.new) }
        ensures memory { IfErr result (λ fault. fault ≡ OutOfMemory) }
        ensures room { OnOk result (8 ≤ self.new.room) }
    {
        let len = point_len(row, value);
        put_next(
            &mut self.body,
            &mut self.turns,
            alloc,
            row,
            qual,
            value,
            len,
        )?;
        self.turns
            .add_point(self.caller, false, point, row, value.list());
        Ok(())
    }

    fn append_point(
        &mut self,
        alloc: Global,
        point: &Point,
        row: &Row,
        piece: &Bytes,
    ) -> Result<(), RowsFault>
        requires knows { Knows (sight self.old) (AppendPoint (data_point point.now) row.now piece.now) }
        ensures steps { OnOk result (Steps self.old (AppendPoint (data_point point.now) row.now piece.now) Written self.new) }
        ensures stays { OnErr result (Stays self.old self.new) }
        ensures memory { IfErr result (λ fault. fault ≡ OutOfMemory) }
        ensures room { OnOk result (8 ≤ self.new.room) }
    {
        let len = point_len(row, piece);
        append_next(&mut self.body, &mut self.turns, alloc, row, piece, len)?;
        let value = value_of(piece, point.fine);
        self.turns.add_point(self.caller, true, point, row, value);
        Ok(())
    }

    fn put_merged(
        &mut self,
        alloc: Global,
        row: &Row,
        qual: &Bytes,
        value: &Bytes,
    ) -> Result<(), RowsFault>
        requires knows { Knows (sight self.old) (PutMerged row.now qual.now value.now) }
        ensures steps { OnOk result (Steps self.old (PutMerged row.now qual.now value.now) Written self.new) }
        ensures stays { OnErr result (Stays self.old self.new) }
        ensures memory { IfErr result (λ fault. fault ≡ OutOfMemory) }
        ensures room { OnOk result (8 ≤ self.new.room) }
    {
        let len = cell_len(row, qual, value);
        put_next(
            &mut self.body,
            &mut self.turns,
            alloc,
            row,
            qual,
            value,
            len,
        )?;
        self.turns.add_merged(self.caller, row, qual, value);
        Ok(())
    }

    fn drop_cells(&mut self, row: Row, which: Drops) -> Result<u64, Stopped>
        requires knows { Knows (sight self.old) (DropCells row which) }
        requires spare { 1 ≤ self.old.room }
        ensures steps { IfOk result (λ count. Steps self.old (DropCells row which) (Removed count) self.new) }
        ensures never { IsOk result }
        ensures spare { self.old.room ≤ self.new.room + 1 }
    {
        let count = self.body.drop_cells(&row, &which);
        self.turns.add_drops(self.caller, row, which);
        Ok(count)
    }
}
