//! A caller of a site.
ghost use Rattle.std.specs.Prelude.{◌≡◌, ◌++◌, ◌<◌, ◌≤◌, true, IfOk, OnErr};
ghost use Rattle.cell_model.specs.Deeds.{Extends};
ghost use Rattle.cell_model.specs.Seen.{IsPossible, Knows, Stepped, Waited};
ghost use Rattle.cell_laws.specs.StoreParts.{is_in, is_mine};
ghost use Rattle.step_count.specs.CounterRule.{AreDifferent, region_count};
ghost use Rattle.step_count.specs.Tokens.{counter_of_note, counter_of_pass, view_of_note, view_of_pass};
ghost use Rattle.step_count.specs.ViewSteps.{Lives, learned, met};
ghost use Rattle.region_locks.specs.StepOrders.{Answers, TakesMemory, step_of};
ghost use Rattle.region_locks.specs.CallerViews.{Heard, IsCaller, IsNote, MadeNoMore, Tells, numbers_of, seen_of};
ghost use Rattle.region_locks.specs.StepEntries.{InRange, WasLetIn};

use crate::reply_parts::{bumped, claimed, let_go, next, removed, shown};
use crate::site::Site;
use cell_model::events::Reply;
use cell_model::{Bumped, Cells, Claimed, Drops, Found, Row, Rows, RowsFault, Stopped};
use qual_codec::Bytes;
use region_locks::gate::Gate;
use region_locks::step_names::StepNames;
use region_locks::step_order::Order;
use row_key::{Table, Widths};
use std::alloc::{AllocError, Global};
use std::marker::Model;
use std::sync::Wait;
use step_count::{Note, Pass};
use tsd_base::kinds::Kind;
use tsd_base::points::Point;

/// A caller of a site.
#[derive(Drop)]
pub struct SitePass<'a, J: StepNames, G: Gate + Drop, T: Wait> {
    site: &'a Site<J, G>,
    rt: &'a T,
    pass: Pass,
}

impl<'a, J: StepNames, G: Gate + Drop, T: Wait> Model for SitePass<'a, J, G, T> {
    ghost use Rattle.std.specs.Prelude.{◌≡◌};
    ghost use Rattle.cell_model.specs.Seen.{Seen};
    ghost use Rattle.step_count.specs.Tokens.{counter_of_pass, view_of_pass};
    ghost use Rattle.region_locks.specs.CallerViews.{IsCaller, seen_of};
    ghost use Rattle.cell_store.specs.SeenCodes.{coded_seen};

    ghost Value = { Seen };

    ghost coded = { coded_seen };

    ghost view = { λ s. seen_of (view_of_pass s.pass) };

    ghost invariant = { λ s. (counter_of_pass s.pass ≡ J.counter) × IsCaller J.name (view_of_pass s.pass) };
}

impl<'a, J: StepNames, G: Gate + Drop, T: Wait> SitePass<'a, J, G, T> {
    /// The caller that has this token, which [`SitePass::part`] gave, maybe on another thread.
    pub fn of(site: &'a Site<J, G>, rt: &'a T, pass: Pass) -> Self
        requires counter { counter_of_pass pass ≡ J.counter }
        requires caller { IsCaller J.name (view_of_pass pass) }
        ensures { result ≡ seen_of (view_of_pass pass) }
    {
        SitePass { site, rt, pass }
    }

    /// The history's length at this moment.
    pub fn learn(&mut self) -> u64
        ensures waited { Waited self.old self.new }
        ensures length { self.new.length ≡ result }
        ensures possible { IsPossible self.new }
    {
        self.pass.learn()
    }

    /// What this caller has seen, for another.
    pub fn note(&mut self) -> Note
        ensures same { self.new ≡ self.old }
        ensures counter { counter_of_note result ≡ J.counter }
        ensures note { IsNote J.name (view_of_note result) }
        ensures tells { Tells (view_of_note result) self.old }
    {
        self.pass.note()
    }

    /// Sees all that another had seen.
    pub fn meet(&mut self, note: Note)
        requires counter { counter_of_note note ≡ J.counter }
        requires note { IsNote J.name (view_of_note note) }
        ensures waited { Waited self.old self.new }
        ensures heard { Heard (view_of_note note) self.new }
        ensures possible { IsPossible self.new }
    {
        self.pass.meet(note);
        self.pass.learn();
    }

    /// Takes another's place: what fits this caller afterwards fits both. It has the other's numbers too, and no two of them all are one. Neither
    /// made an entry meanwhile.
    pub fn absorb(&mut self, other: SitePass<'a, J, G, T>)
        ensures mine { Extends self.old self.new }
        ensures theirs { Extends other.entry self.new }
        ensures caller { self.new.caller ≡ self.old.caller }
        ensures numbers { numbers_of self.new ≡ numbers_of self.old ++ numbers_of other.entry }
        ensures different { AreDifferent (numbers_of self.new) }
        ensures mine_made { MadeNoMore self.old self.new }
        ensures theirs_made { MadeNoMore other.entry self.new }
        ensures possible { IsPossible self.new }
    {
        absorb_all(&mut self.pass, other.part());
    }

    /// The caller's token. No two of the caller's numbers are one.
    pub fn part(self) -> Pass
        ensures counter { counter_of_pass result ≡ J.counter }
        ensures caller { IsCaller J.name (view_of_pass result) }
        ensures seen { seen_of (view_of_pass result) ≡ self.entry }
        ensures different { AreDifferent (numbers_of self.entry) }
    {
        let SitePass {
            site: _,
            rt: _,
            pass,
        } = self;
        pass
    }

    // One step on the region of its row, after the site's gate.
    fn step(&mut self, alloc: Global, region: u32, order: &Order) -> Result<Reply, AllocError>
        requires among { region < region_count J.name }
        requires region { is_mine (is_in J.name.widths J.name.data_regions region) (step_of order.now) ≡ true }
        requires range { InRange self.old.base.widths (step_of order.now) }
        requires knows { Knows self.old (step_of order.now) }
        ensures gate { WasLetIn G.lets_in region }
        ensures ok { IfOk result (λ reply. Stepped self.old (step_of order.now) reply self.new) }
        ensures answers { IfOk result (λ reply. Answers (step_of order.now) reply) }
        ensures possible { IsPossible self.new }
        ensures err { OnErr result (Waited self.old self.new) }
        ensures memory { OnErr result (TakesMemory (step_of order.now)) }
    {
        self.site.run(alloc, self.rt, &mut self.pass, region, order)
    }
}

// Takes another's place, and learns the history's length.
fn absorb_all(pass: &mut Pass, other: Pass) -> u64
    requires { counter_of_pass other ≡ counter_of_pass pass.old }
    ensures counter { counter_of_pass pass.new ≡ counter_of_pass pass.old }
    ensures view { view_of_pass pass.new ≡ learned (met (view_of_pass pass.old) (view_of_pass other)) result }
    ensures up { (met (view_of_pass pass.old) (view_of_pass other)).length ≤ result }
    ensures live { Lives (view_of_pass pass.new) }
{
    pass.absorb(other);
    pass.learn()
}

// The bytes of the counters' row.
const COUNTERS: [u8; 1] = [0];

impl<'a, J: StepNames, G: Gate + Drop, T: Wait> Rows for SitePass<'a, J, G, T> {
    ghost seen = { λ s. s };

    ghost stops = { λ s. 0 };

    ghost spare = { λ s. 2 };

    fn widths(&self) -> Widths {
        self.site.widths()
    }

    fn read(&mut self, alloc: Global, row: &Row) -> Result<Cells, RowsFault> {
        let region = self.site.region(row.table, row.bytes.list());
        match self.step(alloc, region, &Order::Read { row }) {
            Ok(reply) => Ok(shown(reply)),
            Err(AllocError) => Err(RowsFault::OutOfMemory),
        }
    }

    fn next_row(
        &mut self,
        alloc: Global,
        table: Table,
        from: &Bytes,
        to: &Bytes,
    ) -> Result<Option<Found>, RowsFault> {
        let region = self.site.region(table, from.list());
        match self.step(alloc, region, &Order::NextRow { table, from, to }) {
            Ok(reply) => Ok(next(reply)),
            Err(AllocError) => Err(RowsFault::OutOfMemory),
        }
    }

    fn bump(&mut self, kind: Kind) -> Result<Bumped, Stopped> {
        let site = self.site;
        let alloc = site.alloc();
        let region = site.region(Table::Ids, &COUNTERS);
        match self.step(alloc, region, &Order::Bump { kind }) {
            Ok(reply) => Ok(bumped(reply)),
            Err(AllocError) => unreachable!(),
        }
    }

    fn claim(
        &mut self,
        alloc: Global,
        row: &Row,
        qual: &Bytes,
        value: &Bytes,
    ) -> Result<Claimed, RowsFault> {
        let region = self.site.region(row.table, row.bytes.list());
        match self.step(alloc, region, &Order::Claim { row, qual, value }) {
            Ok(reply) => Ok(claimed(reply)),
            Err(AllocError) => Err(RowsFault::OutOfMemory),
        }
    }

    fn put_point(
        &mut self,
        alloc: Global,
        point: &Point,
        row: &Row,
        qual: &Bytes,
        value: &Bytes,
    ) -> Result<(), RowsFault> {
        let region = self.site.region(row.table, row.bytes.list());
        match self.step(
            alloc,
            region,
            &Order::PutPoint {
                point,
                row,
                qual,
                value,
            },
        ) {
            Ok(reply) => {
                let_go(reply);
                Ok(())
            }
            Err(AllocError) => Err(RowsFault::OutOfMemory),
        }
    }

    fn append_point(
        &mut self,
        alloc: Global,
        point: &Point,
        row: &Row,
        piece: &Bytes,
    ) -> Result<(), RowsFault> {
        let region = self.site.region(row.table, row.bytes.list());
        match self.step(alloc, region, &Order::AppendPoint { point, row, piece }) {
            Ok(reply) => {
                let_go(reply);
                Ok(())
            }
            Err(AllocError) => Err(RowsFault::OutOfMemory),
        }
    }

    fn put_merged(
        &mut self,
        alloc: Global,
        row: &Row,
        qual: &Bytes,
        value: &Bytes,
    ) -> Result<(), RowsFault> {
        let region = self.site.region(row.table, row.bytes.list());
        match self.step(alloc, region, &Order::PutMerged { row, qual, value }) {
            Ok(reply) => {
                let_go(reply);
                Ok(())
            }
            Err(AllocError) => Err(RowsFault::OutOfMemory),
        }
    }

    fn drop_cells(&mut self, row: Row, which: Drops) -> Result<u64, Stopped> {
        let site = self.site;
        let alloc = site.alloc();
        let region = site.region(row.table, row.bytes.list());
        match self.step(
            alloc,
            region,
            &Order::DropCells {
                row: &row,
                which: &which,
            },
        ) {
            Ok(reply) => Ok(removed(reply)),
            Err(AllocError) => unreachable!(),
        }
    }
}
