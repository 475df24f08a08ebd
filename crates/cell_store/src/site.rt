//! The regions of a store behind their locks.
ghost use Rattle.std.specs.Prelude.{◌≡◌, ◌+◌, ◌++◌, ◌∷◌, ◌<◌, ◌≤◌, true, [], IfOk, OnErr, vec_len, vec_capacity};
ghost use Rattle.cell_model.specs.Seen.{HasSeenOpening, IsPossible};
ghost use Rattle.cell_laws.specs.StoreParts.{is_in};
ghost use Rattle.step_count.specs.CounterRule.{region_count, store_in};
ghost use Rattle.step_count.specs.Tokens.{counter_of_pass, view_of_pass};
ghost use Rattle.region_locks.specs.StepOrders.{step_of};
ghost use Rattle.region_locks.specs.CallerViews.{IsCaller, SawOpeningsAlone, seen_of};
ghost use Rattle.region_locks.specs.StepEntries.{HasRun, MayRun};
ghost use Rattle.region_locks.specs.SiteEnds.{EndsAt};

use crate::openings::Openings;
use crate::site_pass::SitePass;
use cell_model::events::Reply;
use cell_region::{Region, Regions};
use region_locks::gate::Gate;
use region_locks::site_locks::SiteLocks;
use region_locks::step_names::StepNames;
use region_locks::step_order::Order;
use row_key::{Table, Widths, region_of};
use std::alloc::{AllocError, Global};
use std::marker::Model;
use std::sync::Wait;
use step_count::Pass;

/// The regions of a store, each behind its lock with its licence. All callers of the store step on it.
///
/// Contracts see it as its gate.
#[derive(Drop)]
pub struct Site<J: StepNames, G: Gate + Drop> {
    locks: SiteLocks<J>,
    widths: Widths,
    data_regions: u32,
    // Room for the regions, for the site's end.
    room: Vec<Region>,
    alloc: Global,
    gate: G,
}

impl<J: StepNames, G: Gate + Drop> Model for Site<J, G> {
    ghost use Rattle.std.specs.Prelude.{◌≡◌, ◌+◌, ◌≤◌, [], vec_len, vec_capacity};

    ghost Value = { G };

    ghost view = { λ s. s.gate };

    ghost invariant = { λ s. (s.data_regions ≡ J.name.data_regions) × (1 ≤ s.data_regions) × (s.data_regions ≤ 16) × (s.room.items ≡ []) × (vec_len s.room + 25 ≤ vec_capacity s.room) × (s.widths ≡ J.name.widths) };
}

impl<J: StepNames, G: Gate + Drop> Site<J, G> {
    /// The site of these locks.
    pub(crate) fn over(
        alloc: Global,
        locks: SiteLocks<J>,
        widths: Widths,
        data_regions: u32,
        room: Vec<Region>,
        gate: G,
    ) -> Self
        requires widths { widths ≡ J.name.widths }
        requires data_regions { data_regions ≡ J.name.data_regions }
        requires least { 1 ≤ data_regions }
        requires most { data_regions ≤ 16 }
        requires empty { room.items ≡ [] }
        requires room { vec_len room + 25 ≤ vec_capacity room }
    {
        Site {
            locks,
            widths,
            data_regions,
            room,
            alloc,
            gate,
        }
    }

    /// The allocator of those steps that are given none.
    pub(crate) fn alloc(&self) -> Global {
        self.alloc
    }

    /// How many bytes the ids of each kind have.
    pub(crate) fn widths(&self) -> Widths
        ensures { result ≡ J.name.widths }
    {
        self.widths
    }

    /// The region of a row.
    pub(crate) fn region(&self, table: Table, row: &[u8]) -> u32
        ensures here { is_in J.name.widths J.name.data_regions result (record { table = table; bytes = row.now }) ≡ true }
        ensures among { result < region_count J.name }
    {
        region_of(table, row, self.data_regions, self.widths)
    }

    /// One step on a region, after the gate.
    pub(crate) fn run<T: Wait>(
        &self,
        alloc: Global,
        rt: &T,
        pass: &mut Pass,
        region: u32,
        order: &Order,
    ) -> Result<Reply, AllocError>
        requires { MayRun J.counter J.name region pass.old (step_of order.now) }
        ensures gate { G.lets_in self.now region ≡ true }
        ensures run { HasRun J.counter J.name (view_of_pass pass.old) (step_of order.now) result pass.new }
    {
        self.locks.run(&self.gate, alloc, rt, pass, region, order)
    }

    /// A new caller, with a number of its own. One entry is made, its opening, and nobody else opens. It fails only for want of memory, and
    /// then nobody opened.
    pub fn open_pass<'a, T: Wait>(
        &'a self,
        rt: &'a T,
        openings: &mut Openings<J>,
    ) -> Result<SitePass<'a, J, G, T>, AllocError>
        ensures possible { IfOk result (λ p. IsPossible p) }
        ensures opening { IfOk result (λ p. HasSeenOpening p) }
        ensures alone { IfOk result (λ p. SawOpeningsAlone p) }
        ensures base { IfOk result (λ p. p.base ≡ store_in J.name) }
        ensures absorbed { IfOk result (λ p. p.absorbed ≡ []) }
        ensures one { IfOk result (λ p. openings.new ≡ openings.old ++ p.caller ∷ []) }
        ensures none { OnErr result (openings.new ≡ openings.old) }
    {
        let pass = Pass::open_on(rt, &mut openings.steps)?;
        Ok(SitePass::of(self, rt, pass))
    }

    /// The store after the site's whole history, which fits what the pass has seen, for each caller that it is or absorbed. None of these made
    /// an entry behind that, and each entry is of a caller that opened.
    pub fn end(self, openings: Openings<J>, pass: Pass) -> Regions
        requires counter { counter_of_pass pass ≡ J.counter }
        requires caller { IsCaller J.name (view_of_pass pass) }
        ensures { EndsAt J.name openings (seen_of (view_of_pass pass)) result }
    {
        let Site {
            locks,
            widths: _,
            data_regions: _,
            room,
            alloc: _,
            gate: _,
        } = self;
        let mut pass = pass;
        pass.take(openings.close());
        let mut regions = room;
        locks.close(&mut pass, &mut regions);
        pass.learn();
        Regions::joined(regions)
    }
}
