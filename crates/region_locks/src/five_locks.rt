//! Five regions that follow one another, each behind its lock.
ghost use Rattle.std.specs.Prelude.{◌≡◌, ◌+◌, ◌<◌, ◌≤◌, true, vec_len, vec_capacity};
ghost use Rattle.row_key.specs.declared.regions.TheConstants.{MOST_DATA_REGIONS};
ghost use Rattle.step_count.specs.Tokens.{counter_of_pass, view_of_pass};
ghost use Rattle.region_locks.specs.StepOrders.{step_of};
ghost use Rattle.region_locks.specs.StepEntries.{HasRun, MayRun};
ghost use Rattle.region_locks.specs.SiteStarts.{AreToCome, FollowOn};
ghost use Rattle.region_locks.specs.SiteEnds.{Closed};

use crate::gate::Gate;
use crate::region_lock::RegionLock;
use crate::step_names::StepNames;
use crate::step_order::Order;
use cell_model::events::Reply;
use cell_region::Region;
use std::alloc::{AllocError, Global};
use std::sync::Wait;
use std::vec::IntoIter;
use step_count::{Licence, Pass};

/// The regions with these numbers.
#[derive(Drop)]
pub(crate) struct FiveLocks<
    J: StepNames,
    const A: u32,
    const B: u32,
    const C: u32,
    const D: u32,
    const E: u32,
> {
    first: RegionLock<J, A>,
    second: RegionLock<J, B>,
    third: RegionLock<J, C>,
    fourth: RegionLock<J, D>,
    fifth: RegionLock<J, E>,
}

impl<J: StepNames, const A: u32, const B: u32, const C: u32, const D: u32, const E: u32> FiveLocks<
    J,
    A,
    B,
    C,
    D,
    E,
> {
    /// Opens the next five regions.
    pub(crate) fn open(
        alloc: Global,
        data_regions: u32,
        regions: &mut IntoIter<Region>,
        licences: &mut IntoIter<Licence>,
    ) -> Self
        requires order { FollowOn A B C D E }
        requires data_regions { data_regions ≡ J.name.data_regions }
        requires most { data_regions ≤ MOST_DATA_REGIONS }
        requires unopened { AreToCome J.counter J.name A regions.old licences.old }
        ensures { AreToCome J.counter J.name (A + 5) regions.new licences.new }
    {
        let first = RegionLock::open(alloc, data_regions, regions, licences);
        let second = RegionLock::open(alloc, data_regions, regions, licences);
        let third = RegionLock::open(alloc, data_regions, regions, licences);
        let fourth = RegionLock::open(alloc, data_regions, regions, licences);
        let fifth = RegionLock::open(alloc, data_regions, regions, licences);
        FiveLocks {
            first,
            second,
            third,
            fourth,
            fifth,
        }
    }

    /// One step on one of them.
    pub(crate) fn run<G: Gate, T: Wait>(
        &self,
        gate: &G,
        alloc: Global,
        rt: &T,
        pass: &mut Pass,
        region: u32,
        order: &Order,
    ) -> Result<Reply, AllocError>
        requires order { FollowOn A B C D E }
        requires least { A ≤ region }
        requires most { region < A + 5 }
        requires may { MayRun J.counter J.name region pass.old (step_of order.now) }
        ensures gate { G.lets_in gate.now region ≡ true }
        ensures run { HasRun J.counter J.name (view_of_pass pass.old) (step_of order.now) result pass.new }
    {
        if region == A {
            self.first.run(gate, alloc, rt, pass, order)
        } else if region == B {
            self.second.run(gate, alloc, rt, pass, order)
        } else if region == C {
            self.third.run(gate, alloc, rt, pass, order)
        } else if region == D {
            self.fourth.run(gate, alloc, rt, pass, order)
        } else {
            self.fifth.run(gate, alloc, rt, pass, order)
        }
    }

    /// Opens the locks for good.
    pub(crate) fn close(self, pass: &mut Pass, regions: &mut Vec<Region>)
        requires order { FollowOn A B C D E }
        requires counter { counter_of_pass pass.old ≡ J.counter }
        requires room { vec_len regions.old + 5 ≤ vec_capacity regions.old }
        ensures counter { counter_of_pass pass.new ≡ J.counter }
        ensures closed { Closed J.name A (A + 5) (view_of_pass pass.old) regions.old.items (view_of_pass pass.new) regions.new.items }
        ensures capacity { vec_capacity regions.new ≡ vec_capacity regions.old }
        ensures length { vec_len regions.new ≤ vec_len regions.old + 5 }
    {
        let FiveLocks {
            first,
            second,
            third,
            fourth,
            fifth,
        } = self;
        first.close(pass, regions);
        second.close(pass, regions);
        third.close(pass, regions);
        fourth.close(pass, regions);
        fifth.close(pass, regions);
    }
}
