//! All regions of a site, each behind its lock.
ghost use Rattle.std.specs.Prelude.{◌≡◌, ◌+◌, ◌<◌, ◌≤◌, true, vec_len, vec_capacity};
ghost use Rattle.row_key.specs.declared.regions.TheConstants.{MOST_DATA_REGIONS};
ghost use Rattle.step_count.specs.Tokens.{counter_of_pass, view_of_pass};
ghost use Rattle.region_locks.specs.StepOrders.{step_of};
ghost use Rattle.region_locks.specs.StepEntries.{HasRun, MayRun};
ghost use Rattle.region_locks.specs.SiteStarts.{AreToCome};
ghost use Rattle.region_locks.specs.SiteEnds.{Closed};

use crate::five_locks::FiveLocks;
use crate::gate::Gate;
use crate::step_names::StepNames;
use crate::step_order::Order;
use cell_model::events::Reply;
use cell_region::Region;
use std::alloc::{AllocError, Global};
use std::sync::Wait;
use std::vec::IntoIter;
use step_count::{Licence, Pass};

/// The most regions of a site.
pub const MOST_REGIONS: usize = 25;

/// The regions with the numbers below [`MOST_REGIONS`], as many as the site has; the others are empty.
#[derive(Drop)]
pub struct SiteLocks<J: StepNames> {
    names: FiveLocks<J, 0, 1, 2, 3, 4>,
    ids: FiveLocks<J, 5, 6, 7, 8, 9>,
    low: FiveLocks<J, 10, 11, 12, 13, 14>,
    middle: FiveLocks<J, 15, 16, 17, 18, 19>,
    high: FiveLocks<J, 20, 21, 22, 23, 24>,
}

impl<J: StepNames> SiteLocks<J> {
    /// Opens all regions.
    pub fn open(
        alloc: Global,
        data_regions: u32,
        regions: &mut IntoIter<Region>,
        licences: &mut IntoIter<Licence>,
    ) -> Self
        requires data_regions { data_regions ≡ J.name.data_regions }
        requires most { data_regions ≤ MOST_DATA_REGIONS }
        requires unopened { AreToCome J.counter J.name 0 regions.old licences.old }
    {
        let names = FiveLocks::open(alloc, data_regions, regions, licences);
        let ids = FiveLocks::open(alloc, data_regions, regions, licences);
        let low = FiveLocks::open(alloc, data_regions, regions, licences);
        let middle = FiveLocks::open(alloc, data_regions, regions, licences);
        let high = FiveLocks::open(alloc, data_regions, regions, licences);
        SiteLocks {
            names,
            ids,
            low,
            middle,
            high,
        }
    }

    /// One step on one of them.
    pub fn run<G: Gate, T: Wait>(
        &self,
        gate: &G,
        alloc: Global,
        rt: &T,
        pass: &mut Pass,
        region: u32,
        order: &Order,
    ) -> Result<Reply, AllocError>
        requires most { region < 25 }
        requires may { MayRun J.counter J.name region pass.old (step_of order.now) }
        ensures gate { G.lets_in gate.now region ≡ true }
        ensures run { HasRun J.counter J.name (view_of_pass pass.old) (step_of order.now) result pass.new }
    {
        if region < 5 {
            self.names.run(gate, alloc, rt, pass, region, order)
        } else if region < 10 {
            self.ids.run(gate, alloc, rt, pass, region, order)
        } else if region < 15 {
            self.low.run(gate, alloc, rt, pass, region, order)
        } else if region < 20 {
            self.middle.run(gate, alloc, rt, pass, region, order)
        } else {
            self.high.run(gate, alloc, rt, pass, region, order)
        }
    }

    /// Opens the locks for good: the pass takes all licences, and the list gets all regions.
    pub fn close(self, pass: &mut Pass, regions: &mut Vec<Region>)
        requires counter { counter_of_pass pass.old ≡ J.counter }
        requires room { vec_len regions.old + 25 ≤ vec_capacity regions.old }
        ensures counter { counter_of_pass pass.new ≡ J.counter }
        ensures closed { Closed J.name 0 25 (view_of_pass pass.old) regions.old.items (view_of_pass pass.new) regions.new.items }
    {
        let SiteLocks {
            names,
            ids,
            low,
            middle,
            high,
        } = self;
        names.close(pass, regions);
        ids.close(pass, regions);
        low.close(pass, regions);
        middle.close(pass, regions);
        high.close(pass, regions);
    }
}
