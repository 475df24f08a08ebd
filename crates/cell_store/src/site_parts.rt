//! A site whose step counter has no name yet.
ghost use Rattle.std.specs.Prelude.{◌≡◌, [], IfOk};
ghost use Rattle.cell_model.specs.Sound.{IsBase};
ghost use Rattle.step_count.specs.FirstViews.{named};

use crate::openings::Openings;
use crate::site::Site;
use cell_model::Body;
use cell_region::{Region, Regions};
use region_locks::gate::Gate;
use region_locks::site_locks::{MOST_REGIONS, SiteLocks};
use region_locks::step_names::StepNames;
use row_key::{NAME_REGIONS, Widths};
use std::alloc::{AllocError, Global};
use std::marker::{Brand, Model};
use step_count::{Base, Licence, Steps};

/// The regions of a store with their licences, and all the memory of a site.
///
/// Contracts see it as its step counter and the store with which the history begins.
#[derive(Drop)]
pub struct SiteParts<G: Gate + Drop> {
    steps: Steps,
    regions: Vec<Region>,
    licences: Vec<Licence>,
    room: Vec<Region>,
    widths: Widths,
    data_regions: u32,
    alloc: Global,
    gate: G,
}

impl<G: Gate + Drop> Model for SiteParts<G> {
    ghost use Rattle.std.specs.Prelude.{◌≡◌, ◌+◌, ◌≤◌, [], vec_len, vec_capacity};
    ghost use Rattle.step_count.specs.Tokens.{counter_of_steps, name_of_steps, view_of_steps};
    ghost use Rattle.region_locks.specs.CallerViews.{IsOpener, opened_numbers};
    ghost use Rattle.region_locks.specs.SiteStarts.{AreUnopened, Unnamed};

    ghost Value = { Unnamed };

    ghost view = { λ s. record { counter = counter_of_steps s.steps; name = name_of_steps s.steps } };

    ghost invariant = { λ s. AreUnopened (counter_of_steps s.steps) (name_of_steps s.steps) 0 s.regions.items s.licences.items × (s.data_regions ≡ (name_of_steps s.steps).data_regions) × (1 ≤ s.data_regions) × (s.data_regions ≤ 16) × (s.room.items ≡ []) × (vec_len s.room + 25 ≤ vec_capacity s.room) × (s.widths ≡ (name_of_steps s.steps).widths) × IsOpener (name_of_steps s.steps) (view_of_steps s.steps) × (opened_numbers (view_of_steps s.steps) ≡ []) };
}

impl<G: Gate + Drop> SiteParts<G> {
    /// Takes the memory of a site over these regions. It fails only for want of memory.
    pub fn make(alloc: Global, regions: Regions, gate: G) -> Result<SiteParts<G>, AllocError>
        requires { IsBase regions.content }
        ensures { IfOk result (λ parts. parts.name ≡ named regions.content regions.data_regions) }
    {
        SiteParts::over::<Brand>(alloc, regions, gate)
    }

    // The same, over the store that `B` names.
    fn over<B: Base>(alloc: Global, regions: Regions, gate: G) -> Result<SiteParts<G>, AllocError>
        requires base { IsBase B.store }
        requires store { B.store ≡ regions.content }
        ensures { IfOk result (λ parts. parts.name ≡ named regions.content regions.data_regions) }
    {
        let widths = regions.widths();
        let regions = regions.split();
        let count = regions.len() as u32;
        let room = Vec::with_capacity(alloc, MOST_REGIONS)?;
        let (steps, licences) = Steps::make::<B>(alloc, count)?;
        Ok(SiteParts {
            steps,
            regions,
            licences,
            room,
            widths,
            data_regions: count - NAME_REGIONS,
            alloc,
            gate,
        })
    }

    /// The site, of which no caller has opened yet, and that by which callers open: it names the step counter, and takes no memory.
    pub fn named<J: StepNames>(self) -> (Site<J, G>, Openings<J>)
        requires counter { self.counter ≡ J.counter }
        requires name { self.name ≡ J.name }
        ensures { result.1 ≡ [] }
    {
        let SiteParts {
            steps,
            regions,
            licences,
            room,
            widths,
            data_regions,
            alloc,
            gate,
        } = self;
        let mut regions = regions.into_iter();
        let mut licences = licences.into_iter();
        let locks = SiteLocks::open(alloc, data_regions, &mut regions, &mut licences);
        let site = Site::over(alloc, locks, widths, data_regions, room, gate);
        (site, Openings::of(steps))
    }
}
