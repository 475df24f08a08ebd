//! Weaving, and the numbers of what was woven.
ghost use Rattle.std.specs.Prelude.{◌≡◌, ◌+◌, ◌<◌, ◌^◌, IfOk};
ghost use Rattle.tsd_base.specs.declared.kinds.Kind.TheVariants.{Metric, TagKey, TagValue};
ghost use Rattle.weave_script.specs.WovenCounts.{CountsWoven, wasted_of};

use crate::run_script;
use crate::waste::wasted_of;
use cell_model::{Body, Listing};
use std::alloc::{AllocError, Global};
use tsd_base::kinds::Kind;

/// What a woven script comes to.
#[derive(Clone, Copy, Debug, PartialEq, Eq)]
pub struct Woven {
    /// How many operations the first daemon did.
    pub operations: u64,
    /// How many points were put.
    pub accepted: u64,
    /// The greatest ids given: of metrics, of tag keys and of tag values.
    pub ids: [u64; 3],
    /// How many of the ids given no name has.
    pub wasted: u64,
    /// How many cells of points there are at the end.
    pub cells: u64,
}

/// Weaves the script of a seed: the first of three daemons does `count` operations on an empty store, and the others do theirs in front of its
/// steps. The numbers are those of the history that they make. It fails only for want of memory.
pub fn weave(alloc: Global, seed: u64, count: u32) -> Result<Woven, AllocError>
    ensures { IfOk result (CountsWoven count) }
{
    let store = run_script(alloc, seed, count)?;
    let tally = store.body.tally();
    let listing = store.body.listing(alloc)?;
    let [metrics, tag_keys, tag_values] = tally.ids;
    Ok(Woven {
        operations: u64::from(count),
        accepted: store.accepted,
        ids: tally.ids,
        wasted: count_wasted(&listing, metrics, tag_keys, tag_values),
        cells: tally.point_cells,
    })
}

/// How many ids up to the counters of the three kinds no name has.
fn count_wasted(listing: &Listing, metrics: u64, tag_keys: u64, tag_values: u64) -> u64
    requires metrics { metrics < 2 ^ 32 }
    requires tag_keys { tag_keys < 2 ^ 32 }
    requires tag_values { tag_values < 2 ^ 32 }
    ensures { result ≡ wasted_of listing.now.lines listing.now.widths Metric metrics + wasted_of listing.now.lines listing.now.widths TagKey tag_keys + wasted_of listing.now.lines listing.now.widths TagValue tag_values }
{
    let lines = listing.lines();
    let metrics = wasted_of(lines, listing.widths, Kind::Metric, metrics);
    let tag_keys = wasted_of(lines, listing.widths, Kind::TagKey, tag_keys);
    let tag_values = wasted_of(lines, listing.widths, Kind::TagValue, tag_values);
    metrics + tag_keys + tag_values
}
