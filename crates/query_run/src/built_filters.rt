//! The filters of a sub query that can be worked.
ghost use Rattle.std.specs.Prelude.{◌≡◌, ◌≤◌};
ghost use Rattle.tsd_base.specs.declared.times.TheConstants.{LAST_TIME};
ghost use Rattle.query_text.specs.Subs.{CanDown};
ghost use Rattle.series_groups.specs.QueryAnswers.{too_many_down};
ghost use Rattle.query_run.specs.SubQuery.{BuiltSays};

use downsample::buckets;
use metric_scan::fault::AskFault;
use query_text::queries::{Query, Sub};
use std::alloc::Global;
use tag_match::{BuildFault, Built};
use tsd_base::kinds::Fill;

/// The most buckets that a fill of zeros may make.
const MOST_BUCKETS: u64 = 1_000_000;

/// The filters of a sub query with their patterns built, or what keeps it from being worked at all.
pub(crate) fn built_filters<'q>(
    alloc: Global,
    query: &Query,
    sub: &'q Sub,
) -> Result<Built<'q>, AskFault>
    requires order { query.now.start ≤ query.now.end }
    requires most { query.now.end ≤ LAST_TIME }
    requires down { CanDown query.now.ms sub.now }
    ensures { BuiltSays query.now sub.now result }
{
    if let Some(count) = too_many_buckets(query, sub) {
        return Err(AskFault::TooManyBuckets { count });
    }
    match Built::of(alloc, sub.filters.list()) {
        Ok(built) => Ok(built),
        Err(BuildFault::Pattern { index }) => Err(AskFault::BadFilter { index }),
        Err(BuildFault::OutOfMemory) => Err(AskFault::OutOfMemory),
    }
}

/// The number of buckets of a fill of zeros, where it makes too many.
fn too_many_buckets(query: &Query, sub: &Sub) -> Option<u64>
    requires order { query.now.start ≤ query.now.end }
    requires most { query.now.end ≤ LAST_TIME }
    requires down { CanDown query.now.ms sub.now }
    ensures { result ≡ too_many_down query.now.start query.now.end sub.now.down }
{
    let down = sub.down?;
    match down.fill {
        Fill::NoFill => None,
        Fill::Zero => {
            let count = buckets(query.start, query.end, down.interval);
            (MOST_BUCKETS < count).then_some(count)
        }
    }
}
