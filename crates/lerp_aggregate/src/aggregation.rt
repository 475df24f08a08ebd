//! The points that a group of series makes.
ghost use Rattle.std.specs.Prelude.{◌≡◌, ◌<◌, ◌^◌, All, length};
ghost use Rattle.lerp_aggregate.specs.Aggregation.{aggregated, interpolates, GivesAggregate};
ghost use Rattle.lerp_aggregate.specs.Walks.{walked, StandAt};

use crate::cursors::Walk;
use crate::equal_times::by_place;
use crate::tally::Tally;
use std::alloc::{AllocError, Global};
use tsd_base::dots::Dots;
use tsd_base::kinds::Aggregator;

/// Why a group of series makes no points.
#[derive(Clone, Copy, Debug, PartialEq, Eq)]
pub enum AggFault {
    /// At this time, in milliseconds, the sum of the values leaves an `i64`. No earlier time has such a sum.
    Overflow { time: u64 },
    /// Memory ran out.
    OutOfMemory,
}

impl From<AllocError> for AggFault {
    ghost use Rattle.std.specs.Prelude.{◌≡◌};
    ghost use Rattle.lerp_aggregate.specs.declared.aggregation.AggFault.TheVariants.{OutOfMemory};

    ghost from_gives = { λ _ fault. fault ≡ OutOfMemory };

    fn from(_error: AllocError) -> AggFault {
        AggFault::OutOfMemory
    }
}

/// The one value that the series of a group make at each time of the union of their times.
///
/// Times are in milliseconds, below 2^43. `Sum`, `Min`, `Max` and `Avg` take of each series its value at the time, or
/// the one between its neighbours (`lerp_at`), and nothing before its first or after its last point. The others take
/// only values that stand at that very time. `Count` is the number of values; `Avg` is their sum divided by their
/// number, toward zero; `NoneOf` keeps one series as it is. No series make no points.
///
/// It fails with `Overflow` exactly where the sum of `Sum` or `Zimsum` leaves an `i64`, at the least such time, and
/// with `OutOfMemory` only for want of memory.
pub fn aggregate(alloc: Global, list: &[Dots], how: Aggregator) -> Result<Dots, AggFault>
    requires times { All (λ series. All (λ point. point.0 < 2 ^ 43) series) list.now }
    requires alone { how ≡ Aggregator.NoneOf → length list.now ≡ 1 }
    ensures { GivesAggregate result (aggregated how list.now) }
{
    if list.is_empty() {
        return Ok(Dots::make(alloc));
    }
    if let Some(dots) = by_place(alloc, list, how)? {
        return Ok(dots);
    }
    let walk = Walk::start(alloc, list, 0, list.len())?;
    walk_on(alloc, list, how, walk)
}

/// Whether a series without a value at a time gives one between its neighbours.
fn interpolates(how: Aggregator) -> bool
    ensures { result ≡ interpolates how }
{
    matches!(
        how,
        Aggregator::Sum | Aggregator::Min | Aggregator::Max | Aggregator::Avg
    )
}

/// The points from the start of a walk.
fn walk_on(alloc: Global, list: &[Dots], how: Aggregator, mut walk: Walk) -> Result<Dots, AggFault>
    requires limit { All (λ series. All (λ point. point.0 < 2 ^ 43) series) list.now }
    requires start { StandAt list.now 0 walk }
    requires all { walked list.now walk ≡ list.now }
    ensures { GivesAggregate result (aggregated how list.now) }
{
    let between = interpolates(how);
    let mut dots = Dots::make(alloc);
    while let Some(time) = walk.next() {
        let mut tally = Tally::new();
        walk.turn(list, between, time, &mut tally);
        let Some(value) = tally.value(how) else {
            return Err(AggFault::Overflow { time });
        };
        dots.push(time, value)?;
    }
    Ok(dots)
}
