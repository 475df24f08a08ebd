//! Groups whose series have a value at each of some times.
ghost use Rattle.std.specs.Prelude.{◌≡◌, ◌+◌, ◌<◌, ◌≤◌, ◌^◌, All, length, map};
ghost use Rattle.lerp_aggregate.specs.Aggregation.{aggregated, GivesAggregate};
ghost use Rattle.lerp_aggregate.specs.FilledGroups.{IsOn, filled, times_from, value_or_zero};
ghost use Rattle.lerp_aggregate.specs.Tally.{made_of};
ghost use Rattle.lerp_aggregate.specs.Walks.{StandAt, walked};

use crate::aggregation::AggFault;
use crate::cursors::Walk;
use crate::tally::Tally;
use std::alloc::Global;
use tsd_base::dots::Dots;
use tsd_base::kinds::Aggregator;

/// The one value that the series of a group make at each of `count` times, `interval` apart from `first` on, in milliseconds. A series has
/// the value 0 where it has no point; each of its points is at one of these times. These values aren't held.
///
/// It fails as [`crate::aggregation::aggregate`] does.
pub fn aggregate_filled(
    alloc: Global,
    list: &[Dots],
    how: Aggregator,
    first: u64,
    interval: u64,
    count: u64,
) -> Result<Dots, AggFault>
    requires interval { 1 ≤ interval }
    requires times { All (λ time. time < 2 ^ 43) (times_from interval first count) }
    requires on { All (IsOn (times_from interval first count)) list.now }
    ensures { GivesAggregate result (aggregated how (map (filled (times_from interval first count)) list.now)) }
{
    if list.is_empty() {
        return Ok(Dots::make(alloc));
    }
    let mut walk = Walk::start(alloc, list, 0, list.len())?;
    let mut dots = Dots::with_room(alloc, count as usize)?;
    for place in 0..count {
        let time = first + place * interval;
        let Some(value) = value_filled(&mut walk, list, time, how) else {
            return Err(AggFault::Overflow { time });
        };
        dots.push(time, value)?;
    }
    Ok(dots)
}

/// What the aggregator makes of one value of each series at a time, 0 where a series has none. It is nothing exactly where that is a sum
/// that leaves `i64`. Then the walk is behind the points of that time.
fn value_filled(walk: &mut Walk, list: &[Dots], time: u64, how: Aggregator) -> Option<i64>
    requires some { 0 < length list.now }
    requires stand { StandAt list.now time walk.old }
    requires all { walked list.now walk.old ≡ list.now }
    requires limit { All (λ series. All (λ p. p.0 < 2 ^ 43) series) list.now }
    ensures stand { StandAt list.now (time + 1) walk.new }
    ensures all { walked list.now walk.new ≡ list.now }
    ensures value { result ≡ made_of how (map (λ series. value_or_zero series time) list.now) }
{
    let mut tally = Tally::new();
    walk.turn(list, false, time, &mut tally);
    tally.fill(list.len() as u64);
    tally.value(how)
}
