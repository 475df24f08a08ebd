//! What the values of a bucket make.
ghost use Rattle.std.specs.Prelude.{◌≡◌, ◌<◌, length, map};
ghost use Rattle.lerp_aggregate.specs.Tally.{made_of};
ghost use Rattle.downsample.specs.Buckets.{value_of};

use lerp_aggregate::tally::Tally;
use tsd_base::kinds::{Aggregator, Function};

/// What the aggregator makes of the values of these points. It is nothing exactly where that is a sum that leaves `i64`.
fn tallied(points: &[(u64, i64)], how: Aggregator) -> Option<i64>
    requires { 0 < length points.now }
    ensures { result ≡ made_of how (map (λ p. p.1) points.now) }
{
    let mut tally = Tally::new();
    for point in points {
        tally.add(point.1);
    }
    tally.value(how)
}

/// What the function makes of the values of these points: 0 where there are none. It is nothing exactly where that is a sum
/// that leaves `i64`.
pub fn value_of(points: &[(u64, i64)], function: Function) -> Option<i64>
    ensures { result ≡ value_of function (map (λ p. p.1) points.now) }
{
    let (Some(first), Some(last)) = (points.first(), points.last()) else {
        return Some(0);
    };
    match function {
        Function::First => Some(first.1),
        Function::Last => Some(last.1),
        Function::Sum => tallied(points, Aggregator::Sum),
        Function::Min => tallied(points, Aggregator::Min),
        Function::Max => tallied(points, Aggregator::Max),
        Function::Avg => tallied(points, Aggregator::Avg),
        Function::Count => tallied(points, Aggregator::Count),
        Function::Zimsum => tallied(points, Aggregator::Zimsum),
        Function::Mimmin => tallied(points, Aggregator::Mimmin),
        Function::Mimmax => tallied(points, Aggregator::Mimmax),
    }
}
