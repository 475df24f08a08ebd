//! The rule for points: which of them are handed on.
ghost use Rattle.std.specs.Prelude.{◌≡◌};
ghost use Rattle.tsd_base.specs.Points.{data_point};
ghost use Rattle.tsd_hooks.specs.FedPoints.{JudgesBy, is_under};

use short_bytes::short::Bytes;
use tsd_base::points::Point;

/// A function that answers whether a point is to be handed on.
pub type PointTest = Box<dyn Fn(&Point) -> bool + Send + Sync>;

/// A function that answers whether a point's metric begins with a prefix, kept beside that prefix.
///
/// That it may be called on every point, and answers by the prefix, is true of every rule.
#[derive(Drop)]
pub struct PointRule {
    pub prefix: Bytes,
    test: PointTest,
    ghost callable: { PointTest.IsAlwaysCallable test },
    ghost answers: { JudgesBy prefix (PointTest.post test) },
}

impl PointRule {
    /// Keeps a function beside the prefix by which it answers.
    pub fn keep(prefix: Bytes, test: PointTest) -> PointRule
        requires callable { PointTest.IsAlwaysCallable test }
        requires answers { JudgesBy prefix (PointTest.post test) }
        ensures { result.prefix ≡ prefix }
    {
        PointRule { prefix, test }
    }

    /// Whether the point's metric begins with the prefix.
    pub fn passes(&self, point: &Point) -> bool
        ensures { result ≡ is_under self.now.prefix (data_point point.now) }
    {
        (self.test)(point)
    }
}
