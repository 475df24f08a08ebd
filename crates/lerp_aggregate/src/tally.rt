//! What the values of a group make at one time.
ghost use Rattle.std.specs.Prelude.{◌≡◌, ◌<◌, ◌≤◌, ◌-◌, ◌^◌, [], ◌∷◌, List, ℤ, int_div, pos, replicate};
ghost use Rattle.lerp_aggregate.specs.Tally.{Adds, Counts, HasRoom, made_of};

use tsd_base::kinds::Aggregator;

/// The number, the sum, the least and the greatest of some values.
#[derive(Clone, Copy)]
pub struct Tally {
    count: u64,
    sum: i128,
    least: i64,
    greatest: i64,
}

impl Tally {
    /// Of no values.
    pub fn new() -> Tally
        ensures counts { Counts result [] }
    {
        Tally {
            count: 0,
            sum: 0,
            least: i64::MAX,
            greatest: i64::MIN,
        }
    }

    /// Counts one value more.
    #[inline]
    pub fn add(&mut self, value: i64)
        requires room { HasRoom self.old 1 }
        ensures adds { Adds self.old self.new (value ∷ []) }
    {
        self.least = self.least.min(value);
        self.greatest = self.greatest.max(value);
        self.sum += i128::from(value);
        self.count += 1;
    }

    /// Counts zeros, until it counts so many values.
    pub fn fill(&mut self, count: u64)
        requires few { self.old.count ≤ count }
        requires room { count < 2 ^ 63 }
        ensures { Adds self.old self.new (replicate (count - self.old.count) (pos 0)) }
    {
        if self.count < count {
            self.least = self.least.min(0);
            self.greatest = self.greatest.max(0);
            self.count = count;
        }
    }

    /// What the aggregator makes of the values. It is nothing exactly where that is a sum that leaves `i64`.
    pub fn value(&self, how: Aggregator) -> Option<i64>
        requires some { 0 < self.now.count }
        requires room { HasRoom self.now 0 }
        ensures { (values : List ℤ) → Counts self.now values → result ≡ made_of how values }
    {
        match how {
            Aggregator::Sum | Aggregator::Zimsum => i64::try_from(self.sum).ok(),
            Aggregator::Min | Aggregator::Mimmin | Aggregator::NoneOf => Some(self.least),
            Aggregator::Max | Aggregator::Mimmax => Some(self.greatest),
            Aggregator::Avg => Some(self.average()),
            Aggregator::Count => Some(self.count as i64),
        }
    }

    /// The sum divided by the number, toward zero. Most sums have 64 bits, which are divided sooner than 128.
    fn average(&self) -> i64
        requires some { 0 < self.now.count }
        requires room { HasRoom self.now 0 }
        ensures { result ≡ int_div self.now.sum (pos self.now.count) }
    {
        match i64::try_from(self.sum) {
            Ok(sum) => sum / self.count as i64,
            Err(_) => (self.sum / i128::from(self.count)) as i64,
        }
    }
}
