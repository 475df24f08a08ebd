//! The small choices that points and queries are made of.

/// What a name names. Each kind has names and ids of its own.
#[derive(Clone, Copy, Debug, PartialEq, Eq)]
pub enum Kind {
    Metric,
    TagKey,
    TagValue,
}

/// How the series of a group make one value at each time.
///
/// `Sum`, `Min`, `Max` and `Avg` interpolate between a series' neighbours where it has no value of its own; the
/// others take only values that stand at that very time. `NoneOf` keeps each series by itself.
#[derive(Clone, Copy, Debug, PartialEq, Eq)]
pub enum Aggregator {
    Sum,
    Min,
    Max,
    Avg,
    Count,
    Zimsum,
    Mimmin,
    Mimmax,
    NoneOf,
}

/// How the values of one series in one bucket make one value.
#[derive(Clone, Copy, Debug, PartialEq, Eq)]
pub enum Function {
    Sum,
    Min,
    Max,
    Avg,
    Count,
    First,
    Last,
    Zimsum,
    Mimmin,
    Mimmax,
}

/// What stands for a bucket without a point: nothing, or zero.
#[derive(Clone, Copy, Debug, PartialEq, Eq)]
pub enum Fill {
    NoFill,
    Zero,
}

/// A downsample: buckets of `interval` milliseconds, each of one value.
#[derive(Clone, Copy, Debug, PartialEq, Eq)]
pub struct Down {
    pub interval: u64,
    pub function: Function,
    pub fill: Fill,
}
