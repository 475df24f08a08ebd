//! Data points, and reading one of a line.
ghost use Rattle.std.specs.Prelude.{ℕ, Bool};
ghost use Rattle.tsd_base.specs.Moments.{IsTime};

use crate::names::{Name, NameFault};
use crate::tags::{Tags, TagsFault};
use crate::values::ValueFault;

/// A data point: a value of a series at a time.
#[derive(Drop)]
pub struct Point {
    pub metric: Name,
    pub tags: Tags,
    /// In milliseconds since 1970.
    pub time: u64,
    /// Whether the time was given in milliseconds.
    pub fine: bool,
    pub value: i64,
    pub ghost timed: { IsTime time fine },
}

/// Why a line is no point. Tags are numbered from 1. No `fault` within is want of memory.
#[derive(Debug, Drop)]
pub enum PointFault {
    /// There are `found` words, fewer than 4.
    FewWords { found: usize },
    /// The first word is no name.
    Metric { fault: NameFault },
    /// The second word is no time.
    Time,
    /// The third word is no value.
    Value { fault: ValueFault },
    /// The tag has no `=`.
    TagForm { index: usize },
    /// What stands before the tag's first `=` is no name.
    TagKey { index: usize, fault: NameFault },
    /// What stands behind the tag's first `=` is no name.
    TagValue { index: usize, fault: NameFault },
    /// The pairs are no tags.
    Tags { fault: TagsFault },
    /// There was no memory for the point.
    OutOfMemory,
}
