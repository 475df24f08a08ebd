//! What is told of series.

use qual_codec::Bytes;
use tsd_base::tags::Tags;

/// The last point of a series.
#[derive(Debug, Drop)]
pub struct Last {
    /// The identifier of the series: the bytes of its metric's id, and then those of each tag's ids, rising by the key's.
    pub tsuid: Bytes,
    /// Its time, in milliseconds.
    pub time: u64,
    /// Its value.
    pub value: i64,
}

/// One of the series that a lookup finds.
#[derive(Drop)]
pub struct Line {
    pub tags: Tags,
    /// The identifier of the series: the bytes of its metric's id, and then those of each tag's ids, rising by the key's.
    pub tsuid: Bytes,
    /// At how many times it has points.
    pub count: u64,
}
