//! One series of a metric.

use span_merge::kept_points::Kept;
use tsd_base::tags::Tags;

/// What is kept of the points of one series, under the names of its tags.
#[derive(Drop)]
pub struct Series {
    pub tags: Tags,
    pub kept: Kept,
}
