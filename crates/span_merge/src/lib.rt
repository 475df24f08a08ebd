//! The points of series by the ids of their tags, or the buckets that they make, collected from rows that come hour by hour.
#![tactic(auto)]

pub mod kept_points;
mod places;
pub mod series;
pub mod spans;
