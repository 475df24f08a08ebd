//! How the series of a group make one value at each time of the union of their times.
#![tactic(auto)]

pub mod aggregation;
mod cursors;
mod equal_times;
pub mod filled_groups;
pub mod interpolation;
pub mod laws;
pub mod tally;
