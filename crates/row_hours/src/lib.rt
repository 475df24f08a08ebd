//! The hours of rows: their length, and the hour of a time.
#![tactic(auto)]

pub mod hours;

pub use hours::{HOUR, HOUR_MILLIS, LAST_OFFSET, base_of};
