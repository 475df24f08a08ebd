//! Filters over the tags of a series, with patterns that are built once.
#![tactic(auto)]

pub mod built;
mod built_filter;
pub mod judge;
mod patterns;

pub use built::{BuildFault, Built};
pub use judge::Judge;
