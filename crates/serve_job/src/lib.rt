//! The job of `serve`: a fleet over a store of its own, the lines that it prints, and the image of the store that it leaves.
#![tactic(auto)]

pub mod fleet_job;
mod last_lines;
mod summary;

pub use fleet_job::{Finished, serve_fleet};
