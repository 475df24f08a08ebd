//! The store in regions, each over the rows that have its number.
#![tactic(auto)]

pub mod region;
mod region_lines;
pub mod store_regions;

pub use region::Region;
pub use store_regions::{DATA_REGIONS, Regions};
