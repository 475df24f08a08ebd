//! The job of `import`: the points of lines are put into a store of the run's own, whose listing is given.
#![tactic(auto)]

mod compaction;
mod counter;
pub mod import_end;
pub mod import_job;
mod store_listing;

pub use import_end::{ImportEnd, Imported};
pub use import_job::import_alone;
