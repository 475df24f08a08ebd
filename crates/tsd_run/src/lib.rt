//! Everything that the program does, over any input and output.
#![tactic(auto)]

mod fleet_base;
pub mod laws;
mod new_names;
mod on_image;
mod on_import;
mod on_listing;
pub mod run;
pub mod run_alone;
mod weaving;

pub use batch_run::{Ended, Status};
