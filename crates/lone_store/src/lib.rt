//! The store of a run: names and points in the memory of one caller, which steps alone, and where its halt lets it.
#![tactic(auto)]

mod fused;
pub mod run_store;

pub use fused::Fused;
pub use run_store::{Store, empty, halt_of};
