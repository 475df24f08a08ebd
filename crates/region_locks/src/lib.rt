//! The regions of a store, each behind a lock with its licence.
#![tactic(auto)]

mod body_replies;
mod five_locks;
pub mod gate;
mod region_lock;
pub mod site_locks;
pub mod step_names;
pub mod step_order;

pub use gate::{Gate, NoGate};
pub use step_names::StepNames;
