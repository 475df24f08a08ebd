//! A script of three daemons, which step on one store in front of one another, as numbers that a seed gives decide.
#![tactic(auto)]

pub mod counts_text;
mod daemons;
mod operations;
pub mod script;
pub mod script_counts;
mod waste;

pub use counts_text::woven_text;
pub use script::{WovenStore, run_script};
pub use script_counts::{Woven, weave};
