//! Rows of one caller of a store, between whose steps other callers step as a script has it.
#![tactic(auto)]

pub mod act;
pub mod base;
pub mod claim;
mod drops;
mod fact;
mod merge_step;
pub mod script;
mod script_key;
pub mod scripted;
pub mod sharing;
mod step;
