//! The laws of the store: what holds of every lawful history of it, and worked examples.
#![tactic(auto)]

pub mod examples;
pub mod laws;
pub mod part_laws;
