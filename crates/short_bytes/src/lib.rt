//! Byte strings that take no memory where they are short.
#![tactic(auto)]

mod blocks;
pub mod comparison;
mod fills;
mod loads;
pub mod same_bytes;
pub mod short;
