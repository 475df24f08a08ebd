//! Several callers of one body, in turns.
#![tactic(auto)]

pub mod laws;
pub mod solo;
mod turn_bytes;
mod turn_places;
mod turns;

pub use solo::Solo;
