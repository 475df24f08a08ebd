//! Mending a listing: what is made of its lines.
#![tactic(auto)]

mod cell_order;
mod changes;
mod counters;
pub mod fix;
mod given_names;
pub mod laws;
mod listed_cells;
mod sound_points;
mod stayers;
pub mod uid_cells;
