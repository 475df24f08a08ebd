//! Ids of names and names of ids, over any rows.
#![tactic(auto)]

mod assign;
mod cache;
pub mod id_answers;
mod id_name;
mod id_reads;
pub mod known_series;
pub mod placed_point;
mod suggest;
pub mod uids;

pub use id_answers::{AssignFault, Assigned, ResolveFault};
pub use known_series::KnownSeries;
pub use placed_point::PlacedPoint;
pub use uids::Uids;
