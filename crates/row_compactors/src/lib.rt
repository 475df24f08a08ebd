//! Workers that compact rows, each on a thread of its own, and the rows that are sent to them.
#![tactic(auto)]

pub mod compactor_seats;
pub mod compactor_threads;
pub mod row_compactor;
pub mod upkeep;
