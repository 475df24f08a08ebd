//! The cells of a store, one row at a time, and given to a sink as the lines of a listing.
#![tactic(auto)]

pub mod cell_giver;
mod ids_left;
pub mod line_taker;
mod line_texts;
mod range_walk;
mod row_walk;
mod store_walk;

pub use cell_giver::{GiveFault, give_cells, give_text};
pub use line_taker::LineTaker;
pub use store_walk::{give_body, walk_body};
