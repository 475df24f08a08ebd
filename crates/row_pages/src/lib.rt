//! The rows of a table in pages, which contracts see as a finite map from the bytes of a row to its cells.
#![tactic(auto)]

mod hints;
mod page;
mod page_edits;
mod page_places;
pub mod row_map;
pub mod row_walk;

pub use row_map::RowPages;
pub use row_walk::RowWalk;
