//! The points of a store, which a listing tells, as lines of text.
#![tactic(auto)]

mod best_dots;
pub mod dump;
mod name_ranks;
pub mod point_line;
mod point_text;
mod row_output;
mod row_places;
