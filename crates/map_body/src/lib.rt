//! A store in memory: for each table a map from rows to their packed cells, and the counters beside them.
#![tactic(auto)]

mod counters;
mod store_lines;
pub mod store_maps;
mod table_rows;

pub use store_maps::MapBody;
