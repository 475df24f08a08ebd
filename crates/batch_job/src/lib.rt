//! The job of `batch`: points that are pending, the ids of their names, and the answer of a query over them.
#![tactic(auto)]

pub mod answer;
mod last_values;
pub mod pending;
mod pending_ids;
mod pending_puts;
mod pending_series;
pub mod point_line;
mod series_text;
mod series_values;
