//! Going through the rows of a metric that pass filters, with the names of their ids.
#![tactic(auto)]

mod ask_faults;
pub mod fault;
pub mod id_filter;
pub mod id_set;
mod key_jump;
pub mod metric_rows;
mod resolve;
pub mod row_names;
pub mod row_tags;
pub mod row_turn;

pub use fault::AskFault;
pub use metric_rows::MetricRows;
pub use row_turn::RowTurn;
