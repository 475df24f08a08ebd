//! Queries over any rows.
#![tactic(auto)]

mod built_filters;
mod collection;
pub mod laws;
pub mod question;
mod row_dots;
mod series_tags;
mod sub_query;
mod value_judges;

pub use metric_scan::fault::AskFault;
pub use question::ask;
