//! Queries, and the readers of the texts of their sub queries.
#![tactic(auto)]

pub mod aggregators;
pub mod cuts;
pub mod downs;
pub mod filters;
pub mod queries;
mod query_faults;
pub mod subs;
mod test_texts;
