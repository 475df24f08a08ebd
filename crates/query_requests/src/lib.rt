//! Queries that a form or a JSON value asks, and their readers.
#![tactic(auto)]

pub mod civil_dates;
pub mod form_query;
mod json_filters;
mod json_members;
pub mod json_query;
mod json_subs;
mod query_parts;
pub mod query_times;
