//! Requests about names: which are to be given ids, and which are to be suggested.
#![tactic(auto)]

pub mod assign_request;
mod comma_list;
pub mod fault;
pub mod suggest_request;
