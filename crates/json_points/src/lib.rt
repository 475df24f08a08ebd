//! Points in JSON: the elements of a put.
#![tactic(auto)]

mod element_tags;
pub mod elements;
pub mod fault;
