//! The words of cases over a store: the calls of caller 1, and what others do.
#![tactic(auto)]

pub mod acts;
mod asks;
pub mod calls;
mod compactions;
