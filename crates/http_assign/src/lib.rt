//! What an HTTP request asks of names: ids for lists of them, and names that begin with a prefix. Over any rows.
#![tactic(auto)]

pub mod assign_lists;
pub mod laws;
pub mod suggest_names;
