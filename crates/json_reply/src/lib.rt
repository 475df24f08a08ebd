//! The texts of replies, in JSON without blanks: answers of queries, lists of names, errors.
#![tactic(auto)]

pub mod error_body;
pub mod json_text;
pub mod names_text;
pub mod reply;
mod time_text;
