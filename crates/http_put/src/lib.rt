//! The elements of an HTTP put, asked one after the other over any rows.
#![tactic(auto)]

pub mod put_elements;
pub mod put_lines;
mod rest_elements;
