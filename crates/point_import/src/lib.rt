//! Importing the points of a source into names and rows, over any rows.
#![tactic(auto)]

pub mod import_fault;
mod import_line;
mod import_names;
mod import_point;
pub mod laws;
pub mod source_import;

pub use import_fault::{ImportFault, LineFault};
pub use source_import::import;
