//! What is wrong with the cells of a listing, and with its lines.
#![tactic(auto)]

pub mod cell_flaws;
mod cell_notes;
pub mod check;
pub mod laws;
pub mod line_faults;
pub mod report;
pub mod report_text;
mod row_values;
