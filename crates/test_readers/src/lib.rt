//! Files of cases: their lines, what differs from what they want, devices in memory, and the lines that stand alone.
#![tactic(auto)]

pub mod case_lines;
pub mod cell_cases;
pub mod devices;
pub mod point_cases;
pub mod query_cases;
pub mod readers;
pub mod report;
mod series_cases;
mod string_cases;
pub mod text;
pub mod told;
