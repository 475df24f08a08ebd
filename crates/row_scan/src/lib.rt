//! The rows of a metric in a range of hours, and the data points of one row.
#![tactic(auto)]

pub mod laws;
pub mod merged_points;
pub mod row_times;
pub mod scan;

pub use merged_points::row_points;
pub use row_times::timed_points;
pub use scan::Scan;
