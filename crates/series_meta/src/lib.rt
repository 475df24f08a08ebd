//! The series of a metric, and the last point of a series, over any rows.
#![tactic(auto)]

mod hour_walk;
pub mod last_point;
mod latest_dot;
pub mod lookup_text;
pub mod lookups;
pub mod meta_answers;
pub mod meta_faults;
mod row_count;
mod series_counts;
mod series_ids;
mod series_lines;
mod series_row;

pub use last_point::last;
pub use lookup_text::read_series;
pub use lookups::lookup;
pub use meta_answers::{Last, Line};
pub use meta_faults::{MetaFault, SeriesFault};
