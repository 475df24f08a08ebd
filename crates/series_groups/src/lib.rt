//! Series under the names of their tags, and the groups that a sub query makes of them.
#![tactic(auto)]

mod group_key;
pub mod named_series;
pub mod series_groups;
