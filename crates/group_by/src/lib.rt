//! Which series pass the filters of a sub query, which of them make one group, and the tags of a group.
#![tactic(auto)]

pub mod shared_tags;
pub mod tag_filters;
pub mod wildcards;

pub use tag_filters::{group_key, passes};
