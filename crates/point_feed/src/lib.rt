//! Rows that hand on what is accepted: the lines of the points that are put or appended through them.
#![tactic(auto)]

mod feed;
mod feed_parts;
mod feed_terms;
mod kept_lines;

pub use feed::Feed;
pub use feed_parts::{PrintsPoints, SelectsPoints};
pub use feed_terms::FeedTerms;
