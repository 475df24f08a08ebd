//! Putting a point, with the queue of rows that are to be compacted, over any rows.
#![tactic(auto)]

pub mod queued_point;
pub mod queued_text;

pub use queued_point::put_queued;
pub use queued_text::queue_stored;
