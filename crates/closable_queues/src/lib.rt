//! Queues that wait and can be closed, whose users know how much they put and took.
#![tactic(auto)]

pub mod closable;
pub mod queue_lists;
