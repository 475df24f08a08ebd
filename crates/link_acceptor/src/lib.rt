//! Connections that are accepted into queues, beside workers on other threads.
#![tactic(auto)]

pub mod accept_loop;
pub mod link;
pub mod staff;
