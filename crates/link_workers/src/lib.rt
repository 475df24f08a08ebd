//! Connections that are accepted on one thread and served by workers on others.
#![tactic(auto)]

pub mod link_ends;
pub mod link_service;
pub mod link_work;
pub mod worker_loop;
