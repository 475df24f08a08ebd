//! What the workers of a site hand back when they have ended.
#![tactic(auto)]

pub mod worker_return;
