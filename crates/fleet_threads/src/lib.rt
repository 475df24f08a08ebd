//! The connections of the doors, served over one site while rows of their points are compacted on other threads.
#![tactic(auto)]

pub mod site_threads;
