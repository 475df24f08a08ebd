//! Where connections come from: doors, in memory and over a listener of the system.
#![tactic(auto)]

pub mod doors;
pub mod mem_doors;
pub mod mem_ends;
pub mod tcp_doors;
pub mod tcp_ends;
