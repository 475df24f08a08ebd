//! Sources and sinks of bytes, clocks and halts, in memory and over the system's own.
#![tactic(auto)]

pub mod clock;
pub mod give_all;
pub mod halt;
pub mod memory;
pub mod ports;
pub mod standard;
