//! Cells by index in memory of their own: in a strip of small values, or as heads and one block of bytes.
#![tactic(auto)]

pub mod block;
pub mod mixed_cells;
pub mod room;
pub mod seeks;
pub mod small_value;
pub mod strip;
mod two_bytes;
