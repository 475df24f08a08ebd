//! Compaction: the cells of a row become one, over any rows that others may step too.
#![tactic(auto)]

pub mod compact;
pub mod compaction;
mod known_keys;
mod plan;
pub mod queue;
pub mod queue_drain;

pub use compact::compact_row;
pub use compaction::{CompactFault, Compacted, Drained};
pub use queue::Queue;
pub use queue_drain::drain;
