//! The rows of daemons that step on one store in front of one another, as drawn numbers decide.
#![tactic(auto)]

pub mod beginning;
pub mod daemon_rows;
mod draws;
pub mod loom;
pub mod next_daemon;

pub use beginning::Beginning;
pub use daemon_rows::DaemonRows;
pub use loom::Loom;
pub use next_daemon::{NextDaemon, NoDaemon, Worked};
