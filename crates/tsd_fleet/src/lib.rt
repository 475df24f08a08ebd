//! A fleet: workers over one store that serve the connections of a port, each on a thread of its own, beside those that compact rows.
#![tactic(auto)]

pub mod fleet;
pub mod fleet_end;
mod listening;

pub use fleet::{Fleet, FleetDone, FleetKept, serve, serve_from};
pub use fleet_end::FleetEnd;
