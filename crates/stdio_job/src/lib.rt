//! The job of `stdio`: one connection over an empty store of its own, which nobody else steps. The points that it accepted may be published.
#![tactic(auto)]

mod feeding;
pub mod lone_connection;
mod publication;
mod published_connection;

pub use lone_connection::{Finished, serve_alone};
