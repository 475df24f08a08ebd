//! Putting points by the ids of their names, over any rows.
#![tactic(auto)]

pub mod config;
pub mod fault;
pub mod laws;
pub mod placed_put;
pub mod point_cell;
mod point_key;
mod put_cell;
mod put_ids;
pub mod put_point;
pub mod stored_text;
pub mod text_put;

pub use config::Config;
pub use fault::{PutFault, TextFault};
pub use placed_put::{put_first, put_next};
pub use put_point::put;
pub use stored_text::StoredText;
pub use text_put::put_text;
