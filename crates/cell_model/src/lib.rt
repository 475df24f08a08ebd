//! The store as a machine over rows and cells, and what a caller of it knows.
#![tactic(auto)]

pub mod answers;
pub mod body;
pub mod events;
pub mod kind_widths;
pub mod row;
pub mod rows;
pub mod stamp;

pub use answers::{Bumped, Claimed, RowsFault, Stopped, Stored, Tally};
pub use body::Body;
pub use events::{Content, Entry, Place, Placed, PlainPoint, Reply, Step};
pub use kind_widths::width_of;
pub use row::{Cells, Drops, Found, LineList, ListLine, Listing, Row};
pub use rows::Rows;
