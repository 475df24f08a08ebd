//! The keys of rows: the tables of the store, ids, regions, and the bytes of a point row's key.
#![tactic(auto)]

pub mod ids;
pub mod keys;
pub mod laws;
pub mod regions;
pub mod tables;
pub mod widths;

pub use ids::{MOST_IDS, id_bytes, is_width, most_ids};
pub use keys::{KeyFault, RowKey, read_key, write_key};
pub use regions::{MOST_DATA_REGIONS, NAME_REGIONS, region_of};
pub use tables::Table;
pub use widths::Widths;
