//! Cells of point rows as data points, and back.
#![tactic(auto)]

pub mod cell_reader;
pub mod cells;
pub mod laws;
pub mod merge;
pub mod pack;

pub use cell_reader::{is_column, most_dots, next_piece, read_cell, short_dot};
pub use cells::{Cell, CellFault, CellRef, Dot, Item, MergeFault, Merged};
pub use merge::merge_cells;
pub use pack::{pack_item, pack_value};
pub use short_bytes::short::Bytes;
