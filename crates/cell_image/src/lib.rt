//! Images: the cells of a store as bytes, each store in one spelling.
#![tactic(auto)]

pub mod image_cells;
pub mod image_fault;
mod image_fields;
pub mod image_giver;
pub mod image_reader;
pub mod image_stream;
pub mod image_writer;
pub mod large_line;
pub mod laws;
mod no_sink;

pub use image_cells::{StoreImage, store_image};
pub use image_fault::{ImageFault, WriteImageFault};
pub use image_giver::{GiveImageFault, give_image};
pub use image_reader::read_image;
pub use image_stream::{TakeImageFault, take_image};
pub use image_writer::write_image;
