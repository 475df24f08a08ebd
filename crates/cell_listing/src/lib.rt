//! Listings: the cells of a store as lines of text, with words in lower-case hexadecimal between single spaces.
//!
//! A line that tells no cell, or whose cell isn't above the last one that counts, is kept beside the cells, with its number.
#![tactic(auto)]

mod cuts;
pub mod laws;
mod line_words;
pub mod listed;
pub mod listing_line;
pub mod listing_reader;
pub mod listing_text;

pub use listed::{Listed, OtherLine};
pub use listing_line::{LONGEST_LISTED, LineRead};
pub use listing_reader::read_listing;
