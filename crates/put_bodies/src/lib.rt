//! The elements of a put's body, read from a tape of its tokens and written as lines, without a tree of values.
#![tactic(auto)]

pub mod body_lines;
pub mod body_tape;
pub mod element_line;
mod element_members;
mod element_scan;
mod plain_tape;
mod put_words;
mod text_numbers;
mod text_scan;
