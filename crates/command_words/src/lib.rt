//! The words of commands.
#![tactic(auto)]

pub mod asked;
pub mod word_reader;

pub use asked::{Asked, Batch, Import, NameOptions, PatternTexts, Serve, Stdio, Weave};
pub use word_reader::{read_fleet, read_words};
