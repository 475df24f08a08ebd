//! The grammar of the program's words, in the terms of `clap`.
#![tactic(auto)]

pub mod grammar;
