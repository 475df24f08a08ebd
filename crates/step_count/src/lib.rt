//! A word that counts the entries of a store's history: who makes the next entry, what each caller has seen, and the licences of the regions.
//! One rule ties the word to what all callers know together: there is one lawful history, and its length is the word.
#![tactic(auto)]

pub mod counter_rule;
pub mod steps;
pub mod view;

pub use counter_rule::{Base, Entry};
pub use steps::{Licence, Note, Pass, Steps};
pub use view::{Named, View};
