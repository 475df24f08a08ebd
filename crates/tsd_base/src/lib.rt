//! Names, tags, times, values and points, and the readers of their texts.
#![tactic(auto)]

pub mod decimals;
pub mod digits;
pub mod dots;
pub mod faults;
pub mod kinds;
pub mod names;
pub mod point_text;
pub mod points;
pub mod tags;
pub mod text_parts;
pub mod times;
pub mod units;
pub mod values;
pub mod words;
