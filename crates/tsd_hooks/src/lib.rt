//! What an operator decides, as functions that are kept beside the fact of what they answer.
#![tactic(auto)]

pub mod name_patterns;
pub mod point_rule;
pub mod printer;
pub mod uid_rule;

pub use name_patterns::Patterns;
pub use point_rule::PointRule;
pub use printer::Printer;
pub use uid_rule::UidRule;
