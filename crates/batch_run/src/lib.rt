//! The run of `batch`: points are read from the input, and the answer of a query over them is printed, or the usage line.
#![tactic(auto)]

mod input;
mod output_text;
pub mod printing;
mod query;
mod refusal;
mod reply_line;
mod run_fault;
pub mod status;

pub use printing::print;
pub use status::{Ended, Status};
