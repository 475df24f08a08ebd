//! The requests on series of HTTP connections: what they ask, and the texts that tell of it, over any rows.
#![tactic(auto)]

pub mod argument_fault;
mod counted_numbers;
pub mod last_answers;
pub mod last_request;
pub mod lookup_answer;
pub mod lookup_request;
mod one_value;
pub mod series_faults;
mod series_objects;
mod series_text;

pub use argument_fault::ArgumentFault;
pub use last_answers::answer_lasts;
pub use last_request::{LastRequest, SeriesName, read_lasts};
pub use lookup_answer::answer_lookup;
pub use lookup_request::{LookupRequest, read_lookup};
pub use series_faults::query_fault;
