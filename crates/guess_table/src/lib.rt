//! Where something may be, by a hash of its bytes.
#![tactic(auto)]

mod bytes_hash;
mod guesses;
mod rounds;
mod trails;

pub use bytes_hash::hash_bytes;
pub use guesses::Guesses;
pub use rounds::Round;
pub use trails::Trail;
