//! The answers to the requests of HTTP connections, over any rows.
#![tactic(auto)]

mod answered_names;
mod call_task;
pub mod http_answer;
mod list_put;
mod put_body;
mod query_reply;
pub mod routed_call;
mod series_reply;

pub use http_answer::answer;
pub use routed_call::RoutedCall;
