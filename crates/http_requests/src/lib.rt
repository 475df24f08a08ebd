//! The requests of an HTTP connection, in whatever pieces its bytes come.
//!
//! A request is a head, up to and with the first empty line behind its first line, and a body of as many bytes as the head
//! says. `Exchange` keeps the bytes that came, and gives the requests that have come whole one after the other. A request
//! that breaks a rule is given as refused, and nothing is read behind it.
#![tactic(auto)]

pub mod form;
mod head_fields;
mod head_search;
pub mod http_call;
mod http_head;
pub mod json_body;
pub mod laws;
pub mod request_stream;
pub mod routes;
