//! Serving one connection, from the bytes that it sends to the replies that it gets, over any rows.
#![tactic(auto)]

mod call_exchange;
mod conn_input;
pub mod connection;
pub mod counts;
mod exchange;
mod http_session;
pub mod laws;
mod next_piece;
mod put_answer;
mod reply_buffer;
pub mod served;
mod session;
mod telnet_reply;
mod telnet_session;

pub use connection::serve_conn;
pub use served::Served;
