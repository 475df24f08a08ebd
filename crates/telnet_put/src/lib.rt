//! The requests of a telnet session, in whatever pieces its bytes come.
//!
//! Each line that isn't blank is a request; its first word is the command. `Lines` keeps the bytes that came, and gives
//! the requests of their whole lines one after the other.
#![tactic(auto)]

pub mod telnet_command;
pub mod telnet_lines;
mod telnet_text;
