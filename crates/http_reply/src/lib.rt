//! The bytes of HTTP replies: heads, fixed bodies, and the replies to puts and assignments.
#![tactic(auto)]

pub mod assign_reply;
pub mod fixed_bodies;
pub mod put_reply;
pub mod reply_head;
pub mod reply_status;
pub mod response;
