//! Replies and their text.
ghost use Rattle.std.specs.Prelude.{◌≡◌, map, All, IfOk};
ghost use Rattle.json_reply.specs.Replies.{IsReady, plain, text_of};

use crate::json_text::write_groups;
use std::alloc::{AllocError, Global};
use tsd_base::dots::Dots;
use tsd_base::names::Name;

/// The answer for one group of series.
#[derive(Drop)]
pub struct Group {
    pub metric: Name,
    /// The pairs that all of its series have, in byte order of the keys.
    pub tags: Vec<(Name, Name)>,
    /// The keys that all of its series have without one common value, in byte order.
    pub aggregate_tags: Vec<Name>,
    /// The values, at times in milliseconds.
    pub dps: Dots,
    /// Whether times are written in milliseconds; else in seconds.
    pub ms: bool,
}

/// The answers of all sub queries, in order.
#[derive(Drop)]
pub struct Reply {
    pub groups: Vec<Group>,
}

/// The text of a reply: a JSON array of one object for each group, without blanks.
///
/// An object has the keys `aggregateTags`, `dps`, `metric` and `tags`. `dps` has each value under its time, in byte
/// order of the time's text, so that `1000000000` stands before `999999999`. Names need no escapes. It fails only for
/// want of memory.
pub fn reply_text(alloc: Global, reply: &Reply) -> Result<Vec<u8>, AllocError>
    requires { All IsReady reply.now.groups.items }
    ensures { IfOk result (λ text. text.items ≡ text_of (map plain reply.now.groups.items)) }
{
    let mut text = Vec::new(alloc);
    text.push(b'[')?;
    write_groups(alloc, &mut text, reply.groups.as_slice())?;
    text.push(b']')?;
    Ok(text)
}
