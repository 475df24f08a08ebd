//! A whole reply.
ghost use Rattle.std.specs.Prelude.{◌≡◌, IfOk};
ghost use Rattle.http_reply.specs.ReplyBytes.{reply_bytes};
ghost use Rattle.http_reply.specs.ReplyStatuses.{code_of};
ghost use Rattle.json_reply.specs.ErrorBodies.{error_body};

use crate::reply_head::{LONGEST_HEAD, write_head};
use crate::reply_status::Status;
use json_reply::error_body::error_text;
use std::alloc::{AllocError, Global};

/// The bytes of a reply: its head, and the body where the status has one.
///
/// `closing` says that the connection closes behind it. It fails only for want of memory.
pub fn reply(
    alloc: Global,
    status: Status,
    closing: bool,
    body: &[u8],
) -> Result<Vec<u8>, AllocError>
    ensures { IfOk result (λ reply. reply.items ≡ reply_bytes status closing body.now) }
{
    let mut out = Vec::with_capacity(alloc, LONGEST_HEAD + body.len())?;
    write_head(&mut out, status, closing, body.len())?;
    if status.has_content() {
        out.extend_from_slice(body)?;
    }
    Ok(out)
}

/// The bytes of a refusal: a reply whose body is an error with the status's number and this message.
///
/// Messages need no escapes. It fails only for want of memory.
pub fn refusal(
    alloc: Global,
    status: Status,
    closing: bool,
    message: &[u8],
) -> Result<Vec<u8>, AllocError>
    ensures { IfOk result (λ reply. reply.items ≡ reply_bytes status closing (error_body (code_of status) message.now)) }
{
    let body = error_text(alloc, status.code(), message)?;
    reply(alloc, status, closing, &body)
}
