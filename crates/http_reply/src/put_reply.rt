//! The reply to a put.
ghost use Rattle.std.specs.Prelude.{◌≡◌, ◌++◌, ◌≤◌, length, map, IfOk, OnOk};
ghost use Rattle.json_reply.specs.Texts.{listed};
ghost use Rattle.http_reply.specs.PutReplies.{refused, failed, error_object, counts_text, details_body, summary_body, plain_body, put_body, put_status, texts_of};
ghost use Rattle.http_reply.specs.ReplyBytes.{reply_bytes};

use crate::reply_status::Status;
use crate::response::reply;
use itoa::Buffer;
use json_reply::error_body::error_text;
use json_reply::json_text::write_comma;
use std::alloc::{AllocError, Global};

/// The bytes of the reply to a put whose elements had these outcomes: none where the element was stored, else why it
/// was refused.
///
/// The status is 400 where any was refused; else it is 200 with `details` or `summary`, and else 204. Texts of refusals
/// need no escapes. It fails only for want of memory.
pub fn put_reply(
    alloc: Global,
    closing: bool,
    details: bool,
    summary: bool,
    outcomes: &[Option<Vec<u8>>],
) -> Result<Vec<u8>, AllocError>
    ensures { IfOk result (λ reply. reply.items ≡ reply_bytes (put_status details summary (texts_of outcomes.now)) closing (put_body details summary (texts_of outcomes.now))) }
{
    let status = put_status(details, summary, outcomes);
    let body = put_body(alloc, details, summary, outcomes)?;
    reply(alloc, status, closing, &body)
}

/// The status of that reply.
pub fn put_status(details: bool, summary: bool, outcomes: &[Option<Vec<u8>>]) -> Status
    ensures { result ≡ put_status details summary (texts_of outcomes.now) }
{
    if failed(outcomes) > 0 {
        return Status::BadRequest;
    }
    if details {
        return Status::Ok;
    }
    if summary {
        return Status::Ok;
    }
    Status::NoContent
}

/// The body of that reply: each refused element with its place from 0, and how many were refused and stored.
///
/// Without `details` the elements are left out; without a flag it is an error, or empty where all were stored.
pub fn put_body(
    alloc: Global,
    details: bool,
    summary: bool,
    outcomes: &[Option<Vec<u8>>],
) -> Result<Vec<u8>, AllocError>
    ensures { IfOk result (λ body. body.items ≡ put_body details summary (texts_of outcomes.now)) }
{
    if details {
        return details_body(alloc, outcomes);
    }
    if summary {
        return summary_body(alloc, outcomes);
    }
    plain_body(alloc, outcomes)
}

fn details_body(alloc: Global, outcomes: &[Option<Vec<u8>>]) -> Result<Vec<u8>, AllocError>
    ensures { IfOk result (λ body. body.items ≡ details_body (texts_of outcomes.now)) }
{
    let mut body = Vec::from_slice(alloc, b"{\"errors\":[")?;
    write_errors(&mut body, outcomes)?;
    body.extend_from_slice(b"],")?;
    write_counts(&mut body, outcomes)?;
    Ok(body)
}

fn summary_body(alloc: Global, outcomes: &[Option<Vec<u8>>]) -> Result<Vec<u8>, AllocError>
    ensures { IfOk result (λ body. body.items ≡ summary_body (texts_of outcomes.now)) }
{
    let mut body = Vec::from_slice(alloc, b"{")?;
    write_counts(&mut body, outcomes)?;
    Ok(body)
}

fn plain_body(alloc: Global, outcomes: &[Option<Vec<u8>>]) -> Result<Vec<u8>, AllocError>
    ensures { IfOk result (λ body. body.items ≡ plain_body (texts_of outcomes.now)) }
{
    if failed(outcomes) == 0 {
        return Ok(Vec::new(alloc));
    }
    error_text(alloc, 400, b"One or more data points had errors")
}

/// How many elements were refused.
fn failed(outcomes: &[Option<Vec<u8>>]) -> usize
    ensures value { result ≡ failed (texts_of outcomes.now) }
    ensures most { result ≤ length outcomes.now }
{
    let mut count: usize = 0;
    for outcome in outcomes {
        if outcome.is_some() {
            count += 1;
        }
    }
    count
}

/// Appends how many were refused and stored, and the end of the body.
fn write_counts(body: &mut Vec<u8>, outcomes: &[Option<Vec<u8>>]) -> Result<(), AllocError>
    ensures { OnOk result (body.new.items ≡ body.old.items ++ counts_text (texts_of outcomes.now)) }
{
    let failed = failed(outcomes);
    body.extend_from_slice(b"\"failed\":")?;
    body.extend_from_slice(Buffer::new().format(failed).as_bytes())?;
    body.extend_from_slice(b",\"success\":")?;
    body.extend_from_slice(Buffer::new().format(outcomes.len() - failed).as_bytes())?;
    body.extend_from_slice(b"}")
}

/// Appends the objects of the refused elements, with commas between them.
fn write_errors(body: &mut Vec<u8>, outcomes: &[Option<Vec<u8>>]) -> Result<(), AllocError>
    ensures { OnOk result (body.new.items ≡ body.old.items ++ listed (map error_object (refused (texts_of outcomes.now)))) }
{
    let mut written: usize = 0;
    for (index, outcome) in outcomes.iter().enumerate() {
        match outcome {
            Some(text) => {
                write_comma(body, written)?;
                write_error(body, index, text.as_slice())?;
                written += 1;
            }
            None => {}
        }
    }
    Ok(())
}

fn write_error(body: &mut Vec<u8>, index: usize, text: &[u8]) -> Result<(), AllocError>
    ensures { OnOk result (body.new.items ≡ body.old.items ++ error_object (index, text.now)) }
{
    body.extend_from_slice(b"{\"error\":\"")?;
    body.extend_from_slice(text)?;
    body.extend_from_slice(b"\",\"index\":")?;
    body.extend_from_slice(Buffer::new().format(index).as_bytes())?;
    body.extend_from_slice(b"}")
}
