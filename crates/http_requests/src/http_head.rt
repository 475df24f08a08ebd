//! Reading the head of a request.
ghost use Rattle.std.specs.Prelude.{◌≡◌, ◌≤◌, ◌^◌, ◌-◌, min, nat_lt, map, length, Some, position, option_map, true, IfOk, All};
ghost use Rattle.httparse.specs.Grammar.{RequestHead};
ghost use Rattle.httparse.specs.Spans.{IsWithin, IsHeaderWithin, header_bytes};
ghost use Rattle.http_requests.specs.HttpHeads.{asked_of, verb_of, path_of, form_of, is_mark, refusal_by, are_digits, is_length, are_lengths, length_in, has_codings, closes};
ghost use Rattle.http_requests.specs.declared.http_call.TheConstants.{LONGEST_BODY, MOST_FIELDS};
ghost use Rattle.http_requests.specs.HeadReader.{head_of};
ghost use Rattle.http_requests.specs.HeadSpans.{Found, IsSpanned};

use crate::head_fields::{all_have, asks_close, has_field, value_of};
use crate::http_call::{LONGEST_BODY, MOST_FIELDS, Refusal, Verb};
use httparse::Status;
use httparse::spans::{EMPTY_HEADER_SPAN, HeaderSpan, RequestSpans, parse_request};
use short_bytes::short::Bytes;
use std::alloc::{AllocError, Global};
use tsd_base::digits::read_digits;

/// What a head asks, whose body may be still to come.
#[derive(Drop)]
pub struct Plan {
    pub verb: Verb,
    pub path: Bytes,
    pub form: Bytes,
    pub closing: bool,
    /// How many bytes its body has.
    pub len: usize,
}

/// Where the parts of a head stand that these bytes are as a whole, if they are one.
fn spans(bytes: &[u8], headers: &mut [HeaderSpan]) -> Option<RequestSpans>
    requires { length headers.old ≡ MOST_FIELDS }
    ensures { Found bytes.now headers.new result (head_of bytes.now) }
{
    match parse_request(bytes, headers) {
        Ok(Status::Complete(spans)) => {
            if spans.len == bytes.len() {
                Some(spans)
            } else {
                None
            }
        }
        Ok(Status::Partial) => None,
        Err(_) => None,
    }
}

/// What the head asks that these bytes are as a whole, or why it is refused.
#[tactic(auto, unfolding(crate::specs::HttpHeads::asked_of))]
pub fn read_head(alloc: Global, bytes: &[u8]) -> Result<Result<Plan, Refusal>, AllocError>
    ensures { IfOk result (λ asked. asked ≡ asked_of (head_of bytes.now)) }
{
    let mut headers = [EMPTY_HEADER_SPAN; MOST_FIELDS];
    let Some(spans) = spans(bytes, &mut headers) else {
        return Ok(Err(Refusal::BadHead));
    };
    read_spans(alloc, bytes, &headers[..spans.headers], &spans)
}

/// What a head asks whose parts stand there.
fn read_spans(
    alloc: Global,
    bytes: &[u8],
    headers: &[HeaderSpan],
    spans: &RequestSpans,
) -> Result<Result<Plan, Refusal>, AllocError>
    requires method { IsWithin (length bytes.now) spans.now.method }
    requires target { IsWithin (length bytes.now) spans.now.path }
    requires within { All (IsHeaderWithin (length bytes.now)) headers.now }
    ensures { (h : RequestHead) → IsSpanned bytes.now headers.now spans.now h → IfOk result (λ asked. asked ≡ asked_of (Some h)) }
{
    let verb = verb_of(spans.method.of(bytes));
    let text = value_of(bytes, headers, b"content-length");
    if let Some(refusal) = refusal(bytes, headers, verb, text) {
        return Ok(Err(refusal));
    }
    let (path, form) = parts(spans.path.of(bytes));
    let plan = Plan {
        verb,
        path: Bytes::of(alloc, path)?,
        form: Bytes::of(alloc, form)?,
        closing: closes(bytes, headers, spans.version),
        len: length_in(text) as usize,
    };
    Ok(Ok(plan))
}

/// Whether the connection closes behind the request.
fn closes(bytes: &[u8], headers: &[HeaderSpan], minor: u8) -> bool
    requires { All (IsHeaderWithin (length bytes.now)) headers.now }
    ensures { result ≡ closes minor (map (header_bytes bytes.now) headers.now) }
{
    minor == 0 || asks_close(bytes, headers)
}

fn verb_of(method: &[u8]) -> Verb
    ensures { result ≡ verb_of method.now }
{
    if method == b"GET".as_slice() {
        Verb::Get
    } else if method == b"POST".as_slice() {
        Verb::Post
    } else {
        Verb::Other
    }
}

/// The first cause for which a head is refused.
fn refusal(bytes: &[u8], headers: &[HeaderSpan], verb: Verb, text: Option<&[u8]>) -> Option<Refusal>
    requires { All (IsHeaderWithin (length bytes.now)) headers.now }
    ensures { result ≡ refusal_by verb (map (header_bytes bytes.now) headers.now) (option_map (λ t. t.now) text.entry) }
{
    if has_codings(bytes, headers) {
        return Some(Refusal::Codings);
    }
    if !are_lengths(bytes, headers, text) {
        return Some(Refusal::BadLength);
    }
    if verb == Verb::Post && text.is_none() {
        return Some(Refusal::NoLength);
    }
    if is_too_long(text) {
        return Some(Refusal::BodyTooLarge);
    }
    None
}

fn has_codings(bytes: &[u8], headers: &[HeaderSpan]) -> bool
    requires { All (IsHeaderWithin (length bytes.now)) headers.now }
    ensures { result ≡ has_codings (map (header_bytes bytes.now) headers.now) }
{
    has_field(bytes, headers, b"transfer-encoding")
        || has_field(bytes, headers, b"content-encoding")
}

/// Whether the lengths that are given are lengths, and the same text.
fn are_lengths(bytes: &[u8], headers: &[HeaderSpan], text: Option<&[u8]>) -> bool
    requires { All (IsHeaderWithin (length bytes.now)) headers.now }
    ensures { result ≡ are_lengths (option_map (λ t. t.now) text.entry) (map (header_bytes bytes.now) headers.now) }
{
    match text {
        None => true,
        Some(text) => is_length(text) && all_have(bytes, headers, b"content-length", text),
    }
}

/// Whether a text is 1 to 20 digits.
fn is_length(text: &[u8]) -> bool
    ensures { result ≡ is_length text.now }
{
    read_digits(text).is_some() && text.len() <= 20
}

/// The length that is given, at most the last `u64`; 0 where none is.
fn length_in(text: Option<&[u8]>) -> u64
    ensures { are_digits (option_map (λ t. t.now) text.entry) ≡ true → result ≡ min (length_in (option_map (λ t. t.now) text.entry)) (2 ^ 64 - 1) }
{
    match text {
        None => 0,
        Some(text) => read_digits(text).unwrap_or(0),
    }
}

fn is_too_long(text: Option<&[u8]>) -> bool
    ensures { are_digits (option_map (λ t. t.now) text.entry) ≡ true → result ≡ nat_lt LONGEST_BODY (length_in (option_map (λ t. t.now) text.entry)) }
{
    length_in(text) > LONGEST_BODY
}

/// What stands before the first `?` of a target, and what stands behind it.
fn parts(target: &[u8]) -> (&[u8], &[u8])
    ensures path { result.0.now ≡ path_of target.now }
    ensures form { result.1.now ≡ form_of target.now }
{
    match mark_place(target) {
        Some(at) => (&target[..at], &target[at + 1..]),
        None => (target, &[]),
    }
}

/// The place of the first `?`.
fn mark_place(target: &[u8]) -> Option<usize>
    ensures { result ≡ position is_mark target.now }
{
    target.iter().position(|b| *b == b'?')
}
