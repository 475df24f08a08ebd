//! Bytes that come in pieces, and the requests of an HTTP connection that they are.
ghost use Rattle.std.specs.Prelude.{◌≡◌, ℕ, ◌+◌, ◌≤◌, List, ◌++◌, length, drop, false, Some, IfOk, OnOk, OnErr};
ghost use Rattle.http_requests.specs.HeadEnds.{head_end, IsSearched};
ghost use Rattle.http_requests.specs.AwaitedBodies.{Decides, IsWaiting, TakesBody};
ghost use Rattle.http_requests.specs.HttpRequests.{requests_of, refused, call_of};
ghost use Rattle.http_requests.specs.HttpSessions.{to_come, ComesAs, Turns};

use crate::head_search::find_end;
use crate::http_call::{Call, LONGEST_HEAD, Refusal, Verb};
use crate::http_head::{Plan, read_head};
use line_stream::buffer::LineBuffer;
use short_bytes::short::Bytes;
use std::alloc::{AllocError, Global};
use std::marker::Model;

/// A request whose body hasn't come, and where its head ends.
#[derive(Drop)]
struct Waiting {
    plan: Plan,
    from: usize,
}

/// Takes the bytes of an HTTP connection in pieces, and gives its requests one after the other. Contracts tell which
/// requests are to come, whatever more bytes come.
///
/// A head ends at its first empty line behind a line that isn't empty; a line ends with an LF, and one CR before it
/// doesn't count. A head has at most 16,384 bytes and 64 fields.
///
/// All work is linear in the bytes: each is looked at once for the end of a head, a head is read once, to wait for a body
/// costs one comparison a turn, and a body is copied once. Bytes that are used up are dropped once they are as many as the
/// others.
#[derive(Drop)]
pub struct Exchange {
    buffer: LineBuffer,
    // Up to where the end of the next head was looked for, and whether a line that isn't empty has begun before.
    at: usize,
    begun: bool,
    waiting: Option<Waiting>,
    closed: bool,
}

impl Model for Exchange {
    ghost use Rattle.http_requests.specs.HeadEnds.{IsSearched};
    ghost use Rattle.http_requests.specs.AwaitedBodies.{Knows};
    ghost use Rattle.http_requests.specs.HttpUnread.{Unread};

    ghost Value = { Unread };

    ghost view = { λ e. record { bytes = e.buffer; closed = e.closed } };

    ghost invariant = { λ e. IsSearched e.buffer e.at e.begun × Knows e.buffer e.waiting };
}

/// The call of a refusal.
fn refused(refusal: Refusal) -> Call
    ensures { result ≡ refused refusal }
{
    Call {
        verb: Verb::Other,
        path: Bytes::none(),
        form: Bytes::none(),
        body: Bytes::none(),
        refused: Some(refusal),
        closing: true,
    }
}

/// The call of a plan with its body.
fn call_of(plan: Plan, body: Bytes) -> Call
    ensures { result ≡ call_of plan body }
{
    Call {
        verb: plan.verb,
        path: plan.path,
        form: plan.form,
        body,
        refused: None,
        closing: plan.closing,
    }
}

/// Looks for a head from a place on, and reads it where it has come whole.
fn find_head(
    alloc: Global,
    bytes: &[u8],
    at: &mut usize,
    begun: &mut bool,
) -> Result<Option<Result<Waiting, Refusal>>, AllocError>
    requires { IsSearched bytes.now at.old begun.old }
    ensures found { IfOk result (Decides bytes.now) }
    ensures searched { IsSearched bytes.now at.new begun.new }
{
    match find_end(bytes, at, begun) {
        Some(end) => read_to(alloc, bytes, end),
        None if bytes.len() >= LONGEST_HEAD => Ok(Some(Err(Refusal::HeadTooLarge))),
        None => Ok(None),
    }
}

/// Reads the head that ends here.
fn read_to(
    alloc: Global,
    bytes: &[u8],
    end: usize,
) -> Result<Option<Result<Waiting, Refusal>>, AllocError>
    requires within { end ≤ length bytes.now }
    requires end { (more : List ℕ) → head_end (bytes.now ++ more) ≡ Some end }
    ensures { IfOk result (Decides bytes.now) }
{
    if end > LONGEST_HEAD {
        return Ok(Some(Err(Refusal::HeadTooLarge)));
    }
    match read_head(alloc, &bytes[..end])? {
        Ok(plan) => Ok(Some(Ok(Waiting { plan, from: end }))),
        Err(refusal) => Ok(Some(Err(refusal))),
    }
}

/// The body of the request that waits, where it has come whole.
fn take_body(alloc: Global, bytes: &[u8], waiting: &Waiting) -> Result<Option<Bytes>, AllocError>
    requires { IsWaiting bytes.now waiting.now }
    ensures { IfOk result (TakesBody bytes.now waiting.now) }
{
    let body = &bytes[waiting.from..];
    if body.len() < waiting.plan.len {
        return Ok(None);
    }
    Ok(Some(Bytes::of(alloc, &body[..waiting.plan.len])?))
}

impl Exchange {
    /// No bytes came yet: all requests are to come.
    pub fn make(alloc: Global) -> Exchange
        ensures { (more : List ℕ) → to_come result more ≡ requests_of more }
    {
        Exchange {
            buffer: LineBuffer::make(alloc),
            at: 0,
            begun: false,
            waiting: None,
            closed: false,
        }
    }

    /// Takes the next piece. It fails only for want of memory, and then nothing is changed.
    pub fn feed(&mut self, piece: &[u8]) -> Result<(), AllocError>
        ensures ok { OnOk result ((more : List ℕ) → to_come self.new more ≡ to_come self.old (piece.now ++ more)) }
        ensures err { OnErr result (self.new ≡ self.old) }
    {
        self.buffer.feed(piece)?;
        Ok(())
    }

    /// The next request, with its body or refused. None where the bytes that came hold no further whole request and no
    /// refusal, or where an earlier request closed the connection. It fails only for want of memory, and then the request
    /// is still to come.
    pub fn turn(&mut self, alloc: Global) -> Result<Option<Call>, AllocError>
        ensures ok { IfOk result (λ call. Turns self.old call self.new) }
        ensures err { OnErr result (ComesAs self.old self.new) }
    {
        if self.closed {
            return Ok(None);
        }
        match self.waiting.take() {
            Some(waiting) => self.take_call(alloc, waiting),
            None => self.find_call(alloc),
        }
    }

    /// The next request, of which no head was read.
    fn find_call(&mut self, alloc: Global) -> Result<Option<Call>, AllocError>
        requires { self.old.closed ≡ false }
        ensures ok { IfOk result (λ call. Turns self.old call self.new) }
        ensures err { OnErr result (ComesAs self.old self.new) }
    {
        match find_head(alloc, self.buffer.bytes(), &mut self.at, &mut self.begun)? {
            None => Ok(None),
            Some(Err(refusal)) => {
                self.closed = true;
                Ok(Some(refused(refusal)))
            }
            Some(Ok(waiting)) => self.take_call(alloc, waiting),
        }
    }

    /// The request that waits, where its body has come.
    fn take_call(&mut self, alloc: Global, waiting: Waiting) -> Result<Option<Call>, AllocError>
        requires open { self.old.closed ≡ false }
        requires waits { IsWaiting self.old.bytes waiting }
        ensures ok { IfOk result (λ call. Turns self.old call self.new) }
        ensures err { OnErr result (ComesAs self.old self.new) }
    {
        match take_body(alloc, self.buffer.bytes(), &waiting) {
            Err(fault) => {
                self.keep(waiting);
                Err(fault)
            }
            Ok(None) => {
                self.keep(waiting);
                Ok(None)
            }
            Ok(Some(body)) => {
                self.pass(waiting.from + waiting.plan.len, waiting.plan.closing);
                Ok(Some(call_of(waiting.plan, body)))
            }
        }
    }

    /// Lets a request wait for its body.
    fn keep(&mut self, waiting: Waiting)
        requires { IsWaiting self.old.bytes waiting }
        ensures { self.new ≡ self.old }
    {
        self.waiting = Some(waiting);
    }

    /// Goes behind a request, of which nothing waits.
    fn pass(&mut self, used: usize, closed: bool)
        requires { used ≤ length self.old.bytes }
        ensures { self.new ≡ record { bytes = drop used self.old.bytes; closed = closed } }
    {
        self.buffer.skip(used);
        self.at = 0;
        self.begun = false;
        self.waiting = None;
        self.closed = closed;
    }
}
