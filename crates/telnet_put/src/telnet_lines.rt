//! Bytes that come in pieces, and the requests of their lines.
ghost use Rattle.std.specs.Prelude.{◌≡◌, ℕ, ◌+◌, ◌≤◌, false, List, ◌++◌, length, MatchOption, OnErr, OnOk};
ghost use Rattle.line_stream.specs.declared.line.TheConstants.{LONGEST_LINE};
ghost use Rattle.line_stream.specs.Lines.{has_line_end};
ghost use Rattle.telnet_put.specs.Requests.{Request, closes, requests_of};
ghost use Rattle.telnet_put.specs.Sessions.{FindsNext, Gives, HasNext, IsNext, Waits, to_come};
ghost use Rattle.telnet_put.specs.TelnetCommands.{request_of};

use crate::telnet_command::Command;
use crate::telnet_text::{asks, read_command};
use line_stream::buffer::LineBuffer;
use line_stream::line::LONGEST_LINE;
use std::alloc::{AllocError, Global};
use std::marker::Model;

/// Takes the bytes of a telnet session in pieces, and gives its requests one after the other. Contracts tell which
/// requests are to come, whatever more bytes come.
///
/// All work is linear in the bytes: each is searched for its LF once, and none is moved for each line. Where none was
/// found, at most 8,193 bytes are kept, but for those behind a request that closed the session.
#[derive(Drop)]
pub struct Lines {
    buffer: LineBuffer,
    closed: bool,
}

impl Model for Lines {
    ghost use Rattle.telnet_put.specs.Unread.{Unread};

    ghost Value = { Unread };

    ghost view = { λ l. record { bytes = l.buffer; closed = l.closed } };
}

impl Lines {
    /// No bytes came yet: all requests are to come.
    pub fn make(alloc: Global) -> Lines
        ensures { (more : List ℕ) → to_come result more ≡ requests_of more }
    {
        Lines {
            buffer: LineBuffer::make(alloc),
            closed: false,
        }
    }

    /// Takes the next piece. It fails only for want of memory, and then nothing is changed.
    pub fn feed(&mut self, piece: &[u8]) -> Result<(), AllocError>
        ensures ok { OnOk result ((more : List ℕ) → to_come self.new more ≡ to_come self.old (piece.now ++ more)) }
        ensures err { OnErr result (self.new ≡ self.old) }
    {
        self.buffer.feed(piece)
    }

    /// Finds the next request, of which nothing is used up, and answers where its line ends. None where no further whole line that
    /// isn't blank has come, or where an earlier request closed the session.
    pub fn find(&mut self) -> Option<usize>
        ensures { MatchOption result (Waits self.old self.new) (FindsNext self.old self.new) }
    {
        while !self.closed {
            let Some(end) = self.buffer.line_end() else {
                shorten(&mut self.buffer);
                return None;
            };
            if asks(&self.buffer.bytes()[..end]) {
                return Some(end);
            }
            self.buffer.skip(end + 1);
        }
        None
    }

    /// The request that was found, whose line ends here.
    pub fn command(&self, end: usize) -> Command<'_>
        requires { HasNext self.now end }
        ensures { IsNext self.now end (request_of result) }
    {
        read_command(&self.buffer.bytes()[..end])
    }

    /// Uses up the request that was found, whose line ends here. Where it closes, no request comes behind it.
    pub fn skip(&mut self, end: usize, closing: bool)
        requires { HasNext self.old end }
        ensures { (request : Request) → IsNext self.old end request → closing ≡ closes request → Gives self.old request self.new }
    {
        // For the proof: the bytes are so few that they have a length.
        let _ = self.buffer.bytes().len();
        self.buffer.skip(end + 1);
        self.closed = closing;
    }
}

/// Of the front of a line that is too long, keeps no more bytes than tell so.
fn shorten(buffer: &mut LineBuffer)
    requires { has_line_end buffer.old ≡ false }
    ensures same { (more : List ℕ) → requests_of (buffer.new ++ more) ≡ requests_of (buffer.old ++ more) }
    ensures few { length buffer.new ≤ LONGEST_LINE + 1 }
{
    let len = buffer.bytes().len();
    if len > LONGEST_LINE {
        buffer.skip(len - LONGEST_LINE - 1);
    }
}
