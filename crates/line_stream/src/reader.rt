//! The lines of a source, one after the other, to its end.
ghost use Rattle.std.specs.Prelude.{◌≡◌, ◌+◌, ◌^◌, ◌<◌, ◌≤◌, length, Err, IfOk, MatchBool};
ghost use Rattle.tsd_io.specs.Causes.{Rose};
ghost use Rattle.line_stream.specs.Reads.{Feeds, FirstLine, NextLineIs, SkipsLast, SkipsLine, SkipsWhole, TakesPiece, front, line_to, no_bytes, without_line};
ghost use Rattle.line_stream.specs.declared.reader.InputFault.TheVariants as fault;

use crate::buffer::LineBuffer;
use std::alloc::{AllocError, Global};
use std::marker::Model;
use tsd_io::ports::{Failed, Source};

/// The most bytes of one input.
pub const LONGEST_INPUT: u64 = 1 << 40;

/// How many bytes are taken at once at most.
const PIECE: usize = 65_536;

/// What stands next in an input.
#[derive(Clone, Copy, Debug, PartialEq, Eq)]
pub enum NextLine {
    /// A line that an LF ends, behind so many bytes.
    Whole { end: usize },
    /// The input has ended, and the last line is all that was left. Where the input is empty or its last byte is an LF,
    /// this line has no bytes.
    Last,
    /// A line of more bytes than the longest has, which may not have come whole.
    TooLong,
}

/// Why there is no next line.
#[derive(Clone, Copy, Debug, PartialEq, Eq)]
pub enum InputFault {
    /// The source failed.
    Failed,
    /// 2^40 bytes came without their end.
    Full,
    /// There was no memory.
    OutOfMemory,
}

impl From<AllocError> for InputFault {
    ghost from_gives = { λ _ e. e ≡ fault.OutOfMemory };

    fn from(_e: AllocError) -> InputFault {
        InputFault::OutOfMemory
    }
}

impl From<Failed> for InputFault {
    ghost from_gives = { λ _ e. e ≡ fault.Failed };

    fn from(_e: Failed) -> InputFault {
        InputFault::Failed
    }
}

/// Takes the bytes of a source and finds their lines. Contracts see it as a `Reading`.
#[derive(Drop)]
pub struct LineReader {
    buffer: LineBuffer,
    piece: Vec<u8>,
    lines: u64,
    taken: u64,
    longest: usize,
}

impl Model for LineReader {
    ghost use Rattle.std.specs.Prelude.{◌≡◌, ◌+◌, ◌^◌, ◌≤◌, length};
    ghost use Rattle.line_stream.specs.LineReadings.{Reading};

    ghost Value = { Reading };

    ghost view = { λ r. record { longest = r.longest; bytes = r.buffer; lines = r.lines; taken = r.taken } };

    ghost invariant = { λ r. record {
      piece : length r.piece.items ≡ 65536;
      lines : r.lines + length r.buffer ≤ r.taken;
      taken : r.taken ≤ 2 ^ 40;
    } };
}

impl LineReader {
    /// Nothing was taken. The longest line has so many bytes, without its LF and with its CR.
    pub fn make(alloc: Global, longest: usize) -> Result<LineReader, AllocError>
        ensures { IfOk result (λ reader. reader ≡ no_bytes longest) }
    {
        Ok(LineReader {
            buffer: LineBuffer::make(alloc),
            piece: vec![in alloc; 0u8; PIECE]?,
            lines: 0,
            taken: 0,
            longest,
        })
    }

    /// The bytes that were taken and aren't used up.
    pub fn bytes(&self) -> &[u8]
        ensures { result.now ≡ self.now.bytes }
    {
        self.buffer.bytes()
    }

    /// The number of the next line, from 1.
    pub fn number(&self) -> u64
        ensures { result ≡ self.now.lines + 1 }
    {
        self.lines + 1
    }

    /// What stands next, for which bytes of the source are taken where they are needed. Nothing is used up.
    ///
    /// Where there is no memory for a piece that was taken, that piece alone is lost.
    pub fn next_line<S: Source>(&mut self, source: &mut S) -> Result<NextLine, InputFault>
        ensures next { NextLineIs (S.taken source.old) (S.taken source.new) (S.left source.old) (S.left source.new) self.old result self.new }
        ensures later { S.faults source.old ≤ S.faults source.new }
        ensures failed { result ≡ Err InputFault.Failed → Rose (S.faults source.old) (S.faults source.new) }
    {
        loop {
            if let Some(line) = self.first_line() {
                return Ok(line);
            }
            if self.taken == LONGEST_INPUT {
                return Err(InputFault::Full);
            }
            if self.take_piece(source)? == 0 {
                return Ok(NextLine::Last);
            }
        }
    }

    /// Uses up a line that an LF ends behind so many bytes.
    pub fn skip_line(&mut self, end: usize)
        requires { end < length self.old.bytes }
        ensures { self.new ≡ without_line self.old end }
    {
        self.buffer.skip(end + 1);
        self.lines += 1;
    }

    /// Uses up a line whatever its length, for which bytes of the source are taken to its LF, or to the input's end. The answer is
    /// whether an LF ended it. It is for a line that is too long: no more of it is kept than a piece.
    pub fn skip_to_end<S: Source>(&mut self, source: &mut S) -> Result<bool, InputFault>
        ensures skips { SkipsLine (S.taken source.old) (S.taken source.new) (S.left source.old) (S.left source.new) self.old result self.new }
        ensures later { S.faults source.old ≤ S.faults source.new }
        ensures failed { result ≡ Err InputFault.Failed → Rose (S.faults source.old) (S.faults source.new) }
    {
        loop {
            if self.skip_within() {
                return Ok(true);
            }
            if self.taken == LONGEST_INPUT {
                return Err(InputFault::Full);
            }
            if self.take_piece(source)? == 0 {
                return Ok(false);
            }
        }
    }

    /// Uses up the first line, if its LF has come; else all bytes, which are of one line. The answer is whether its LF had come.
    fn skip_within(&mut self) -> bool
        ensures skips { MatchBool result (SkipsWhole self.old self.new) (SkipsLast self.old self.new) }
        ensures most { self.new.taken ≤ 2 ^ 40 }
    {
        match self.buffer.line_end() {
            Some(end) => {
                self.skip_line(end);
                true
            }
            None => {
                let count = self.buffer.bytes().len();
                self.buffer.skip(count);
                false
            }
        }
    }

    /// The line with which the bytes begin. None where they may be the front of one.
    fn first_line(&mut self) -> Option<NextLine>
        ensures same { self.new ≡ self.old }
        ensures line { FirstLine self.old.longest self.old.bytes result }
        ensures most { self.new.taken ≤ 2 ^ 40 }
    {
        match self.buffer.line_end() {
            Some(end) => Some(line_to(self.longest, end)),
            None => front(self.longest, self.buffer.bytes()),
        }
    }

    /// Takes a piece of the source, and answers how many bytes. None is the source's end.
    fn take_piece<S: Source>(&mut self, source: &mut S) -> Result<usize, InputFault>
        requires { self.old.taken < 2 ^ 40 }
        ensures takes { TakesPiece (S.taken source.old) (S.taken source.new) (S.left source.old) (S.left source.new) self.old result self.new }
        ensures later { S.faults source.old ≤ S.faults source.new }
        ensures failed { result ≡ Err InputFault.Failed → Rose (S.faults source.old) (S.faults source.new) }
    {
        let room = (LONGEST_INPUT - self.taken).min(PIECE as u64) as usize;
        let count = take_within(source, &mut self.piece, room, &mut self.buffer)?;
        self.taken += count as u64;
        Ok(count)
    }
}

/// A line that an LF ends behind so many bytes.
fn line_to(longest: usize, end: usize) -> NextLine
    ensures { result ≡ line_to longest end }
{
    if end > longest {
        NextLine::TooLong
    } else {
        NextLine::Whole { end }
    }
}

/// What bytes without LF are known to begin.
fn front(longest: usize, bytes: &[u8]) -> Option<NextLine>
    ensures { result ≡ front longest bytes.now }
{
    if bytes.len() > longest {
        Some(NextLine::TooLong)
    } else {
        None
    }
}

/// Takes at most `room` bytes of a source into a block, and feeds them to a buffer, as `take_into` does.
fn take_within<S: Source>(
    source: &mut S,
    block: &mut Vec<u8>,
    room: usize,
    buffer: &mut LineBuffer,
) -> Result<usize, InputFault>
    requires some { 0 < room }
    requires within { room ≤ length block.old.items }
    ensures size { length block.new.items ≡ length block.old.items }
    ensures feeds { Feeds (S.taken source.old) (S.taken source.new) (S.left source.old) (S.left source.new) buffer.old room result buffer.new }
    ensures later { S.faults source.old ≤ S.faults source.new }
    ensures failed { result ≡ Err InputFault.Failed → Rose (S.faults source.old) (S.faults source.new) }
{
    take_into(source, &mut block[..room], buffer)
}

/// Takes bytes of a source into a block, and feeds them to a buffer. The answer is how many; none is the source's end.
fn take_into<S: Source>(
    source: &mut S,
    block: &mut [u8],
    buffer: &mut LineBuffer,
) -> Result<usize, InputFault>
    requires { 0 < length block.old }
    ensures feeds { Feeds (S.taken source.old) (S.taken source.new) (S.left source.old) (S.left source.new) buffer.old (length block.old) result buffer.new }
    ensures later { S.faults source.old ≤ S.faults source.new }
    ensures failed { result ≡ Err InputFault.Failed → Rose (S.faults source.old) (S.faults source.new) }
{
    let count = source.take(block)?;
    buffer.feed(&block[..count])?;
    Ok(count)
}
