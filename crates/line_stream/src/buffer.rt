//! The bytes of a stream that came and aren't used up.
ghost use Rattle.std.specs.Prelude.{◌≡◌, ◌-◌, ◌≤◌, [], ◌++◌, length, take, drop, OnOk, OnErr};
ghost use Rattle.line_stream.specs.Lines.{EndsLine};

use memchr::memchr;
use std::alloc::{AllocError, Global};
use std::marker::Model;

/// The most memory in bytes that a buffer keeps once all its bytes are used up.
const MOST_KEPT: usize = 1 << 20;

/// Bytes that are fed piece by piece and used up line by line. Contracts see those that aren't used up.
///
/// All work is linear in the bytes: each is searched for its LF once, and bytes are moved to the front only once as many
/// were used up. What is kept is at most twice what isn't used up, and a piece. Where all is used up, more than 1 MiB is given back.
#[derive(Drop)]
pub struct LineBuffer {
    block: Vec<u8>,
    start: usize,
    searched: usize,
}

impl Model for LineBuffer {
    ghost use Rattle.std.specs.Prelude.{List, ℕ, drop};
    ghost use Rattle.line_stream.specs.Searched.{IsSearched};

    ghost Value = { List ℕ };

    ghost view = { λ b. drop b.start b.block.items };

    ghost invariant = { λ b. IsSearched b.block.items b.start b.searched };
}

impl LineBuffer {
    /// An empty buffer.
    pub fn make(alloc: Global) -> LineBuffer
        ensures { result ≡ [] }
    {
        LineBuffer {
            block: Vec::new(alloc),
            start: 0,
            searched: 0,
        }
    }

    /// The bytes.
    pub fn bytes(&self) -> &[u8]
        ensures { result.now ≡ self.now }
    {
        &self.block[self.start..]
    }

    /// Adds a piece behind the bytes. It fails only for want of memory, and then nothing is added.
    pub fn feed(&mut self, piece: &[u8]) -> Result<(), AllocError>
        ensures ok { OnOk result (self.new ≡ self.old ++ piece.now) }
        ensures err { OnErr result (self.new ≡ self.old) }
    {
        self.make_room();
        self.block.extend_from_slice(piece)?;
        Ok(())
    }

    /// Drops what was used up, where it is as much as what is left.
    fn make_room(&mut self)
        ensures { self.new ≡ self.old }
    {
        if self.start >= self.block.len() - self.start {
            drop_front(&mut self.block, self.start);
            self.searched -= self.start;
            self.start = 0;
        }
    }

    /// How many bytes stand before the first LF. None where there is no LF.
    pub fn line_end(&mut self) -> Option<usize>
        ensures same { self.new ≡ self.old }
        ensures end { EndsLine result self.old }
    {
        match memchr(b'\n', &self.block[self.searched..]) {
            Some(at) => {
                self.searched += at;
                Some(self.searched - self.start)
            }
            None => {
                self.searched = self.block.len();
                None
            }
        }
    }

    /// Uses up the first `count` bytes.
    pub fn skip(&mut self, count: usize)
        requires { count ≤ length self.old }
        ensures { self.new ≡ drop count self.old }
    {
        self.go_on(count);
        if self.bytes().is_empty() && self.block.capacity() > MOST_KEPT {
            self.give_back();
        }
    }

    /// Goes on behind the first `count` bytes.
    fn go_on(&mut self, count: usize)
        requires { count ≤ length self.old }
        ensures { self.new ≡ drop count self.old }
    {
        self.start += count;
        self.searched = self.searched.max(self.start);
    }

    /// Gives the memory back, where all bytes are used up.
    fn give_back(&mut self)
        requires { self.old ≡ [] }
        ensures { self.new ≡ [] }
    {
        self.block.truncate(0);
        self.block.shrink_to_fit();
        self.start = 0;
        self.searched = 0;
    }
}

/// Drops the first `count` bytes.
fn drop_front(block: &mut Vec<u8>, count: usize)
    requires { count ≤ length block.old.items }
    ensures { block.new.items ≡ drop count block.old.items }
{
    let end = block.len();
    move_to_front(block, count);
    block.truncate(end - count);
}

/// Moves the bytes from `start` on to the front.
fn move_to_front(block: &mut [u8], start: usize)
    requires { start ≤ length block.old }
    ensures { take (length block.old - start) block.new ≡ drop start block.old }
{
    block.copy_within(start.., 0);
}
