//! A source and a sink in memory, whose cuts and failures are chosen beforehand.
ghost use Rattle.std.specs.Prelude.{◌≡◌, ◌≤◌, ◌<◌, ◌+◌, ◌↔◌, ◌⊎◌, length, min, drop, Some, [], IsOk, IsErr, IfOk, MatchResult, Contains};
ghost use Rattle.std.specs.Io.{ReadsAtMost, WritesAtMost};
ghost use Rattle.std.specs.Io.KnownBytes.{WriteAppends, ReadConsumes};
ghost use Rattle.std.specs.Vec.Iter.{into_iter_items};
ghost use Rattle.tsd_io.specs.Causes.{HasCause};
ghost use Rattle.tsd_io.specs.Memory.{one_more, faults_after, cut_count, cuts_after};
ghost use Rattle.tsd_io.specs.Takes.{TellsLast};

use crate::ports::{Failed, Sink, Source};
use std::alloc::{AllocError, Global};
use std::marker::Model;
use std::vec::IntoIter;

/// A source of bytes in memory.
///
/// The calls whose numbers are on its list fail, and with an empty list none does.
#[derive(Drop)]
pub struct MemSource {
    bytes: Vec<u8>,
    at: usize,
    last_at: usize,
    cuts: IntoIter<usize>,
    failing: Vec<u64>,
    calls: u64,
    faults: u64,
    number: u64,
}

impl Model for MemSource {
    ghost use Rattle.std.specs.Prelude.{◌≤◌, take, drop, length};
    ghost use Rattle.std.specs.Vec.Iter.{into_iter_items};
    ghost use Rattle.tsd_io.specs.Memory.{SourceInMemory};

    ghost Value = { SourceInMemory };

    ghost view = { λ s. record {
      taken = take s.at s.bytes.items;
      left = drop s.at s.bytes.items;
      last = drop s.last_at (take s.at s.bytes.items);
      cuts = into_iter_items s.cuts;
      failing = s.failing.items;
      calls = s.calls;
      faults = s.faults;
      number = s.number;
    } };

    ghost invariant = { λ s. (s.last_at ≤ s.at) × (s.at ≤ length s.bytes.items) };
}

impl MemSource {
    /// A source of these bytes.
    ///
    /// A cut, from 1, bounds the bytes of one take, in order: each take of one byte or more uses up a cut. After the
    /// last cut nothing bounds them, and a cut of 0 doesn't either. `failing` has the numbers, from 1, of the calls
    /// that fail.
    pub fn make(bytes: Vec<u8>, cuts: Vec<usize>, failing: Vec<u64>) -> MemSource
        ensures { result ≡ record {
          taken = [];
          left = bytes.items;
          last = [];
          cuts = cuts.items;
          failing = failing.items;
          calls = 0;
          faults = 0;
          number = 0;
        } }
    {
        MemSource {
            bytes,
            at: 0,
            last_at: 0,
            cuts: cuts.into_iter(),
            failing,
            calls: 0,
            faults: 0,
            number: 0,
        }
    }

    /// The bytes that are left.
    pub fn left(&self) -> &[u8]
        ensures { result.now ≡ self.now.left }
    {
        &self.bytes[self.at..]
    }
}

impl Source for MemSource {
    ghost taken = { λ s. Some s.taken };

    ghost left = { λ s. Some s.left };

    ghost last = { λ s. Some s.last };

    ghost faults = { λ s. s.faults };

    ghost number = { λ s. s.number };

    fn take(&mut self, into: &mut [u8]) -> Result<usize, Failed>
        // As of each source.
        ensures bound { ReadsAtMost result into.new }
        ensures taken { WriteAppends (Some self.old.taken) (Some self.new.taken) result into.new }
        ensures left { ReadConsumes (Some self.old.left) (Some self.new.left) result into.new }
        ensures last { TellsLast (Some self.old.last) (Some self.new.last) result into.new }
        ensures cause { HasCause self.old.faults self.new.faults result }
        ensures number { self.new.number ≡ self.old.number }

        // The calls on the list fail, and no others.
        ensures calls { self.new.calls ≡ one_more self.old.calls }
        ensures failing { self.new.failing ≡ self.old.failing }
        ensures fails { IsErr result ↔ Contains self.old.failing self.new.calls }
        ensures never { self.old.failing ≡ [] → IsOk result }
        ensures faults { self.new.faults ≡ faults_after self.old.faults result }

        // As many bytes as there are and there is room for, within the cut.
        ensures count { IfOk result
            (λ n. n ≡ cut_count self.old.cuts (min (length into.old) (length self.old.left))) }
        ensures cuts { self.new.cuts ≡ cuts_after self.old.cuts result }
    {
        self.calls = self.calls.saturating_add(1);
        self.last_at = self.at;
        if self.failing.contains(&self.calls) {
            self.faults = self.faults.saturating_add(1);
            return Err(Failed);
        }
        let most = into.len().min(self.bytes.len() - self.at);
        if most == 0 {
            return Ok(0);
        }
        let count = next_count(&mut self.cuts, most);
        let end = self.at + count;
        into[..count].copy_from_slice(&self.bytes[self.at..end]);
        self.at = end;
        Ok(count)
    }
}

/// What the next cut leaves of `most` bytes.
fn next_count(cuts: &mut IntoIter<usize>, most: usize) -> usize
    requires { 0 < most }
    ensures within { result ≤ most }
    ensures some { 0 < result }
    ensures count { result ≡ cut_count (into_iter_items cuts.old) most }
    ensures cuts { into_iter_items cuts.new ≡ drop 1 (into_iter_items cuts.old) }
{
    match cuts.next() {
        Some(cut) if cut != 0 => most.min(cut),
        _ => most,
    }
}

/// A sink that keeps the bytes in memory.
///
/// The calls whose numbers are on its list fail. Once its room is used up, each piece that isn't empty fails.
#[derive(Drop)]
pub struct MemSink {
    bytes: Vec<u8>,
    room: usize,
    failing: Vec<u64>,
    calls: u64,
    faults: u64,
    number: u64,
}

impl Model for MemSink {
    ghost use Rattle.std.specs.Prelude.{◌≤◌, ◌+◌, vec_len, vec_capacity};
    ghost use Rattle.tsd_io.specs.Memory.{SinkInMemory};

    ghost Value = { SinkInMemory };

    ghost view = { λ s. record {
      held = s.bytes.items;
      room = s.room;
      failing = s.failing.items;
      calls = s.calls;
      faults = s.faults;
      number = s.number;
    } };

    ghost invariant = { λ s. vec_len s.bytes + s.room ≤ vec_capacity s.bytes };
}

impl MemSink {
    /// An empty sink with room for so many bytes, whose memory it takes here.
    ///
    /// `failing` has the numbers, from 1, of the calls that fail.
    pub fn make(alloc: Global, room: usize, failing: Vec<u64>) -> Result<MemSink, AllocError>
        ensures { IfOk result (λ sink. sink ≡ record {
          held = [];
          room = room;
          failing = failing.items;
          calls = 0;
          faults = 0;
          number = 0;
        }) }
    {
        Ok(MemSink {
            bytes: Vec::with_capacity(alloc, room)?,
            room,
            failing,
            calls: 0,
            faults: 0,
            number: 0,
        })
    }

    /// The bytes that were given.
    pub fn held(&self) -> &[u8]
        ensures { result.now ≡ self.now.held }
    {
        self.bytes.as_slice()
    }
}

impl Sink for MemSink {
    ghost held = { λ s. Some s.held };

    ghost faults = { λ s. s.faults };

    ghost number = { λ s. s.number };

    fn give(&mut self, piece: &[u8]) -> Result<usize, Failed>
        // As of each sink.
        ensures bound { WritesAtMost result piece.now }
        ensures some { IfOk result (λ n. 0 < length piece.now → 0 < n) }
        ensures held { WriteAppends (Some self.old.held) (Some self.new.held) result piece.now }
        ensures cause { HasCause self.old.faults self.new.faults result }
        ensures number { self.new.number ≡ self.old.number }

        // The calls on the list fail, and those that find no room for a piece that isn't empty.
        ensures calls { self.new.calls ≡ one_more self.old.calls }
        ensures failing { self.new.failing ≡ self.old.failing }
        ensures fails { IsErr result ↔ (Contains self.old.failing self.new.calls
            ⊎ ((0 < length piece.now) × (self.old.room ≡ 0))) }
        ensures never { self.old.failing ≡ [] → 0 < self.old.room → IsOk result }
        ensures faults { self.new.faults ≡ faults_after self.old.faults result }

        // As much of the piece as there is room for.
        ensures count { IfOk result (λ n. n ≡ min (length piece.now) self.old.room) }
        ensures room { MatchResult result (λ n. self.new.room + n ≡ self.old.room)
            (λ _. self.new.room ≡ self.old.room) }
    {
        self.calls = self.calls.saturating_add(1);
        let count = piece.len().min(self.room);
        if self.failing.contains(&self.calls) || count == 0 && !piece.is_empty() {
            self.faults = self.faults.saturating_add(1);
            return Err(Failed);
        }
        self.bytes.extend_from_slice(&piece[..count]).unwrap();
        self.room -= count;
        Ok(count)
    }
}
