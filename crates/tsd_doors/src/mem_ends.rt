//! The two ends of a connection in memory: a source and a sink with the connection's number.
ghost use Rattle.std.specs.Prelude.{◌≡◌, ◌<◌, ◌+◌, ◌↔◌, ◌⊎◌, length, min, Some, [], IsOk, IsErr, IfOk, MatchResult, Contains};
ghost use Rattle.std.specs.Io.{ReadsAtMost, WritesAtMost};
ghost use Rattle.std.specs.Io.KnownBytes.{WriteAppends, ReadConsumes};
ghost use Rattle.tsd_io.specs.Causes.{HasCause};
ghost use Rattle.tsd_io.specs.Memory.{one_more, faults_after, cut_count, cuts_after};
ghost use Rattle.tsd_io.specs.Takes.{TellsLast};

use std::marker::Model;
use tsd_io::memory::{MemSink, MemSource};
use tsd_io::ports::{Failed, Sink, Source};

/// The end of a connection in memory that bytes come from.
///
/// Contracts see it as its source, with the connection's number.
#[derive(Drop)]
pub struct MemInlet {
    source: MemSource,
    number: u64,
}

impl Model for MemInlet {
    ghost use Rattle.tsd_io.specs.Memory.{SourceInMemory};

    ghost Value = { SourceInMemory };

    ghost view = { λ s. record s.source { number = s.number } };
}

impl MemInlet {
    /// The end of the connection with this number.
    pub fn make(source: MemSource, number: u64) -> MemInlet
        ensures { result ≡ record source { number = number } }
    {
        MemInlet { source, number }
    }

    /// The bytes that are left.
    pub fn left(&self) -> &[u8]
        ensures { result.now ≡ self.now.left }
    {
        self.source.left()
    }
}

impl Source for MemInlet {
    ghost taken = { λ s. Some s.taken };

    ghost left = { λ s. Some s.left };

    ghost last = { λ s. Some s.last };

    ghost faults = { λ s. s.faults };

    ghost number = { λ s. s.number };

    fn take(&mut self, into: &mut [u8]) -> Result<usize, Failed>
        // As of each source.
        ensures bound { ReadsAtMost result into.new }
        ensures taken { WriteAppends (Some self.old.taken) (Some self.new.taken) result into.new }
        ensures left { ReadConsumes (Some self.old.left) (Some self.new.left) result into.new }
        ensures last { TellsLast (Some self.old.last) (Some self.new.last) result into.new }
        ensures cause { HasCause self.old.faults self.new.faults result }
        ensures number { self.new.number ≡ self.old.number }

        // As of the source in memory.
        ensures calls { self.new.calls ≡ one_more self.old.calls }
        ensures failing { self.new.failing ≡ self.old.failing }
        ensures fails { IsErr result ↔ Contains self.old.failing self.new.calls }
        ensures never { self.old.failing ≡ [] → IsOk result }
        ensures faults { self.new.faults ≡ faults_after self.old.faults result }
        ensures count { IfOk result
            (λ n. n ≡ cut_count self.old.cuts (min (length into.old) (length self.old.left))) }
        ensures cuts { self.new.cuts ≡ cuts_after self.old.cuts result }
    {
        self.source.take(into)
    }
}

/// The end of a connection in memory that bytes go to.
///
/// Contracts see it as its sink, with the connection's number.
#[derive(Drop)]
pub struct MemOutlet {
    sink: MemSink,
    number: u64,
}

impl Model for MemOutlet {
    ghost use Rattle.tsd_io.specs.Memory.{SinkInMemory};

    ghost Value = { SinkInMemory };

    ghost view = { λ s. record s.sink { number = s.number } };
}

impl MemOutlet {
    /// The end of the connection with this number.
    pub fn make(sink: MemSink, number: u64) -> MemOutlet
        ensures { result ≡ record sink { number = number } }
    {
        MemOutlet { sink, number }
    }

    /// The bytes that were given.
    pub fn held(&self) -> &[u8]
        ensures { result.now ≡ self.now.held }
    {
        self.sink.held()
    }
}

impl Sink for MemOutlet {
    ghost held = { λ s. Some s.held };

    ghost faults = { λ s. s.faults };

    ghost number = { λ s. s.number };

    fn give(&mut self, piece: &[u8]) -> Result<usize, Failed>
        // As of each sink.
        ensures bound { WritesAtMost result piece.now }
        ensures some { IfOk result (λ n. 0 < length piece.now → 0 < n) }
        ensures held { WriteAppends (Some self.old.held) (Some self.new.held) result piece.now }
        ensures cause { HasCause self.old.faults self.new.faults result }
        ensures number { self.new.number ≡ self.old.number }

        // As of the sink in memory.
        ensures calls { self.new.calls ≡ one_more self.old.calls }
        ensures failing { self.new.failing ≡ self.old.failing }
        ensures fails { IsErr result ↔ (Contains self.old.failing self.new.calls
            ⊎ ((0 < length piece.now) × (self.old.room ≡ 0))) }
        ensures never { self.old.failing ≡ [] → 0 < self.old.room → IsOk result }
        ensures faults { self.new.faults ≡ faults_after self.old.faults result }
        ensures count { IfOk result (λ n. n ≡ min (length piece.now) self.old.room) }
        ensures room { MatchResult result (λ n. self.new.room + n ≡ self.old.room)
            (λ _. self.new.room ≡ self.old.room) }
    {
        self.sink.give(piece)
    }
}
