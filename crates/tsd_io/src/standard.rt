//! Sources and sinks over readers and writers of `std`, as standard input and output, and the machine's clock.
//!
//! They tell nothing of the bytes and moments: no proof knows what a system gives or takes.
ghost use Rattle.std.specs.Prelude.{◌≡◌, ◌<◌, length, None, IfOk};
ghost use Rattle.std.specs.Io.{ReadsAtMost, WritesAtMost};

use crate::clock::Clock;
use crate::ports::{Failed, Sink, Source};
use std::alloc::{AllocError, Global};
use std::io::{ErrorKind, Read, Write};
use std::marker::Model;
use std::time::{self, SystemTime};

/// A source over a reader. Its number is 0.
///
/// Contracts see it as its count of faults.
#[derive(Drop)]
pub struct ReadSource<R> {
    reader: R,
    faults: u64,
}

impl<R> Model for ReadSource<R> {
    ghost use Rattle.std.specs.Prelude.{ℕ};

    ghost Value = { ℕ };

    ghost view = { λ s. s.faults };
}

impl<R: Read + Drop> ReadSource<R> {
    /// A source over this reader, which hasn't failed yet.
    pub fn make(reader: R) -> ReadSource<R>
        ensures { result ≡ 0 }
    {
        ReadSource { reader, faults: 0 }
    }
}

impl<R: Read + Drop> Source for ReadSource<R> {
    ghost taken = { λ _. None };

    ghost left = { λ _. None };

    ghost last = { λ _. None };

    ghost faults = { λ faults. faults };

    ghost number = { λ _. 0 };

    fn take(&mut self, into: &mut [u8]) -> Result<usize, Failed> {
        let taken = read(&mut self.reader, into);
        if taken.is_err() {
            self.faults = self.faults.saturating_add(1);
        }
        taken
    }
}

/// A sink over a writer. Its number is 0.
///
/// Each give is flushed, so nothing stays behind in a buffer, and a flush that fails is a failure.
/// Contracts see it as its count of faults.
#[derive(Drop)]
pub struct WriteSink<W> {
    writer: W,
    faults: u64,
}

impl<W> Model for WriteSink<W> {
    ghost use Rattle.std.specs.Prelude.{ℕ};

    ghost Value = { ℕ };

    ghost view = { λ s. s.faults };
}

impl<W: Write + Drop> WriteSink<W> {
    /// A sink over this writer, which hasn't failed yet.
    pub fn make(writer: W) -> WriteSink<W>
        ensures { result ≡ 0 }
    {
        WriteSink { writer, faults: 0 }
    }
}

impl<W: Write + Drop> Sink for WriteSink<W> {
    ghost held = { λ _. None };

    ghost faults = { λ faults. faults };

    ghost number = { λ _. 0 };

    fn give(&mut self, piece: &[u8]) -> Result<usize, Failed> {
        let given = write_through(&mut self.writer, piece);
        if given.is_err() {
            self.faults = self.faults.saturating_add(1);
        }
        given
    }
}

/// The machine's clock.
///
/// Contracts see it as its count of faults.
#[derive(Drop)]
pub struct SystemClock<T> {
    time: T,
    faults: u64,
}

impl<T> Model for SystemClock<T> {
    ghost use Rattle.std.specs.Prelude.{ℕ};

    ghost Value = { ℕ };

    ghost view = { λ s. s.faults };
}

impl<T: time::Clock + Copy> SystemClock<T> {
    /// A clock over this one of `std`, as `&rt` is, which hasn't failed yet.
    pub fn make(time: T) -> SystemClock<T>
        ensures { result ≡ 0 }
    {
        SystemClock { time, faults: 0 }
    }
}

impl<T: time::Clock + Copy> Clock for SystemClock<T> {
    ghost moments = { λ _. None };

    ghost faults = { λ faults. faults };

    ghost calls = { λ _. None };

    fn now(&mut self) -> Result<u64, Failed> {
        let moment = millis(&self.time);
        if moment.is_err() {
            self.faults = self.faults.saturating_add(1);
        }
        moment
    }

    fn twin(&self, _alloc: Global) -> Result<SystemClock<T>, AllocError> {
        Ok(SystemClock::make(self.time))
    }

    fn rejoin(&mut self, twin: SystemClock<T>) {
        self.faults = self.faults.saturating_add(twin.faults);
    }
}

/// The milliseconds since 1970. A time before it is a failure.
fn millis<T: time::Clock>(time: &T) -> Result<u64, Failed> {
    let Ok(now) = SystemTime::now(time) else {
        return Err(Failed);
    };
    let Ok(since) = now.duration_since(SystemTime::UNIX_EPOCH) else {
        return Err(Failed);
    };
    u64::try_from(since.as_millis()).map_err(|_| Failed)
}

/// Reads once, and again where the read was interrupted.
fn read<R: Read>(reader: &mut R, into: &mut [u8]) -> Result<usize, Failed>
    ensures { ReadsAtMost result into.new }
{
    for _ in 0..u64::MAX {
        match reader.read(into) {
            Ok(count) => return Ok(count),
            Err(e) if e.kind() == ErrorKind::Interrupted => {}
            Err(_) => break,
        }
    }
    Err(Failed)
}

/// Writes once, and again where the write was interrupted. None of a piece that isn't empty is a failure.
fn write<W: Write>(writer: &mut W, piece: &[u8]) -> Result<usize, Failed>
    ensures bound { WritesAtMost result piece.now }
    ensures some { IfOk result (λ n. 0 < length piece.now → 0 < n) }
{
    for _ in 0..u64::MAX {
        match writer.write(piece) {
            Ok(0) if !piece.is_empty() => break,
            Ok(count) => return Ok(count),
            Err(e) if e.kind() == ErrorKind::Interrupted => {}
            Err(_) => break,
        }
    }
    Err(Failed)
}

/// Flushes, and again where the flush was interrupted.
fn flush<W: Write>(writer: &mut W) -> Result<(), Failed> {
    for _ in 0..u64::MAX {
        match writer.flush() {
            Ok(()) => return Ok(()),
            Err(e) if e.kind() == ErrorKind::Interrupted => {}
            Err(_) => break,
        }
    }
    Err(Failed)
}

/// Writes and flushes.
fn write_through<W: Write>(writer: &mut W, piece: &[u8]) -> Result<usize, Failed>
    ensures bound { WritesAtMost result piece.now }
    ensures some { IfOk result (λ n. 0 < length piece.now → 0 < n) }
{
    let count = write(writer, piece)?;
    flush(writer)?;
    Ok(count)
}
