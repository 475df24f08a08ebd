//! Devices in memory: an input and its pieces, an output, a clock, and what fails of them.

use crate::text::{Bad, bytes, hex, number};
use crate::told::Told;
use std::alloc::Global;
use tsd_io::clock::MemClock;
use tsd_io::halt::MemHalt;
use tsd_io::memory::{MemSink, MemSource};

/// How many bytes a sink takes, if a case doesn't say.
const ROOM: u64 = 65_536;

/// In which pieces an input comes.
#[derive(Clone, Copy)]
pub enum Pieces {
    /// As the lines `cuts` say, or else whole.
    Written,
    /// Cut once, behind so many bytes.
    CutAt(usize),
    /// Byte by byte.
    Bytes,
}

/// What a run or a connection is over.
#[derive(Drop)]
pub struct Devices {
    input: Vec<u8>,
    cuts: Vec<usize>,
    source_fails: Vec<u64>,
    sink_fails: Vec<u64>,
    room: u64,
    /// The times that the clock gives, in milliseconds.
    times: Vec<u64>,
    clock_fails: Vec<u64>,
    /// The steps that the halt refuses.
    stops: Vec<u64>,
}

/// Adds a number so many times.
fn add_times<T: Copy>(list: &mut Vec<T>, what: T, times: u64) -> Result<(), Bad> {
    for _ in 0..times {
        list.push(what)?;
    }
    Ok(())
}

/// A number, and how often it stands, of `NUMBER` or `NUMBER*TIMES`.
fn repeated(word: &str) -> Result<(u64, u64), Bad> {
    match word.split_once('*') {
        Some((what, times)) => Ok((number(what)?, number(times)?)),
        None => Ok((number(word)?, 1)),
    }
}

/// Numbers, each of which may be repeated by `*` and another.
fn add_numbers(list: &mut Vec<u64>, text: &str) -> Result<(), Bad> {
    for word in text.split_ascii_whitespace() {
        let (what, times) = repeated(word)?;
        add_times(list, what, times)?;
    }
    Ok(())
}

/// The same as sizes.
fn add_sizes(list: &mut Vec<usize>, text: &str) -> Result<(), Bad> {
    for word in text.split_ascii_whitespace() {
        let (what, times) = repeated(word)?;
        add_times(list, what as usize, times)?;
    }
    Ok(())
}

/// Adds the bytes of a text, and what stands behind them.
fn add_bytes(alloc: Global, list: &mut Vec<u8>, text: &str, end: &[u8]) -> Result<(), Bad> {
    let bytes = bytes(alloc, text)?;
    list.extend_from_slice(bytes.as_slice())?;
    list.extend_from_slice(end)?;
    Ok(())
}

/// Copies of numbers.
fn copied<T: Copy>(alloc: Global, list: &[T]) -> Result<Vec<T>, Bad> {
    Ok(Vec::from_slice(alloc, list)?)
}

/// So many cuts of one byte.
fn single_bytes(alloc: Global, count: usize) -> Result<Vec<usize>, Bad> {
    let mut cuts = Vec::new(alloc);
    add_times(&mut cuts, 1, count as u64)?;
    Ok(cuts)
}

/// Adds the bytes of hexadecimal digits.
fn add_hex(alloc: Global, list: &mut Vec<u8>, text: &str) -> Result<(), Bad> {
    let bytes = hex(alloc, text)?;
    list.extend_from_slice(bytes.as_slice())?;
    Ok(())
}

impl Devices {
    /// Devices that never fail, without input.
    pub fn of(alloc: Global) -> Devices {
        Devices {
            input: Vec::new(alloc),
            cuts: Vec::new(alloc),
            source_fails: Vec::new(alloc),
            sink_fails: Vec::new(alloc),
            room: ROOM,
            times: Vec::new(alloc),
            clock_fails: Vec::new(alloc),
            stops: Vec::new(alloc),
        }
    }

    /// Does a line that changes the devices.
    pub fn change(&mut self, alloc: Global, verb: &str, rest: &str) -> Result<(), Bad> {
        match verb {
            "input" => add_bytes(alloc, &mut self.input, rest, b"\n"),
            "tail" => add_bytes(alloc, &mut self.input, rest, b""),
            "image" => add_hex(alloc, &mut self.input, rest),
            "cuts" => add_sizes(&mut self.cuts, rest),
            "source_fails" => add_numbers(&mut self.source_fails, rest),
            "sink_fails" => add_numbers(&mut self.sink_fails, rest),
            "room" => self.set_room(rest),
            "clock" => add_numbers(&mut self.times, rest),
            "clock_fails" => add_numbers(&mut self.clock_fails, rest),
            "stops" => add_numbers(&mut self.stops, rest),
            _ => Err(Bad::Line("no verb of a run")),
        }
    }

    fn set_room(&mut self, text: &str) -> Result<(), Bad> {
        self.room = number(text)?;
        Ok(())
    }

    /// Where the input is cut.
    fn cuts_of(&self, alloc: Global, pieces: Pieces) -> Result<Vec<usize>, Bad> {
        match pieces {
            Pieces::Written => copied(alloc, self.cuts.as_slice()),
            Pieces::CutAt(place) => copied(alloc, &[place]),
            Pieces::Bytes => single_bytes(alloc, self.input.len()),
        }
    }

    /// A source of the input in these pieces.
    pub fn source(&self, alloc: Global, pieces: Pieces) -> Result<MemSource, Bad> {
        let input = copied(alloc, self.input.as_slice())?;
        let cuts = self.cuts_of(alloc, pieces)?;
        let fails = copied(alloc, self.source_fails.as_slice())?;
        Ok(MemSource::make(input, cuts, fails))
    }

    /// A sink with its room.
    pub fn sink(&self, alloc: Global) -> Result<MemSink, Bad> {
        let fails = copied(alloc, self.sink_fails.as_slice())?;
        Ok(MemSink::make(alloc, self.room as usize, fails)?)
    }

    /// A clock that begins with the first time.
    pub fn clock(&self, alloc: Global) -> Result<MemClock, Bad> {
        let times = copied(alloc, self.times.as_slice())?;
        let fails = copied(alloc, self.clock_fails.as_slice())?;
        Ok(MemClock::make(times, fails))
    }

    /// A halt before the first step.
    pub fn halt(&self, alloc: Global) -> Result<MemHalt, Bad> {
        Ok(MemHalt::make(copied(alloc, self.stops.as_slice())?))
    }
}

/// Adds what a sink holds, and whether its last line has no end.
pub fn tell_output(out: &mut Told, held: &[u8]) {
    out.bytes(held);
    if !held.is_empty() && !held.ends_with(b"\n") {
        out.add("(no end of line)");
    }
}
