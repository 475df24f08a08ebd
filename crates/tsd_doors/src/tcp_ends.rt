//! The two ends of a connection over a stream of the system.
//!
//! They tell nothing of content: no proof knows what a system gives or takes.
ghost use Rattle.std.specs.Prelude.{◌≡◌, None, IfOk};

use std::alloc::Global;
use std::io::{self, Read, Write};
use std::marker::Model;
use std::net::TcpStream;
use std::sync::Arc;
use std::time::Duration;
use tsd_io::ports::{Failed, Sink, Source};
use tsd_io::standard::{ReadSource, WriteSink};

/// How long a read may wait for the peer, in seconds. Agents send more often.
const READ_SECONDS: u64 = 15 * 60;

/// How long a write may wait for the peer, in seconds.
const WRITE_SECONDS: u64 = 30;

/// The stream that both ends of a connection share: one descriptor.
#[derive(Drop)]
struct SharedStream {
    stream: Arc<TcpStream>,
}

impl Read for SharedStream {
    fn read(&mut self, buf: &mut [u8]) -> io::Result<usize> {
        let mut stream: &TcpStream = &self.stream;
        stream.read(buf)
    }
}

impl Write for SharedStream {
    fn write(&mut self, buf: &[u8]) -> io::Result<usize> {
        let mut stream: &TcpStream = &self.stream;
        stream.write(buf)
    }

    fn flush(&mut self) -> io::Result<()> {
        Ok(())
    }
}

/// The end of a connection that bytes come from. A read of which nothing comes for 15 minutes fails, so a peer that is idle or gone
/// holds nobody up for longer.
///
/// Contracts see it as its number and its count of faults.
#[derive(Drop)]
pub struct TcpInlet {
    source: ReadSource<SharedStream>,
    faults: u64,
    number: u64,
}

impl Model for TcpInlet {
    ghost use Rattle.tsd_doors.specs.Links.{LinkEnd};

    ghost Value = { LinkEnd };

    ghost view = { λ s. record { number = s.number; faults = s.faults } };
}

impl Source for TcpInlet {
    ghost taken = { λ _. None };

    ghost left = { λ _. None };

    ghost last = { λ _. None };

    ghost faults = { λ s. s.faults };

    ghost number = { λ s. s.number };

    fn take(&mut self, into: &mut [u8]) -> Result<usize, Failed> {
        let taken = self.source.take(into);
        if taken.is_err() {
            self.faults = self.faults.saturating_add(1);
        }
        taken
    }
}

/// The end of a connection that bytes go to. A write of which the peer takes nothing for 30 seconds fails.
///
/// Contracts see it as its number and its count of faults.
#[derive(Drop)]
pub struct TcpOutlet {
    sink: WriteSink<SharedStream>,
    faults: u64,
    number: u64,
}

impl Model for TcpOutlet {
    ghost use Rattle.tsd_doors.specs.Links.{LinkEnd};

    ghost Value = { LinkEnd };

    ghost view = { λ s. record { number = s.number; faults = s.faults } };
}

impl Sink for TcpOutlet {
    ghost held = { λ _. None };

    ghost faults = { λ s. s.faults };

    ghost number = { λ s. s.number };

    fn give(&mut self, piece: &[u8]) -> Result<usize, Failed> {
        let given = self.sink.give(piece);
        if given.is_err() {
            self.faults = self.faults.saturating_add(1);
        }
        given
    }
}

/// What is kept of a connection that was shut: its number and how often its ends failed.
#[derive(Drop)]
pub struct TcpKept {
    /// The number of the connection.
    pub number: u64,

    /// How often a read failed.
    pub source_faults: u64,

    /// How often a write failed.
    pub sink_faults: u64,
}

/// The two ends of a stream, for the connection with this number. Small pieces go out at once.
pub fn both_ends(alloc: Global, stream: TcpStream, number: u64) -> io::Result<(TcpInlet, TcpOutlet)>
    ensures inlet { IfOk result (λ link. link.0 ≡ record { number = number; faults = 0 }) }
    ensures outlet { IfOk result (λ link. link.1 ≡ record { number = number; faults = 0 }) }
{
    stream.set_nodelay(true)?;
    stream.set_read_timeout(Some(Duration::from_secs(READ_SECONDS)))?;
    stream.set_write_timeout(Some(Duration::from_secs(WRITE_SECONDS)))?;
    let stream = Arc::new(alloc, stream)?;
    let other = Arc::try_clone(&stream)?;
    let inlet = TcpInlet {
        source: ReadSource::make(SharedStream { stream }),
        faults: 0,
        number,
    };
    let outlet = TcpOutlet {
        sink: WriteSink::make(SharedStream { stream: other }),
        faults: 0,
        number,
    };
    Ok((inlet, outlet))
}

/// Closes the stream, and keeps what is known of the connection.
pub fn close_ends(inlet: TcpInlet, outlet: TcpOutlet) -> TcpKept
    ensures number { result.number ≡ inlet.number }
    ensures source { result.source_faults ≡ inlet.faults }
    ensures sink { result.sink_faults ≡ outlet.faults }
{
    TcpKept {
        number: inlet.number,
        source_faults: inlet.faults,
        sink_faults: outlet.faults,
    }
}
