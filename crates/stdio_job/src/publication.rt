//! What is published behind the replies of a connection.
ghost use Rattle.std.specs.Prelude.{◌≡◌, ◌≢◌, ◌≤◌, ◌++◌, IfOk, OnErr, OnOk};
ghost use Rattle.std.specs.Io.KnownBytes.{Appends};
ghost use Rattle.tsd_io.specs.Causes.{HasCause, Rose};
ghost use Rattle.stdio_job.specs.Publications.{GavePart, GavePublished, GaveWhole, head_line, published_text};

use std::alloc::{AllocError, Global};
use tsd_base::decimals::write_number;
use tsd_daemon::Served;
use tsd_io::give_all::give_all;
use tsd_io::ports::{Failed, Sink};

/// Gives the line `published N` and the lines of N points, where a connection ended by itself, and answers how all ended: so, or for want
/// of memory, or since the sink failed. Where the connection ended otherwise, or memory runs out, nothing is given.
pub fn publish<K: Sink>(
    alloc: Global,
    ended: Served,
    lines: &[u8],
    count: u64,
    sink: &mut K,
) -> Served
    ensures gave { GavePublished ended result (published_text count lines.now) (K.held sink.old) (K.held sink.new) }
    ensures later { K.faults sink.old ≤ K.faults sink.new }
    ensures failed { result ≡ Served.WriteFault → ended ≢ Served.WriteFault → Rose (K.faults sink.old) (K.faults sink.new) }
    ensures as_ended { result ≢ Served.WriteFault → result ≢ Served.OutOfMemory → result ≡ ended }
{
    match ended {
        Served::End | Served::Exit | Served::Die | Served::Closed => {
            publish_whole(alloc, ended, lines, count, sink)
        }
        Served::ReadFault
        | Served::WriteFault
        | Served::ClockFault
        | Served::Stopped
        | Served::SessionFull
        | Served::OutOfMemory => ended,
    }
}

/// Gives the line `published N` and the lines of N points, and answers how all ended. All memory is taken before the first byte is given.
fn publish_whole<K: Sink>(
    alloc: Global,
    ended: Served,
    lines: &[u8],
    count: u64,
    sink: &mut K,
) -> Served
    ensures gave { GaveWhole ended result (published_text count lines.now) (K.held sink.old) (K.held sink.new) }
    ensures later { K.faults sink.old ≤ K.faults sink.new }
    ensures failed { result ≡ Served.WriteFault → ended ≢ Served.WriteFault → Rose (K.faults sink.old) (K.faults sink.new) }
    ensures as_ended { result ≢ Served.WriteFault → result ≢ Served.OutOfMemory → result ≡ ended }
{
    let Ok(head) = head_line(alloc, count) else {
        return Served::OutOfMemory;
    };
    match give_both(sink, &head, lines) {
        Ok(()) => ended,
        Err(Failed) => Served::WriteFault,
    }
}

/// Gives two texts, one behind the other, or a front of both where the sink fails.
fn give_both<K: Sink>(sink: &mut K, first: &[u8], second: &[u8]) -> Result<(), Failed>
    ensures ok { OnOk result (Appends (K.held sink.old) (K.held sink.new) (first.now ++ second.now)) }
    ensures err { OnErr result (GavePart (first.now ++ second.now) (K.held sink.old) (K.held sink.new)) }
    ensures cause { HasCause (K.faults sink.old) (K.faults sink.new) result }
{
    match give_all(sink, first) {
        Ok(()) => give_all(sink, second),
        Err(Failed) => Err(Failed),
    }
}

/// The line `published N`. It fails only for want of memory.
fn head_line(alloc: Global, count: u64) -> Result<Vec<u8>, AllocError>
    ensures { IfOk result (λ line. line.items ≡ head_line count) }
{
    let mut line = Vec::from_slice(alloc, b"published ")?;
    write_number(count, &mut line)?;
    line.push(b'\n')?;
    Ok(line)
}
