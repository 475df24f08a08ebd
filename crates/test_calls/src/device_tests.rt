use std::alloc::{AllocError, Global};
use std::io;
use std::io::{ErrorKind, Read, Write};
use std::time::{self, Duration};
use tsd_io::clock::{Clock, MemClock};
use tsd_io::give_all::give_all;
use tsd_io::halt::{Halt, MemHalt};
use tsd_io::memory::{MemSink, MemSource};
use tsd_io::ports::{Failed, Sink, Source};
use tsd_io::standard::{ReadSource, SystemClock, WriteSink};

/// Whether takes of at most four bytes give these one by one, None where one fails, and nothing is left then.
fn takes(source: &mut MemSource, wanted: &[Option<&[u8]>]) -> bool {
    let mut into = [0; 4];
    for piece in wanted {
        let taken = match source.take(&mut into) {
            Ok(count) => Some(&into[..count]),
            Err(Failed) => None,
        };
        if taken != *piece {
            return false;
        }
    }
    source.left().is_empty()
}

#[test]
fn source_gives_each_byte_once(rt: HostRuntime) -> Result<(), AllocError> {
    let cuts = [1, 2, 3].to_vec(rt.alloc())?;
    let bytes = b"0123456789".to_vec(rt.alloc())?;
    let mut source = MemSource::make(bytes, cuts, Vec::new(rt.alloc()));
    assert!(rt; source.left() == b"0123456789".as_slice());
    let pieces: [Option<&[u8]>; 5] = [
        Some(b"0"),
        Some(b"12"),
        Some(b"345"),
        Some(b"6789"),
        Some(b""),
    ];
    assert!(rt; takes(&mut source, &pieces));
    Ok(())
}

#[test]
fn source_fails_where_it_is_to(rt: HostRuntime) -> Result<(), AllocError> {
    let fails = [2].to_vec(rt.alloc())?;
    let bytes = b"abcdef".to_vec(rt.alloc())?;
    let mut source = MemSource::make(bytes, Vec::new(rt.alloc()), fails);
    let pieces: [Option<&[u8]>; 4] = [Some(b"abcd"), None, Some(b"ef"), Some(b"")];
    assert!(rt; takes(&mut source, &pieces));
    Ok(())
}

#[test]
fn sink_holds_what_was_given(rt: HostRuntime) -> Result<(), AllocError> {
    let mut sink = MemSink::make(rt.alloc(), 3, Vec::new(rt.alloc()))?;
    assert!(rt; sink.give(b"abcde") == Ok(3));
    assert!(rt; sink.give(b"de") == Err(Failed));
    assert!(rt; sink.give(b"") == Ok(0));
    assert!(rt; sink.held() == b"abc".as_slice());
    Ok(())
}

#[test]
fn sink_fails_where_it_is_to(rt: HostRuntime) -> Result<(), AllocError> {
    let fails = [1].to_vec(rt.alloc())?;
    let mut sink = MemSink::make(rt.alloc(), 8, fails)?;
    assert!(rt; sink.give(b"ab") == Err(Failed));
    assert!(rt; sink.give(b"ab") == Ok(2));
    assert!(rt; sink.held() == b"ab".as_slice());
    Ok(())
}

/// What a sink with so much room is given of a piece, and holds then.
fn is_given(
    alloc: Global,
    room: usize,
    given: Result<(), Failed>,
    held: &[u8],
) -> Result<bool, AllocError> {
    let mut sink = MemSink::make(alloc, room, Vec::new(alloc))?;
    Ok(give_all(&mut sink, b"hello") == given && sink.held() == held)
}

#[test]
fn piece_is_given_whole_or_its_front(rt: HostRuntime) -> Result<(), AllocError> {
    assert!(rt; is_given(rt.alloc(), 5, Ok(()), b"hello")?);
    assert!(rt; is_given(rt.alloc(), 3, Err(Failed), b"hel")?);
    Ok(())
}

/// Whether a clock of these times, of whose calls these fail, gives these moments.
fn gives(
    alloc: Global,
    times: &[u64],
    failing: &[u64],
    moments: &[Result<u64, Failed>],
) -> Result<bool, AllocError> {
    let times = times.to_vec(alloc)?;
    let failing = failing.to_vec(alloc)?;
    let mut clock = MemClock::make(times, failing);
    for moment in moments {
        if clock.now() != *moment {
            return Ok(false);
        }
    }
    Ok(true)
}

#[test]
fn clock_gives_its_moments_in_turn(rt: HostRuntime) -> Result<(), AllocError> {
    let alloc = rt.alloc();
    assert!(rt; gives(alloc, &[5, 3, 7], &[], &[Ok(5), Ok(3), Ok(7), Ok(7)])?);
    assert!(rt;
        gives(
            alloc,
            &[5, 3],
            &[1, 3],
            &[Err(Failed), Ok(5), Err(Failed), Ok(3)]
        )?
    );
    assert!(rt; gives(alloc, &[], &[], &[Ok(0), Ok(0)])?);
    Ok(())
}

#[test]
fn twin_goes_on_where_its_clock_stands(rt: HostRuntime) -> Result<(), AllocError> {
    let times = [5, 3, 7].to_vec(rt.alloc())?;
    let mut clock = MemClock::make(times, Vec::new(rt.alloc()));
    assert!(rt; clock.now() == Ok(5));
    let mut twin = clock.twin(rt.alloc())?;
    assert!(rt; twin.now() == Ok(3));
    clock.rejoin(twin);
    assert!(rt; clock.now() == Ok(3));
    Ok(())
}

#[test]
fn halt_refuses_the_listed_steps(rt: HostRuntime) -> Result<(), AllocError> {
    let mut halt = MemHalt::make([2, 4].to_vec(rt.alloc())?);
    for may in [true, false, true, false, true] {
        assert!(rt; halt.may_step() == may);
    }
    Ok(())
}

/// A clock of `std` that stands still, or can't be read.
#[derive(Clone, Copy)]
struct Standing {
    time: Option<Duration>,
}

impl time::Clock for Standing {
    fn monotonic(&self) -> io::Result<Duration> {
        self.since_1970()
    }

    fn since_1970(&self) -> io::Result<Duration> {
        match self.time {
            Some(time) => Ok(time),
            None => Err(io::Error::from(ErrorKind::Unsupported)),
        }
    }
}

/// Whether a clock over this one and its twin give this moment.
fn tells(
    alloc: Global,
    time: Option<Duration>,
    moment: Result<u64, Failed>,
) -> Result<bool, AllocError> {
    let mut clock = SystemClock::make(Standing { time });
    let own = clock.now() == moment;
    let mut twin = clock.twin(alloc)?;
    let same = twin.now() == moment;
    clock.rejoin(twin);
    Ok(own && same)
}

#[test]
fn system_clock_tells_milliseconds(rt: HostRuntime) -> Result<(), AllocError> {
    let time = Duration::new(1_356_998_400, 7_999_999);
    assert!(rt; tells(rt.alloc(), Some(time), Ok(1_356_998_400_007))?);
    assert!(rt; tells(rt.alloc(), Some(Duration::new(1 << 62, 0)), Err(Failed))?);
    assert!(rt; tells(rt.alloc(), None, Err(Failed))?);
    let mut clock = SystemClock::make(&rt);
    assert!(rt; clock.now().is_ok());
    Ok(())
}

/// What one call on a stream does: it takes or gives at most so many bytes, or fails.
type Turn = Result<usize, ErrorKind>;

/// A reader and a writer whose calls, flushes too, go as listed.
#[derive(Drop)]
struct Scripted<'a> {
    turns: &'a [Turn],
}

impl Scripted<'_> {
    fn turn(&mut self) -> io::Result<usize> {
        match self.turns {
            [] => Ok(0),
            [turn, rest @ ..] => {
                self.turns = rest;
                match turn {
                    Ok(most) => Ok(*most),
                    Err(kind) => Err(io::Error::from(*kind)),
                }
            }
        }
    }
}

impl Read for Scripted<'_> {
    fn read(&mut self, buf: &mut [u8]) -> io::Result<usize> {
        let most = self.turn()?;
        Ok(most.min(buf.len()))
    }
}

impl Write for Scripted<'_> {
    fn write(&mut self, buf: &[u8]) -> io::Result<usize> {
        let most = self.turn()?;
        Ok(most.min(buf.len()))
    }

    fn flush(&mut self) -> io::Result<()> {
        self.turn()?;
        Ok(())
    }
}

const AGAIN: Turn = Err(ErrorKind::Interrupted);

const BROKEN: Turn = Err(ErrorKind::BrokenPipe);

const FLUSHED: Turn = Ok(0);

#[test]
fn interrupted_read_is_tried_again(rt: HostRuntime) {
    let turns = [AGAIN, Ok(2), BROKEN, Ok(1)];
    let mut source = ReadSource::make(Scripted { turns: &turns });
    let mut into = [0; 4];
    for taken in [Ok(2), Err(Failed), Ok(1), Ok(0)] {
        assert!(rt; source.take(&mut into) == taken);
    }
}

#[test]
fn interrupted_write_is_tried_again(rt: HostRuntime) {
    let turns = [
        AGAIN,
        Ok(2),
        AGAIN,
        FLUSHED,
        Ok(0),
        BROKEN,
        Ok(1),
        BROKEN,
        Ok(9),
        FLUSHED,
    ];
    let mut sink = WriteSink::make(Scripted { turns: &turns });
    for given in [Ok(2), Err(Failed), Err(Failed), Err(Failed), Ok(3)] {
        assert!(rt; sink.give(b"abc") == given);
    }
}
