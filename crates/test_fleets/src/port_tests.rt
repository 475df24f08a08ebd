//! The program over a port of this machine, by its words, and clients that wait for their replies.

use std::alloc::{AllocError, Global};
use std::io::{self, Read, Write};
use std::net::{IpAddr, Ipv4Addr, SocketAddr, TcpStream};
use std::os::unix::net::UnixStream;
use std::sync::Wait;
use std::thread;
use std::thread::Threads;
use std::time::Duration;
use tsd_doors::doors::Doors;
use tsd_doors::tcp_doors::TcpDoors;
use tsd_io::clock::MemClock;
use tsd_io::halt::MemHalt;
use tsd_io::memory::MemSource;
use tsd_io::standard::WriteSink;
use tsd_run::Status;
use tsd_run::run::run;

/// This machine.
const HOST: IpAddr = IpAddr::V4(Ipv4Addr::LOCALHOST);

/// How long a reply may take, in seconds.
const PATIENCE: u64 = 20;

/// How long a reply is waited for that isn't to come, in milliseconds.
const WHILE: u64 = 300;

/// A client, none of whose reads waits for ever.
fn client(rt: &HostRuntime, port: u16) -> io::Result<TcpStream> {
    let client = TcpStream::connect(rt, SocketAddr::new(HOST, port))?;
    client.set_read_timeout(Some(Duration::from_secs(PATIENCE)))?;
    Ok(client)
}

/// Two clients, one behind the other.
fn two_clients(rt: &HostRuntime, port: u16) -> io::Result<(TcpStream, TcpStream)> {
    let one = client(rt, port)?;
    let other = client(rt, port)?;
    Ok((one, other))
}

/// Whether these bytes come next.
fn is_told(from: &mut impl Read, wanted: &[u8]) -> bool {
    let mut heard = [0; 64];
    let len = wanted.len().min(64);
    let heard = &mut heard[..len];
    from.read_exact(heard).is_ok() && &*heard == wanted
}

/// Whether the reply of `version` comes next.
fn is_answered(client: &mut TcpStream) -> bool {
    is_told(client, b"tsd integer profile 1\n")
}

/// Whether nothing is replied for a while.
fn waits(client: &mut TcpStream) -> bool {
    let short = client.set_read_timeout(Some(Duration::from_millis(WHILE)));
    let none = client.read(&mut [0]).is_err();
    let long = client.set_read_timeout(Some(Duration::from_secs(PATIENCE)));
    none && short.is_ok() && long.is_ok()
}

/// Whether this could be said.
fn says(client: &mut TcpStream, text: &[u8]) -> bool {
    client.write_all(text).is_ok()
}

/// Whether this could be said, and the reply of `version` comes then.
fn asks(client: &mut TcpStream, text: &[u8]) -> bool {
    says(client, text) && is_answered(client)
}

/// The port that the program tells first.
fn port_of(told: &mut UnixStream) -> io::Result<u16> {
    let mut line = [0; 32];
    let count = told.read(&mut line)?;
    let digits = line[..count].strip_prefix(b"listening ").unwrap_or(b"");
    let mut port: u16 = 0;
    for digit in digits {
        if digit.is_ascii_digit() {
            port = port
                .wrapping_mul(10)
                .wrapping_add(u16::from(digit.wrapping_sub(b'0')));
        }
    }
    Ok(port)
}

/// Whether four clients of two daemons with one worker each are answered as they are to be, to the request that ends the program.
///
/// The first two are served at once. The third waits for the first one's end, and the fourth for the second one's.
fn are_answered(
    first: TcpStream,
    second: TcpStream,
    third: &mut TcpStream,
    fourth: &mut TcpStream,
) -> bool {
    let (mut first, mut second) = (first, second);
    let mut all = asks(&mut first, b"put m 1 1 h=a\nversion\n");
    all &= asks(&mut second, b"put m 1 1 h=b\nversion\n");
    all &= says(third, b"put m 1 1 h=c\nversion\n");
    all &= says(fourth, b"put m 1 1 h=d\nversion\n");
    drop(second);
    all &= is_answered(fourth);
    all &= waits(third);
    all &= asks(&mut first, b"put m 1 1 h=a\nversion\n");
    drop(first);
    all &= is_answered(third);
    all &= says(fourth, b"diediedie\n");
    all & is_told(fourth, b"Cleaning up and exiting now.\n")
}

/// Whether the clients are answered so, the third of them behind the request to end too, and the program tells what they put.
fn are_served(rt: &HostRuntime, told: &mut UnixStream) -> io::Result<bool> {
    told.set_read_timeout(Some(Duration::from_secs(PATIENCE)))?;
    let port = port_of(told)?;
    let (first, second) = two_clients(rt, port)?;
    let (mut third, mut fourth) = two_clients(rt, port)?;
    let answered = are_answered(first, second, &mut third, &mut fourth);
    let still = asks(&mut third, b"put m 1 1 h=c\nversion\n");
    drop(third);
    let tells = is_told(told, b"links 4\nids 1 1 4\nrows 4\ncells 4\n");
    Ok(answered & still & tells)
}

/// The words of the program.
fn words(alloc: Global) -> Result<Vec<String>, AllocError> {
    let mut words = Vec::new(alloc);
    for word in "serve 0 --daemons 2 --workers 1 --auto-metric".split(' ') {
        words.push(String::from_str(alloc, word)?)?;
    }
    Ok(words)
}

/// The status of the program over these doors. It tells what it prints to this stream.
fn run_over<T: Threads + Wait + Sync, D: Doors>(
    rt: &T,
    alloc: Global,
    words: &[String],
    tells: UnixStream,
    doors: &mut D,
) -> Status {
    let none = MemSource::make(Vec::new(alloc), Vec::new(alloc), Vec::new(alloc));
    let clock = MemClock::make(Vec::new(alloc), Vec::new(alloc));
    let halt = MemHalt::make(Vec::new(alloc));
    let (mut input, mut clock, mut output) = (none, clock, WriteSink::make(tells));
    run(
        rt,
        alloc,
        words,
        &mut input,
        &mut output,
        &mut clock,
        halt,
        doors,
    )
    .status
}

#[test]
fn clients_of_a_port_are_served_at_once_and_in_turn(rt: HostRuntime) -> io::Result<()> {
    let words = words(rt.alloc())?;
    let mut doors = TcpDoors::make(rt.clone()?, rt.alloc(), Some(HOST));
    let (tells, mut told) = UnixStream::pair(&rt)?;
    let (_, status) = thread::join(
        &rt,
        || assert!(rt; matches!(are_served(&rt, &mut told), Ok(true))),
        || run_over(&rt, rt.alloc(), &words, tells, &mut doors),
    );
    assert!(rt; status == Status::Done);
    Ok(())
}
