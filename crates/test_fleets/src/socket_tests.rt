//! Doors over the system, with both ends of a connection in this process.
ghost use Rattle.std.specs.Prelude.{◌≡◌};

use std::io::{self, Read, Write};
use std::net::{IpAddr, Ipv4Addr, Shutdown, SocketAddr, TcpStream};
use tsd_doors::doors::{Bell, Doors};
use tsd_doors::tcp_doors::TcpDoors;
use tsd_io::give_all::give_all;
use tsd_io::ports::{Failed, Sink, Source};

/// Says a word, and then nothing more.
fn say(client: &mut TcpStream, word: &[u8]) -> io::Result<()> {
    client.write_all(word)?;
    client.shutdown(Shutdown::Write)
}

/// Whether this word comes in, and then nothing more; it is answered by `fine`.
fn is_answered<I: Source, O: Sink>(inlet: &mut I, outlet: &mut O, word: &[u8]) -> bool
    ensures inlet { I.number inlet.new ≡ I.number inlet.old }
    ensures outlet { O.number outlet.new ≡ O.number outlet.old }
{
    let mut into = [0; 8];
    let came = match inlet.take(&mut into) {
        Ok(count) => &into[..count] == word,
        Err(Failed) => false,
    };
    let ended = inlet.take(&mut into) == Ok(0);
    let given = give_all(outlet, b"fine") == Ok(());
    came && ended && given
}

/// Whether `fine` is heard, and then nothing more.
fn hears_fine(client: &mut TcpStream) -> io::Result<bool> {
    let mut into = [0; 8];
    let heard = client.read(&mut into)?;
    let fine = &into[..heard] == b"fine".as_slice();
    Ok(fine && client.read(&mut into)? == 0)
}

/// Whether the connection that comes next says this word, is answered, and is given back.
fn is_next(doors: &mut TcpDoors<HostRuntime>, word: &[u8]) -> bool {
    let Ok(Some((mut inlet, mut outlet))) = doors.accept() else {
        return false;
    };
    let answered = is_answered(&mut inlet, &mut outlet, word);
    doors.give_back(TcpDoors::<HostRuntime>::shut(inlet, outlet));
    answered
}

/// Whether a client that says this word is served by the doors, to its end.
fn is_served(
    rt: &HostRuntime,
    doors: &mut TcpDoors<HostRuntime>,
    address: SocketAddr,
    word: &[u8],
) -> io::Result<bool> {
    let mut client = TcpStream::connect(rt, address)?;
    say(&mut client, word)?;
    let answered = is_next(doors, word);
    Ok(hears_fine(&mut client)? && answered)
}

#[test]
fn system_doors_serve_both_ends(rt: HostRuntime) -> io::Result<()> {
    let mut doors = TcpDoors::make(rt.clone()?, rt.alloc(), None);
    assert!(rt; doors.accept().is_err());
    let Ok(port) = doors.bind(0) else {
        panic!(rt; "no port");
    };
    let mut bell = doors.bell();
    let address = SocketAddr::new(IpAddr::V4(Ipv4Addr::LOCALHOST), port);
    assert!(rt; is_served(&rt, &mut doors, address, b"one")?);
    assert!(rt; is_served(&rt, &mut doors, address, b"two")?);
    bell.ring();
    assert!(rt; matches!(doors.accept(), Ok(None)));
    Ok(())
}
