//! Doors over a listener of the system.
//!
//! They tell nothing of content: no proof knows what a system gives or takes.
ghost use Rattle.std.specs.Prelude.{◌≡◌, ◌≢◌, None, IfOk, IfSome};
ghost use Rattle.tsd_doors.specs.TcpLinks.{no_links};

use crate::doors::{Bell, Doors};
use crate::tcp_ends::{TcpInlet, TcpKept, TcpOutlet, both_ends, close_ends};
use std::alloc::Global;
use std::marker::Model;
use std::net::{IpAddr, Ipv4Addr, Ipv6Addr, Net, Shutdown, SocketAddr, TcpListener, TcpStream};
use std::os::fd::OwnedFd;
use std::rt::Clock;
use std::sync::Arc;
use std::sync::atomic::{AtomicBool, Ordering};
use std::time::Duration;
use std::{io, thread};
use tsd_io::ports::Failed;

/// How long an `accept` waits where the system has no room for a further connection, in milliseconds.
const PAUSE_MILLIS: u64 = 20;

/// What the doors and their bells share: whether a bell rang, and the listener's socket under a further descriptor.
#[derive(Drop)]
struct BellRope {
    rang: AtomicBool,
    socket: TcpStream,
}

/// Ends a wait at the doors. One that was taken before the doors were bound does nothing.
#[derive(Drop)]
pub struct TcpBell {
    rope: Option<Arc<BellRope>>,
}

impl Bell for TcpBell {
    fn ring(&mut self) {
        if let Some(rope) = &self.rope {
            rope.rang.store(true, Ordering::SeqCst);
            // Shutting down a listener wakes who waits at it, and it takes no more connections.
            let _ = rope.socket.shutdown(Shutdown::Both);
        }
    }
}

/// A listener, and what it shares with the bells.
#[derive(Drop)]
struct OpenDoors {
    listener: TcpListener,
    rope: Arc<BellRope>,
    port: u16,
}

/// Doors over a listener of the system, for which `net` stands.
///
/// Contracts see them as their counts and their count of faults.
#[derive(Drop)]
pub struct TcpDoors<N> {
    net: N,
    alloc: Global,
    address: Option<IpAddr>,
    bound: Option<OpenDoors>,
    bind_error: Option<io::Error>,
    returned: u64,
    out: u64,
    faults: u64,
}

impl<N> Model for TcpDoors<N> {
    ghost use Rattle.std.specs.Prelude.{◌≤◌, ◌+◌, ◌-◌, ◌^◌};
    ghost use Rattle.std.specs.Option.{option_map};
    ghost use Rattle.tsd_doors.specs.TcpLinks.{DoorsOverNet};
    ghost use Rattle.tsd_doors.specs.declared.tcp_doors.OpenDoors.{OpenDoors};

    ghost Value = { DoorsOverNet };

    ghost view = { λ s. record {
      counts = record { returned = s.returned; out = s.out; port = option_map (λ (o : OpenDoors). o.port) s.bound };
      faults = s.faults;
    } };

    ghost invariant = { λ s. s.returned + s.out ≤ 2 ^ 64 - 1 };
}

impl<N> TcpDoors<N> {
    /// Doors that aren't bound yet. They will be at this address, or on all interfaces of the machine.
    pub fn make(net: N, alloc: Global, address: Option<IpAddr>) -> TcpDoors<N>
        ensures { result ≡ no_links }
    {
        TcpDoors {
            net,
            alloc,
            address,
            bound: None,
            bind_error: None,
            returned: 0,
            out: 0,
            faults: 0,
        }
    }

    /// Why the last `bind` failed, if it did.
    pub fn bind_error(&self) -> Option<&io::Error> {
        self.bind_error.as_ref()
    }
}

impl<N: Net<Listener = TcpListener, Stream = TcpStream> + Clock + Send + Drop> Doors
    for TcpDoors<N> {
    type Inlet = TcpInlet;

    type Outlet = TcpOutlet;

    type Bell = TcpBell;

    type Kept = TcpKept;

    ghost counts = { λ d. d.counts };

    ghost faults = { λ d. d.faults };

    ghost waiting = { λ _. None };

    ghost back = { λ _. None };

    ghost shown = { λ k. record { number = k.number; source_faults = k.source_faults; sink_faults = k.sink_faults; taken = None; left = None; held = None } };

    fn bind(&mut self, port: u16) -> Result<u16, Failed> {
        match open_at(&self.net, self.alloc, self.address, port) {
            Ok(doors) => {
                let port = doors.port;
                self.bound = Some(doors);
                self.bind_error = None;
                Ok(port)
            }
            Err(error) => {
                self.bind_error = Some(error);
                self.faults = self.faults.saturating_add(1);
                Err(Failed)
            }
        }
    }

    fn bell(&self) -> TcpBell {
        match &self.bound {
            Some(doors) => TcpBell {
                rope: Arc::try_clone(&doors.rope).ok(),
            },
            None => TcpBell { rope: None },
        }
    }

    fn accept(&mut self) -> Result<Option<(TcpInlet, TcpOutlet)>, Failed> {
        let number = self.returned + self.out;
        let got = match &self.bound {
            Some(doors) if number < u64::MAX => next_ends(&self.net, self.alloc, doors, number),
            _ => Err(Failed),
        };
        match got {
            Ok(Some(ends)) => {
                self.out += 1;
                Ok(Some(ends))
            }
            Ok(None) => Ok(None),
            Err(Failed) => {
                self.faults = self.faults.saturating_add(1);
                Err(Failed)
            }
        }
    }

    fn shut(inlet: TcpInlet, outlet: TcpOutlet) -> TcpKept {
        close_ends(inlet, outlet)
    }

    fn give_back(&mut self, kept: TcpKept) {
        drop(kept);
        self.out -= 1;
        self.returned += 1;
    }
}

/// A listener at this port of an address, or of all interfaces, IPv6 and IPv4, or IPv4 alone where the machine has no other.
/// Connections wait at it from here on.
fn open_at<N: Net<Listener = TcpListener, Stream = TcpStream>>(
    net: &N,
    alloc: Global,
    address: Option<IpAddr>,
    port: u16,
) -> io::Result<OpenDoors>
    ensures asked { IfOk result (λ doors. port ≢ 0 → doors.port ≡ port) }
{
    let all = [
        SocketAddr::new(IpAddr::V6(Ipv6Addr::UNSPECIFIED), port),
        SocketAddr::new(IpAddr::V4(Ipv4Addr::UNSPECIFIED), port),
    ];
    let listener = match address {
        Some(address) => TcpListener::bind(net, SocketAddr::new(address, port))?,
        None => TcpListener::bind(net, &all[..])?,
    };
    let port = if port == 0 {
        listener.local_addr()?.port()
    } else {
        port
    };
    let socket = TcpStream::from(OwnedFd::from(listener.try_clone()?));
    let rope = Arc::new(
        alloc,
        BellRope {
            rang: AtomicBool::new(false),
            socket,
        },
    )?;
    Ok(OpenDoors {
        listener,
        rope,
        port,
    })
}

/// The two ends of the next connection, or none once a bell rang.
///
/// A connection that can't be made ready is dropped. Where the system has no room for one, it waits until there is.
fn next_ends<N: Clock>(
    net: &N,
    alloc: Global,
    listening: &OpenDoors,
    number: u64,
) -> Result<Option<(TcpInlet, TcpOutlet)>, Failed>
    ensures inlet { IfOk result (λ got. IfSome got (λ link. link.0 ≡ record { number = number; faults = 0 })) }
    ensures outlet { IfOk result (λ got. IfSome got (λ link. link.1 ≡ record { number = number; faults = 0 })) }
{
    for _ in 0..u64::MAX {
        if listening.rope.rang.load(Ordering::SeqCst) {
            return Ok(None);
        }
        match listening.listener.accept() {
            Ok((stream, _)) => {
                if let Ok(ends) = both_ends(alloc, stream, number) {
                    return Ok(Some(ends));
                }
            }
            Err(error) => match trouble_of(&error) {
                Trouble::Peer => {}
                Trouble::Room => thread::sleep(net, Duration::from_millis(PAUSE_MILLIS)),
                Trouble::Listener => break,
            },
        }
    }
    if listening.rope.rang.load(Ordering::SeqCst) {
        return Ok(None);
    }
    Err(Failed)
}

/// Why an `accept` of the system failed.
enum Trouble {
    /// The connection is gone again.
    Peer,

    /// There is no descriptor, or no memory, for a further one.
    Room,

    /// The listener was shut down, or is none.
    Listener,
}

const ENOMEM: i32 = 12;

const EBADF: i32 = 9;

const EINVAL: i32 = 22;

const ENFILE: i32 = 23;

const EMFILE: i32 = 24;

const ENOTSOCK: i32 = 88;

const EOPNOTSUPP: i32 = 95;

const ENOBUFS: i32 = 105;

fn trouble_of(error: &io::Error) -> Trouble {
    match error.raw_os_error() {
        Some(ENOMEM | ENFILE | EMFILE | ENOBUFS) => Trouble::Room,
        Some(EBADF | EINVAL | ENOTSOCK | EOPNOTSUPP) | None => Trouble::Listener,
        Some(_) => Trouble::Peer,
    }
}
