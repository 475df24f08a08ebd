//! What the program says on standard error: one line that names why it ended.
use std::io;
use std::net::IpAddr;
use tsd_run::Status;

/// Writes why a run ended so, where what it printed doesn't tell.
pub fn tell_cause(rt: &impl Eprint, status: Status) {
    let cause = match status {
        Status::Done | Status::Usage | Status::Refused => return,
        Status::ReadFault => "standard input failed",
        Status::WriteFault => "standard output failed",
        Status::Memory => "there is no memory",
        Status::Stopped => "a step was refused",
        Status::DoorFault => "no more connections can be accepted",
        Status::SessionFull => "2^40 bytes of input came without their end",
        Status::ClockFault => "the clock failed",
    };
    let _ = eprintln!(rt; "tsd: {cause}");
}

/// Writes why a port can't be bound.
pub fn tell_bind_error(rt: &impl Eprint, port: u16, address: Option<IpAddr>, error: &io::Error) {
    let _ = match address {
        Some(address) => eprintln!(rt; "tsd: port {port} of {address} can't be bound: {error}"),
        None => eprintln!(rt; "tsd: port {port} can't be bound: {error}"),
    };
}
