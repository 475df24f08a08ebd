//! `tsd`, a time-series database. The program reads its words, does what they ask and ends with a status, whose cause it tells.
#![tactic(auto)]

mod cause_lines;
mod fleet_needs;
mod thread_trial;

use crate::cause_lines::{tell_bind_error, tell_cause};
use crate::fleet_needs::fleet_address;
use command_words::read_fleet;
use std::alloc::{AllocError, Global};
use std::env;
use std::io::ErrorKind;
use std::process::ExitCode;
use tsd_doors::tcp_doors::TcpDoors;
use tsd_io::halt::MemHalt;
use tsd_io::standard::{ReadSource, SystemClock, WriteSink};
use tsd_run::Status;
use tsd_run::run::run;

/// The size in bytes of the block that [`keep_freed`] takes.
const BLOCK: usize = 16 * 1024 * 1024;

fn main(rt: HostRuntime) -> ExitCode {
    let net: Result<_, _> = rt.clone();
    let (Ok(words), Ok(net)) = (words(&rt), net) else {
        return memory_end(&rt);
    };
    let Ok(fleet) = read_fleet(rt.alloc(), &words) else {
        return memory_end(&rt);
    };
    let address = match &fleet {
        Some(fleet) => match fleet_address(&rt, fleet) {
            Ok(address) => address,
            Err(status) => return ExitCode::from(status.number()),
        },
        None => None,
    };
    if is_session(&words) {
        keep_freed(rt.alloc());
    }
    let mut input = ReadSource::make(rt.stdin());
    let mut output = WriteSink::make(rt.stdout());
    let mut clock = SystemClock::make(&rt);
    let mut doors = TcpDoors::make(net, rt.alloc(), address);
    let never = MemHalt::make(Vec::new(rt.alloc()));
    let status = run(
        &rt,
        rt.alloc(),
        &words,
        &mut input,
        &mut output,
        &mut clock,
        never,
        &mut doors,
    )
    .status;
    match (&fleet, doors.bind_error()) {
        (Some(fleet), Some(error)) => tell_bind_error(&rt, fleet.port, address, error),
        _ => tell_cause(&rt, status),
    }
    ExitCode::from(status.number())
}

/// How the program ends where there is no memory to begin.
fn memory_end(rt: &HostRuntime) -> ExitCode {
    tell_cause(rt, Status::Memory);
    ExitCode::from(Status::Memory.number())
}

/// Whether the words may ask for more than the one query of `batch`.
fn is_session(words: &[String]) -> bool {
    match words.first() {
        Some(word) => word.as_str() != "batch",
        None => false,
    }
}

/// Lets the process keep memory that is given back, for what asks next.
///
/// The C library hands what is free at the end of its heap back to the system where that is more than twice the largest block that
/// was given back before, and the system clears each page that it gives again: a quarter of a query's time. So a block is taken
/// here and given back, of which no page is touched.
fn keep_freed(alloc: Global) {
    let _: Result<Vec<u8>, AllocError> = Vec::with_capacity(alloc, BLOCK);
}

/// The words after the program's name. Words that are no text stand as no words, which are no command.
fn words(rt: &HostRuntime) -> Result<Vec<String>, AllocError> {
    match env::args(rt) {
        Ok(words) => words.skip(1).collect(rt.alloc()),
        Err(error) if error.kind() == ErrorKind::OutOfMemory => Err(AllocError),
        Err(_) => Ok(Vec::new(rt.alloc())),
    }
}
