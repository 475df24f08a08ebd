//! What a fleet needs of the system before it begins. What is wanting is told on standard error.
ghost use Rattle.command_words.specs.PlainAsked.{IsFleet};

use crate::cause_lines::tell_cause;
use crate::thread_trial::threads_given;
use command_words::Serve;
use std::env;
use std::env::VarError;
use std::net::IpAddr;
use std::rt::{Clock, Env};
use std::sync::Wait;
use std::thread::Threads;
use tsd_run::Status;

/// The variable of the environment that names the address of a fleet.
const ADDRESS: &str = "TSD_ADDRESS";

/// The address for a fleet, or none for all interfaces, where the system gives it threads enough too.
///
/// Err is the status to end with.
pub fn fleet_address<R: Threads + Wait + Clock + Env + Alloc + Eprint + Sync>(
    rt: &R,
    fleet: &Serve<'_>,
) -> Result<Option<IpAddr>, Status>
    requires fleet { IsFleet fleet.now }
{
    let address = named_address(rt)?;
    if has_threads(rt, fleet) {
        Ok(address)
    } else {
        Err(Status::Memory)
    }
}

/// The address that the environment names, if it names one.
fn named_address<R: Env + Alloc + Eprint>(rt: &R) -> Result<Option<IpAddr>, Status> {
    match env::var(rt, ADDRESS) {
        Ok(text) => match text.parse() {
            Ok(address) => Ok(Some(address)),
            Err(_) => {
                let _ = eprintln!(rt; "tsd: {ADDRESS} is no address: {text}");
                Err(Status::DoorFault)
            }
        },
        Err(VarError::NotPresent) => Ok(None),
        Err(VarError::NotUnicode) => {
            let _ = eprintln!(rt; "tsd: {ADDRESS} is no address");
            Err(Status::DoorFault)
        }
        Err(VarError::OutOfMemory) => {
            tell_cause(rt, Status::Memory);
            Err(Status::Memory)
        }
    }
}

/// Whether the system gives threads enough that each queue of connections has a worker.
///
/// Each worker has one, and so has the compaction worker of each queue, which may be given one first.
fn has_threads<R: Threads + Wait + Clock + Eprint + Sync>(rt: &R, fleet: &Serve<'_>) -> bool
    requires fleet { IsFleet fleet.now }
{
    let workers = fleet.daemons * fleet.workers;
    let wanted = workers + fleet.daemons;
    let given = threads_given(rt, wanted);
    let missing = wanted.saturating_sub(given);
    if missing >= fleet.workers {
        let _ = eprintln!(rt;
            "tsd: {given} of {wanted} threads can be made, so connections would wait for ever"
        );
        return false;
    }
    if missing > 0 {
        let serving = workers - missing;
        let _ = eprintln!(rt;
            "tsd: {given} of {wanted} threads can be made, so {serving} of {workers} workers serve"
        );
    }
    true
}
