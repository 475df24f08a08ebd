//! The port of a fleet, and the line that tells it.
ghost use Rattle.std.specs.Prelude.{◌≡◌, ◌≤◌, [], Err, IfOk, OnOk, IfErr};
ghost use Rattle.std.specs.Io.KnownBytes.{Appends};
ghost use Rattle.tsd_fleet.specs.FleetServes.{BeginsToListen, IsListenFault, Listens, listening_line};

use crate::fleet_end::FleetEnd;
use std::alloc::{AllocError, Global};
use tsd_base::decimals::write_number;
use tsd_doors::doors::Doors;
use tsd_io::give_all::give_all;
use tsd_io::ports::Sink;

/// Binds a port, and writes the line that tells it. Where that fails, a front of the line may have been written.
pub(crate) fn listen<D: Doors, K: Sink>(
    alloc: Global,
    port: u16,
    doors: &mut D,
    output: &mut K,
) -> Result<(), FleetEnd>
    ensures ok { OnOk result (Listens port (K.held output.old) (K.held output.new) (D.counts doors.new)) }
    ensures begins { BeginsToListen port (K.held output.old) (K.held output.new) (D.counts doors.new) }
    ensures silent { result ≡ Err FleetEnd.DoorFault → Appends (K.held output.old) (K.held output.new) [] }
    ensures returned { (D.counts doors.new).returned ≡ (D.counts doors.old).returned }
    ensures out { (D.counts doors.new).out ≡ (D.counts doors.old).out }
    ensures waiting { D.waiting doors.new ≡ D.waiting doors.old }
    ensures back { D.back doors.new ≡ D.back doors.old }
    ensures failed { IfErr result (λ end. IsListenFault end (D.faults doors.old) (D.faults doors.new) (K.faults output.old) (K.faults output.new)) }
    ensures later { D.faults doors.old ≤ D.faults doors.new }
    ensures writes_later { K.faults output.old ≤ K.faults output.new }
{
    let Ok(bound) = doors.bind(port) else {
        return Err(FleetEnd::DoorFault);
    };
    let Ok(line) = listening_line(alloc, bound) else {
        return Err(FleetEnd::OutOfMemory);
    };
    match give_all(output, &line) {
        Ok(()) => Ok(()),
        Err(_) => Err(FleetEnd::WriteFault),
    }
}

/// The line that tells the port.
#[tactic(auto, using(std::proofs::lemmas::List::append_assoc))]
fn listening_line(alloc: Global, port: u16) -> Result<Vec<u8>, AllocError>
    ensures { IfOk result (λ line. line.items ≡ listening_line port) }
{
    let mut line = Vec::from_slice(alloc, b"listening ")?;
    write_number(u64::from(port), &mut line)?;
    line.extend_from_slice(b"\n")?;
    Ok(line)
}
