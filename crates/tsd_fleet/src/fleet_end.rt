//! Why a fleet ended.
ghost use Rattle.std.specs.Prelude.{◌≡◌, ◌≢◌, true, false};
ghost use Rattle.std.specs.List.{list_any};
ghost use Rattle.tsd_fleet.specs.FleetServes.{is_die};

use link_acceptor::accept_loop::AcceptEnd;
use tsd_daemon::Served;

/// Why a fleet ended.
#[derive(Clone, Copy, Debug, PartialEq, Eq)]
pub enum FleetEnd {
    /// No more connections came.
    Closed,
    /// No more connections came, and on one the request `diediedie` came.
    Died,
    /// The halt refused to accept one more.
    Stopped,
    /// The doors failed.
    DoorFault,
    /// The output failed.
    WriteFault,
    /// There was no memory.
    OutOfMemory,
}

/// Why a fleet ended whose accepting ended so, with these ends of its connections.
pub(crate) fn fleet_end(end: AcceptEnd, ends: &[Served]) -> FleetEnd
    ensures closed { result ≡ FleetEnd.Closed → (end ≡ AcceptEnd.NoneLeft) × (list_any is_die ends.now ≡ false) }
    ensures died { result ≡ FleetEnd.Died → (end ≡ AcceptEnd.NoneLeft) × (list_any is_die ends.now ≡ true) }
    ensures stopped { result ≡ FleetEnd.Stopped → end ≡ AcceptEnd.Stopped }
    ensures stops { end ≡ AcceptEnd.Stopped → result ≡ FleetEnd.Stopped }
    ensures door_fault { result ≡ FleetEnd.DoorFault → end ≡ AcceptEnd.DoorFault }
    ensures memory { end ≡ AcceptEnd.OutOfMemory → result ≡ FleetEnd.OutOfMemory }
    ensures no_write { result ≢ FleetEnd.WriteFault }
{
    match end {
        AcceptEnd::NoneLeft => {
            if has_died(ends) {
                FleetEnd::Died
            } else {
                FleetEnd::Closed
            }
        }
        AcceptEnd::Stopped => FleetEnd::Stopped,
        AcceptEnd::DoorFault => FleetEnd::DoorFault,
        AcceptEnd::OutOfMemory => FleetEnd::OutOfMemory,
    }
}

/// Whether the request to end the program came on one of these connections.
fn has_died(ends: &[Served]) -> bool
    ensures { result ≡ list_any is_die ends.now }
{
    ends.iter().any(is_die)
}

/// Whether the connection ended by the request to end the program.
fn is_die(end: &Served) -> bool
    ensures { result ≡ is_die end.now }
{
    *end == Served::Die
}
