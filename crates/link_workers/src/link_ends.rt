//! What a worker has served, and how it is given back to the doors.
ghost use Rattle.std.specs.Prelude.{◌≡◌, ◌<◌, ◌≤◌, ◌+◌, ◌++◌, [], length, map, vec_capacity, IfOk, OnErr};
ghost use Rattle.link_workers.specs.Returns.{AllEnd, many_returned};

use std::alloc::{AllocError, Global};
use tsd_doors::doors::Doors;

/// What the connections of one worker are served with, and those that it has served.
#[derive(Drop)]
pub struct LinkEnds<W: Drop, K: Drop, E: Drop> {
    /// What they are served with.
    pub work: W,

    /// What is kept of each connection that was served, and its end, in the order of serving.
    pub ends: Vec<(K, E)>,
}

impl<W: Drop, K: Drop, E: Drop> LinkEnds<W, K, E> {
    /// No connection was served yet.
    pub fn make(alloc: Global, work: W) -> LinkEnds<W, K, E>
        ensures work { result.work ≡ work }
        ensures none { result.ends.items ≡ [] }
    {
        LinkEnds {
            work,
            ends: Vec::new(alloc),
        }
    }

    /// Takes room for a further end. It fails only for want of memory.
    pub(crate) fn take_room(&mut self) -> Result<(), AllocError>
        ensures work { self.new.work ≡ self.old.work }
        ensures ends { self.new.ends.items ≡ self.old.ends.items }
        ensures room { IfOk result (λ _. length self.new.ends.items < vec_capacity self.new.ends) }
    {
        self.ends.reserve(1)
    }
}

/// Gives the connections that were served back to the doors, in order, and adds their ends to those given.
///
/// After an `Err`, for want of memory, none was given back.
pub fn give_back<D: Doors, E: Drop>(
    doors: &mut D,
    served: Vec<(D::Kept, E)>,
    ends: &mut Vec<E>,
) -> Result<(), AllocError>
    requires few { length served.items ≤ (D.counts doors.old).out }
    ensures ends { IfOk result (λ _. ends.new.items ≡ ends.old.items ++ map (λ one. one.1) served.items) }
    ensures back { IfOk result (λ _. AllEnd (D.back doors.old) (D.back doors.new) (map (λ one. D.shown one.0) served.items)) }
    ensures counts { IfOk result (λ _. D.counts doors.new ≡ many_returned (length served.items) (D.counts doors.old)) }
    ensures waiting { D.waiting doors.new ≡ D.waiting doors.old }
    ensures faults { D.faults doors.new ≡ D.faults doors.old }
    ensures err { OnErr result ((D.back doors.new ≡ D.back doors.old) × (D.counts doors.new ≡ D.counts doors.old) × (ends.new.items ≡ ends.old.items)) }
{
    ends.reserve(served.len())?;
    give_each(doors, served, ends);
    Ok(())
}

/// Gives connections back in order. There is room for their ends.
fn give_each<D: Doors, E: Drop>(doors: &mut D, served: Vec<(D::Kept, E)>, ends: &mut Vec<E>)
    requires few { length served.items ≤ (D.counts doors.old).out }
    requires room { length ends.old.items + length served.items ≤ vec_capacity ends.old }
    ensures ends { ends.new.items ≡ ends.old.items ++ map (λ one. one.1) served.items }
    ensures back { AllEnd (D.back doors.old) (D.back doors.new) (map (λ one. D.shown one.0) served.items) }
    ensures counts { D.counts doors.new ≡ many_returned (length served.items) (D.counts doors.old) }
    ensures waiting { D.waiting doors.new ≡ D.waiting doors.old }
    ensures faults { D.faults doors.new ≡ D.faults doors.old }
{
    for one in served {
        let (kept, end) = one;
        doors.give_back(kept);
        ends.push_reserved(end);
    }
}
