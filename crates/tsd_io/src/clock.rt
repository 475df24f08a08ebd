//! What tells the time, and a clock in memory, whose times and failures are chosen beforehand.
ghost use Rattle.std.specs.Prelude.{◌≡◌, ◌≤◌, ◌∷◌, ◌↔◌, ℕ, List, [], Option, Some, IsOk, IsErr, IfOk, OnErr, Contains, drop};
ghost use Rattle.tsd_io.specs.Causes.{HasCause, joined};
ghost use Rattle.tsd_io.specs.Memory.{faults_after, moments_of};
ghost use Rattle.tsd_io.specs.Ticks.{Ticks, IsCalled};

use crate::ports::Failed;
use std::alloc::{AllocError, Global};
use std::marker::Model;

/// What tells the time, in milliseconds since 1970.
pub trait Clock: Sized {
    /// The moments that it will give, where it tells them.
    ghost moments: { Self → Option (List ℕ) };

    /// How often it failed. It never falls, and stands still at the last `u64`.
    ghost faults: { Self → ℕ };

    /// How often it was called, where it tells that. It stands still at the last `u64`.
    ghost calls: { Self → Option ℕ };

    /// The moment that it is now.
    ///
    /// Where the moments are told it is the first of them, which is taken off, but the last one stays. After `Failed` the moments
    /// are as before, and the next call may go on. A call that fails counts too.
    fn now(&mut self) -> Result<u64, Failed>
        ensures ok { IfOk result (λ moment. Ticks (moments self.old) moment (moments self.new)) }
        ensures err { OnErr result (moments self.new ≡ moments self.old) }
        ensures cause { HasCause (faults self.old) (faults self.new) result }
        ensures calls { IsCalled (calls self.old) (calls self.new) };

    /// A clock in the same state, with a count of faults of its own that begins at 0. It fails only for want of memory.
    fn twin(&self, alloc: Global) -> Result<Self, AllocError>
        ensures moments { IfOk result (λ twin. moments twin ≡ moments self.now) }
        ensures fresh { IfOk result (λ twin. faults twin ≡ 0) };

    /// Takes a twin back, and adds its count of faults. What is told stays.
    fn rejoin(&mut self, twin: Self)
        ensures moments { moments self.new ≡ moments self.old }
        ensures faults { faults self.new ≡ joined (faults self.old) (faults twin) }
        ensures later { faults self.old ≤ faults self.new };
}

/// A clock in memory.
///
/// It gives its times in order, and the last one again and again. The calls whose numbers are on its list fail, and with an
/// empty list none does.
#[derive(Drop)]
pub struct MemClock {
    time: u64,
    times: Vec<u64>,
    given: usize,
    failing: Vec<u64>,
    calls: u64,
    faults: u64,
}

impl Model for MemClock {
    ghost use Rattle.std.specs.Prelude.{◌∷◌, drop};
    ghost use Rattle.tsd_io.specs.Memory.{ClockInMemory};

    ghost Value = { ClockInMemory };

    ghost view = { λ s. record {
      moments = s.time ∷ drop s.given s.times.items;
      failing = s.failing.items;
      calls = s.calls;
      faults = s.faults;
    } };
}

impl MemClock {
    /// A clock that gives these times, in milliseconds since 1970, or 0 where there is none.
    ///
    /// `failing` has the numbers, from 1, of the calls of `now` that fail.
    pub fn make(times: Vec<u64>, failing: Vec<u64>) -> MemClock
        ensures { result ≡ record { moments = moments_of times.items; failing = failing.items; calls = 0; faults = 0 } }
    {
        MemClock {
            time: first_time(&times),
            times,
            given: 1,
            failing,
            calls: 0,
            faults: 0,
        }
    }
}

/// The first time, or 0 where there is none.
fn first_time(times: &[u64]) -> u64
    ensures { result ∷ drop 1 times.now ≡ moments_of times.now }
{
    match times.first() {
        Some(time) => *time,
        None => 0,
    }
}

impl Clock for MemClock {
    ghost moments = { λ s. Some s.moments };

    ghost faults = { λ s. s.faults };

    ghost calls = { λ s. Some s.calls };

    fn now(&mut self) -> Result<u64, Failed>
        // As of each clock.
        ensures ok { IfOk result (λ moment. Ticks (Some self.old.moments) moment (Some self.new.moments)) }
        ensures err { OnErr result (Some self.new.moments ≡ Some self.old.moments) }
        ensures cause { HasCause self.old.faults self.new.faults result }
        ensures calls { IsCalled (Some self.old.calls) (Some self.new.calls) }

        // The calls on the list fail, and no others.
        ensures failing { self.new.failing ≡ self.old.failing }
        ensures fails { IsErr result ↔ Contains self.old.failing self.new.calls }
        ensures never { self.old.failing ≡ [] → IsOk result }
        ensures faults { self.new.faults ≡ faults_after self.old.faults result }
    {
        self.calls = self.calls.saturating_add(1);
        if self.failing.contains(&self.calls) {
            self.faults = self.faults.saturating_add(1);
            return Err(Failed);
        }
        let time = self.time;
        if self.given < self.times.len() {
            self.time = self.times[self.given];
            self.given += 1;
        }
        Ok(time)
    }

    fn twin(&self, alloc: Global) -> Result<MemClock, AllocError>
        // As of each clock.
        ensures moments { IfOk result (λ twin. Some twin.moments ≡ Some self.now.moments) }
        ensures fresh { IfOk result (λ twin. twin.faults ≡ 0) }

        // All but the count is the same.
        ensures same { IfOk result (λ twin. twin ≡ record self.now { faults = 0 }) }
    {
        Ok(MemClock {
            time: self.time,
            times: self.times.clone()?,
            given: self.given,
            failing: self.failing.clone()?,
            calls: self.calls,
            faults: 0,
        })
    }

    fn rejoin(&mut self, twin: MemClock)
        // As of each clock.
        ensures moments { Some self.new.moments ≡ Some self.old.moments }
        ensures faults { self.new.faults ≡ joined self.old.faults twin.faults }
        ensures later { self.old.faults ≤ self.new.faults }

        // All but the count stays.
        ensures same { self.new ≡ record self.old { faults = joined self.old.faults twin.faults } }
    {
        self.faults = self.faults.saturating_add(twin.faults);
    }
}
