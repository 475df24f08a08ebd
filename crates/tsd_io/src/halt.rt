//! What may refuse a step, and a halt in memory, whose refusals are chosen beforehand.
ghost use Rattle.std.specs.Prelude.{◌≡◌, ℕ, Bool, true, []};
ghost use Rattle.tsd_io.specs.Halts.{CountsStops};
ghost use Rattle.tsd_io.specs.Memory.{AsksInMemory};

use std::marker::Model;

/// What may refuse the next step.
pub trait Halt {
    /// How often it refused. It never falls, and stands still at the last `u64`.
    ghost stops: { Self → ℕ };

    /// Holds of the state before an ask, its answer and the state after.
    ghost answers: { Self → Bool → Self → Type 0 };

    /// Asks whether the next step may be made.
    fn may_step(&mut self) -> bool
        ensures answers { answers self.old result self.new }
        ensures stops { CountsStops (stops self.old) (stops self.new) result };
}

/// A halt in memory.
///
/// The asks whose numbers are on its list are refused, and with an empty list none is.
#[derive(Drop)]
pub struct MemHalt {
    refused: Vec<u64>,
    asks: u64,
    stops: u64,
}

impl Model for MemHalt {
    ghost use Rattle.tsd_io.specs.Memory.{HaltInMemory};

    ghost Value = { HaltInMemory };

    ghost view = { λ s. record { refused = s.refused.items; asks = s.asks; stops = s.stops } };
}

impl MemHalt {
    /// A halt that refuses the asks with these numbers, from 1.
    pub fn make(refused: Vec<u64>) -> MemHalt
        ensures { result ≡ record { refused = refused.items; asks = 0; stops = 0 } }
    {
        MemHalt {
            refused,
            asks: 0,
            stops: 0,
        }
    }
}

impl Halt for MemHalt {
    ghost stops = { λ s. s.stops };

    ghost answers = { AsksInMemory };

    fn may_step(&mut self) -> bool
        // As of each halt.
        ensures answers { AsksInMemory self.old result self.new }
        ensures stops { CountsStops self.old.stops self.new.stops result }

        // With an empty list none is refused.
        ensures never { self.old.refused ≡ [] → result ≡ true }
    {
        self.asks = self.asks.saturating_add(1);
        let may = !self.refused.contains(&self.asks);
        if !may {
            self.stops = self.stops.saturating_add(1);
        }
        may
    }
}
