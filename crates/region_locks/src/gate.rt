//! What is called inside a region's lock.
ghost use Rattle.std.specs.Prelude.{◌≡◌, true};

/// It is called inside a region's lock, before each step on the region, with the region's number.
pub trait Gate {
    ghost use Rattle.std.specs.Prelude.{ℕ, Bool};

    /// Whether a step on the region may begin. Only a call tells it, so that a step which asks it was called for.
    ghost lets_in: { Self → ℕ → Bool };

    /// It may wait, and the caller then holds the region's lock.
    fn inside(&self, region: u32)
        ensures { lets_in self.now region ≡ true };
}

/// A gate that does nothing.
#[derive(Drop)]
pub struct NoGate;

impl Gate for NoGate {
    ghost use Rattle.std.specs.Prelude.{true};

    ghost lets_in = { λ _ _. true };

    fn inside(&self, region: u32) {
        let _region = region;
    }
}
