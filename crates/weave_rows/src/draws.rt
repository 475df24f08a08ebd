//! The numbers by which a script goes on.
ghost use Rattle.std.specs.Prelude.{◌≤◌, ◌<◌};

// By these the state goes on, modulo 2^64: a multiple of it, and a number more.
const FACTOR: u64 = 6_364_136_223_846_793_005;

const STEP: u64 = 1_442_695_040_888_963_407;

/// A generator, whose state is 64 bits.
#[derive(Drop)]
pub(crate) struct Draws {
    state: u64,
}

impl Draws {
    /// The generator that begins with a seed.
    pub(crate) fn seeded(seed: u64) -> Draws {
        Draws { state: seed }
    }

    /// The next number below a bound: the state goes on, and its upper 31 bits are divided by the bound.
    pub(crate) fn below(&mut self, bound: u32) -> u32
        requires { 1 ≤ bound }
        ensures { result < bound }
    {
        self.state = self.state.wrapping_mul(FACTOR).wrapping_add(STEP);
        (self.state >> 33) as u32 % bound
    }
}
