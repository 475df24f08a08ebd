//! How callers of a site open.
ghost use Rattle.std.specs.Prelude.{◌≡◌};
ghost use Rattle.step_count.specs.Tokens.{counter_of_licence, counter_of_steps, view_of_licence, view_of_steps};
ghost use Rattle.region_locks.specs.CallerViews.{IsOpener, opened_numbers};

use region_locks::step_names::StepNames;
use std::marker::{Model, PhantomData};
use step_count::{Licence, Steps};

/// By it callers of a site open. There is one for each site, so it has all of them.
///
/// Contracts see it as the numbers of the callers that opened, in order.
#[derive(Drop)]
pub struct Openings<J: StepNames> {
    pub(crate) steps: Steps,
    of: PhantomData<J>,
}

impl<J: StepNames> Model for Openings<J> {
    ghost use Rattle.std.specs.Prelude.{◌≡◌, ℕ, List};
    ghost use Rattle.step_count.specs.Tokens.{counter_of_steps, view_of_steps};
    ghost use Rattle.region_locks.specs.CallerViews.{IsOpener, opened_numbers};

    ghost Value = { List ℕ };

    ghost view = { λ o. opened_numbers (view_of_steps o.steps) };

    ghost invariant = { λ o. (counter_of_steps o.steps ≡ J.counter) × IsOpener J.name (view_of_steps o.steps) };
}

impl<J: StepNames> Openings<J> {
    /// The openings of this counter.
    pub(crate) fn of(steps: Steps) -> Self
        requires counter { counter_of_steps steps ≡ J.counter }
        requires opener { IsOpener J.name (view_of_steps steps) }
        ensures { result ≡ opened_numbers (view_of_steps steps) }
    {
        Openings {
            steps,
            of: PhantomData,
        }
    }

    /// The licence of openings: nobody opens any more.
    pub(crate) fn close(self) -> Licence
        ensures counter { counter_of_licence result ≡ J.counter }
        ensures opener { IsOpener J.name (view_of_licence result) }
        ensures numbers { opened_numbers (view_of_licence result) ≡ self }
    {
        let Openings { steps, of: _ } = self;
        steps.close()
    }
}
