//! How a caller names the step counter of a site.

use std::marker::Brand;

/// Which step counter it is, and over which store. It has no method: contracts alone speak of it.
pub trait StepNames {
    ghost use Rattle.atomic_table.specs.Seated.{TableId};
    ghost use Rattle.step_count.specs.declared.view.Named.{Named};

    ghost counter: { TableId };

    ghost name: { Named };
}

impl StepNames for Brand {
    ghost use Rattle.std.specs.Prelude.{None};
    ghost use Rattle.step_count.specs.FirstViews.{name_in};
    ghost use Rattle.region_locks.specs.CallerViews.{no_counter};

    ghost counter = { no_counter };

    ghost name = { name_in None };
}
