//! Where an operation began.

use std::marker::Brand;

/// The history when an operation began, and whose operation it is. It has no method: contracts alone speak of it.
pub trait Beginning {
    ghost use Rattle.std.specs.Prelude.{ℕ};
    ghost use Rattle.cell_model.specs.History.{History};

    ghost history: { History };

    ghost caller: { ℕ };
}

impl Beginning for Brand {
    ghost use Rattle.weave_rows.specs.WovenHistories.{begun};

    ghost history = { begun };

    ghost caller = { 1 };
}
