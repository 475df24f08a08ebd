//! What connections of a fleet are served by.

use std::marker::Brand;

/// Which names are given ids, and which moments the fleet's clock had to give at first. It has no method: contracts alone speak of it.
pub trait ConnTerms {
    ghost use Rattle.std.specs.Prelude.{ℕ, List, Option};
    ghost use Rattle.point_put.specs.Admissions.{Admission};

    ghost admission: { Admission };

    ghost moments: { Option (List ℕ) };
}

impl ConnTerms for Brand {
    ghost use Rattle.std.specs.Prelude.{None};
    ghost use Rattle.conn_workers.specs.ServedLinks.{no_names};

    ghost admission = { no_names };

    ghost moments = { None };
}
