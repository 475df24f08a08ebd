//! What tells the series of a metric apart.
ghost use Rattle.std.specs.Prelude.{Some, refl};
ghost use Rattle.std.specs.Cmp as laws;
ghost use Rattle.span_merge.specs.Spans.{pairs_cmp};
ghost use Rattle.series_meta.specs.PairsOrder.{is_same_pairs, pairs_cmp_total, pairs_po, pairs_ties, same_pairs_equiv};

use arrayvec::ArrayVec;
use std::cmp::Ordering;
use std::marker::Model;

/// The ids of a series' tags, each key's and its value's. Contracts see it as the list of these pairs.
#[derive(Drop)]
pub(crate) struct SeriesIds {
    pub(crate) pairs: ArrayVec<(u32, u32), 8>,
}

impl Model for SeriesIds {
    ghost use Rattle.std.specs.Prelude.{List, ℕ};

    ghost Value = { List (ℕ × ℕ) };

    ghost view = { λ ids. ids.pairs.items };
}

impl PartialEq for SeriesIds {
    ghost eq = { is_same_pairs };

    ghost laws = { laws.partial_equiv_from_equiv same_pairs_equiv };

    fn eq(&self, other: &Self) -> bool {
        self.pairs.as_slice() == other.pairs.as_slice()
    }
}

impl Eq for SeriesIds {
    ghost laws = { same_pairs_equiv };
}

impl PartialOrd for SeriesIds {
    ghost partial_cmp = { λ x y. Some (pairs_cmp x y) };

    ghost laws = { pairs_po };

    fn partial_cmp(&self, other: &Self) -> Option<Ordering> {
        Some(self.cmp(other))
    }
}

/// They are in the order of their pairs from the left, each by the key's id and then by the value's.
impl Ord for SeriesIds {
    ghost cmp = { pairs_cmp };

    ghost total = { pairs_cmp_total };

    ghost matches_partial_cmp = { λ x y. refl };

    ghost matches_eq = { pairs_ties };

    fn cmp(&self, other: &Self) -> Ordering {
        self.pairs.as_slice().cmp(other.pairs.as_slice())
    }
}
