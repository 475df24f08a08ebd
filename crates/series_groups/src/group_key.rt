//! What tells the groups of a sub query apart.
ghost use Rattle.std.specs.Prelude.{◌≡◌, IfOk, Some, refl};
ghost use Rattle.std.specs.Cmp as laws;
ghost use Rattle.tsd_base.specs.TagList.{is_same_tags, tags_cmp};
ghost use Rattle.tsd_base.specs.TagOrder.{is_same_tags_equiv, tags_cmp_total, tags_po, tags_ties};
ghost use Rattle.group_by.specs.TagFilters.{group_key};

use group_by::group_key;
use query_text::queries::Sub;
use std::alloc::{AllocError, Global};
use std::cmp::Ordering;
use std::marker::Model;
use tsd_base::names::Name;
use tsd_base::tags::Tags;

/// The pairs that the series of one group share by the filters that group. Contracts see it as the list of these pairs.
#[derive(Drop)]
pub(crate) struct GroupKey {
    pairs: Vec<(Name, Name)>,
}

impl Model for GroupKey {
    ghost use Rattle.std.specs.Prelude.{List, ℕ};

    ghost Value = { List (List ℕ × List ℕ) };

    ghost view = { λ key. key.pairs.items };
}

impl GroupKey {
    /// The key of the group to which a series with these tags belongs.
    pub(crate) fn of(alloc: Global, sub: &Sub, tags: &Tags) -> Result<GroupKey, AllocError>
        ensures { IfOk result (λ key. key ≡ group_key sub.now tags.now) }
    {
        let pairs = group_key(alloc, sub, tags)?;
        Ok(GroupKey { pairs })
    }
}

impl PartialEq for GroupKey {
    ghost eq = { is_same_tags };

    ghost laws = { laws.partial_equiv_from_equiv is_same_tags_equiv };

    fn eq(&self, other: &Self) -> bool {
        self.pairs == other.pairs
    }
}

impl Eq for GroupKey {
    ghost laws = { is_same_tags_equiv };
}

impl PartialOrd for GroupKey {
    ghost partial_cmp = { λ x y. Some (tags_cmp x y) };

    ghost laws = { tags_po };

    fn partial_cmp(&self, other: &Self) -> Option<Ordering> {
        Some(self.cmp(other))
    }
}

/// Keys are in the order of their pairs from the left, each by key and then by value.
impl Ord for GroupKey {
    ghost cmp = { tags_cmp };

    ghost total = { tags_cmp_total };

    ghost matches_partial_cmp = { λ x y. refl };

    ghost matches_eq = { tags_ties };

    fn cmp(&self, other: &Self) -> Ordering {
        self.pairs.as_slice().cmp(&other.pairs.as_slice())
    }
}
