//! Ids, kept in order.
ghost use Rattle.std.specs.Prelude.{◌≡◌, ◌≤◌, length, nat_eq};
ghost use Rattle.std.specs.List.{list_any};
ghost use Rattle.std.specs.List.Sorted.{IsPermutation};
ghost use Rattle.metric_scan.specs.IdSets.{IsLeastAbove, IsPlaceAbove};

use std::marker::Model;

/// Ids, which are kept in order, so that one is found in few steps.
#[derive(Drop)]
pub struct IdSet {
    list: Vec<u32>,
}

impl Model for IdSet {
    ghost use Rattle.std.specs.Prelude.{List, ℕ};
    ghost use Rattle.metric_scan.specs.IdSets.{Rise};

    ghost Value = { List ℕ };

    ghost view = { λ ids. ids.list.items };

    ghost invariant = { λ ids. Rise ids.list.items };
}

impl IdSet {
    /// These ids.
    pub(crate) fn of(mut list: Vec<u32>) -> IdSet
        ensures { IsPermutation list.items result }
    {
        list.sort_unstable();
        IdSet { list }
    }

    /// Whether the id is among these.
    pub(crate) fn contains(&self, id: u32) -> bool
        ensures { result ≡ list_any (nat_eq id) self.now }
    {
        self.list.binary_search(&id).is_ok()
    }

    /// The place of the first id above a value, or how many there are.
    fn place_above(&self, value: u32) -> usize
        ensures { IsPlaceAbove value self.now result }
    {
        self.list.partition_point(|id| *id <= value)
    }

    /// The least of the ids that is above a value and up to the greatest that there can be, or None where there is none.
    pub(crate) fn least_above(&self, value: u32, most: u32) -> Option<u32>
        ensures { IsLeastAbove most value self.now result }
    {
        let at = self.place_above(value);
        if at == self.list.len() {
            return None;
        }
        let id = self.list[at];
        if id <= most { Some(id) } else { None }
    }
}
