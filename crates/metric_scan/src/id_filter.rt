//! Filters by the ids of their names.
ghost use Rattle.std.specs.Prelude.{◌≡◌};
ghost use Rattle.metric_scan.specs.IdFilters.{passes, passes_filter, passes_test};

use crate::id_set::IdSet;

/// What a filter asks of the id of its key's value.
#[derive(Drop)]
pub enum IdTest {
    /// Any.
    Any,
    /// One of these.
    OneOf { ids: IdSet },
    /// None of these.
    NotOneOf { ids: IdSet },
}

/// A filter: the series that have this key with a value that passes the test.
#[derive(Drop)]
pub struct IdFilter {
    /// The id of the key.
    pub key: u32,
    /// What is asked of the value's id.
    pub test: IdTest,
}

/// Whether a series with these pairs of ids passes each of the filters.
pub(crate) fn passes(filters: &[IdFilter], pairs: &[(u32, u32)]) -> bool
    ensures { result ≡ passes filters.now pairs.now }
{
    filters.iter().all(|filter| passes_filter(filter, pairs))
}

pub(crate) fn passes_filter(filter: &IdFilter, pairs: &[(u32, u32)]) -> bool
    ensures { result ≡ passes_filter filter.now pairs.now }
{
    pairs.iter().any(|pair| filter.key == pair.0 && passes_test(&filter.test, pair.1))
}

fn passes_test(test: &IdTest, id: u32) -> bool
    ensures { result ≡ passes_test test.now id }
{
    match test {
        IdTest::Any => true,
        IdTest::OneOf { ids } => ids.contains(id),
        IdTest::NotOneOf { ids } => !ids.contains(id),
    }
}
