//! Filters over the tags of a series.
ghost use Rattle.std.specs.Prelude.{◌≡◌, false, All, IfOk};
ghost use Rattle.tsd_base.specs.TagList.{RiseByKey};
ghost use Rattle.group_by.specs.TagFilters.{passes, passes_filter, passes_test, nowhere, is_pattern, Finds, is_none, has_grouping, is_grouped, group_key};

use crate::wildcards::fits;
use query_text::queries::{Filter, Sub, Test};
use std::alloc::{AllocError, Global};
use tsd_base::kinds::Aggregator;
use tsd_base::names::Name;
use tsd_base::tags::Tags;

/// Whether a series with these tags passes each of the filters, none of which is a pattern. It passes none whose key it hasn't.
pub fn passes(filters: &[Filter], tags: &Tags) -> bool
    requires { All (λ f. is_pattern f.test ≡ false) filters.now }
    ensures { (finds : Finds) → result ≡ passes finds filters.now tags.now }
{
    passes_plain(filters, tags)
}

/// The same, where no value passes a pattern.
fn passes_plain(filters: &[Filter], tags: &Tags) -> bool
    ensures { result ≡ passes nowhere filters.now tags.now }
{
    filters
        .iter()
        .all(|filter| passes_filter(filter, tags.pairs()))
}

fn passes_filter(filter: &Filter, pairs: &[(Name, Name)]) -> bool
    ensures { result ≡ passes_filter nowhere filter.now pairs.now }
{
    pairs.iter().any(|pair| filter.key == pair.0 && passes_plain_test(&filter.test, &pair.1))
}

/// Whether a value passes a test, which is no pattern.
pub fn passes_test(test: &Test, value: &Name) -> bool
    requires { is_pattern test.now ≡ false }
    ensures { (finds : Finds) → result ≡ passes_test finds test.now value.now }
{
    passes_plain_test(test, value)
}

fn passes_plain_test(test: &Test, value: &Name) -> bool
    ensures { result ≡ passes_test nowhere test.now value.now }
{
    match test {
        Test::Any => true,
        Test::OneOf { names } => names.list().contains(value),
        Test::NotOneOf { names } => !names.list().contains(value),
        Test::Wild { text } => fits(text.list(), value.bytes()),
        Test::Pattern { .. } => false,
    }
}

/// The pairs that a series shares with the others of its group, rising by key: those of the keys of the filters that group,
/// or under `none` all of its tags. It fails only for want of memory.
pub fn group_key(alloc: Global, sub: &Sub, tags: &Tags) -> Result<Vec<(Name, Name)>, AllocError>
    ensures key { IfOk result (λ pairs. pairs.items ≡ group_key sub.now tags.now) }
    ensures rise { IfOk result (λ pairs. RiseByKey pairs.items) }
{
    let mut key = Vec::new(alloc);
    for pair in tags.pairs() {
        if is_grouped(sub, &pair.0) {
            key.push((pair.0.again(alloc)?, pair.1.again(alloc)?))?;
        }
    }
    Ok(key)
}

/// Whether series with another value of this key are in another group.
fn is_grouped(sub: &Sub, key: &Name) -> bool
    ensures { result ≡ is_grouped sub.now key.now }
{
    is_none(sub.how) || has_grouping(sub.filters.list(), key)
}

fn is_none(how: Aggregator) -> bool
    ensures { result ≡ is_none how }
{
    matches!(how, Aggregator::NoneOf)
}

fn has_grouping(filters: &[Filter], key: &Name) -> bool
    ensures { result ≡ has_grouping key.now filters.now }
{
    filters
        .iter()
        .any(|filter| filter.group && filter.key == *key)
}
