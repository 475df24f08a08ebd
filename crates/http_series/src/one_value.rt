//! Filters that ask for one value each.
ghost use Rattle.std.specs.Prelude.{◌≡◌, ◌==◌, length, option_map, None, Some, if◌then◌else◌};
ghost use Rattle.http_series.specs.ArgumentReading.{Gives, or_fault};
ghost use Rattle.http_series.specs.SeriesTexts.{one_name, one_of, pair_of, pairs_of, tags_by};
ghost use Rattle.http_series.specs.declared.argument_fault.ArgumentFault.TheVariants.{BadTimeseries};

use crate::argument_fault::ArgumentFault;
use query_text::queries::{Filter, Test};
use std::alloc::Global;
use tsd_base::names::Name;
use tsd_base::tags::{Tags, TagsFault};

/// The only one of some names.
fn only(names: &[Name]) -> Option<&Name>
    ensures { option_map (λ name. name.now) result ≡ one_of names.now }
{
    match names {
        [name] => Some(name),
        _ => None,
    }
}

/// The one value that a test asks for.
fn one_name(test: &Test) -> Option<&Name>
    ensures { option_map (λ name. name.now) result ≡ one_name test.now }
{
    match test {
        Test::Any => None,
        Test::OneOf { names } => only(names.list()),
        Test::NotOneOf { .. } | Test::Wild { .. } | Test::Pattern { .. } => None,
    }
}

/// The key of a filter, with the one value that it asks for.
fn pair_of(alloc: Global, filter: &Filter) -> Result<(Name, Name), ArgumentFault>
    ensures { Gives (λ pair. pair) result (or_fault BadTimeseries (pair_of filter.now)) }
{
    match one_name(&filter.test) {
        Some(name) => Ok((filter.key.again(alloc)?, name.again(alloc)?)),
        None => Err(ArgumentFault::BadTimeseries),
    }
}

/// The keys of filters, each with the one value that its filter asks for.
pub(crate) fn pairs_of(
    alloc: Global,
    filters: &[Filter],
) -> Result<Vec<(Name, Name)>, ArgumentFault>
    ensures { Gives (λ pairs. pairs.items) result (pairs_of filters.now) }
{
    let mut pairs = Vec::new(alloc);
    for filter in filters {
        let pair = pair_of(alloc, filter)?;
        pairs.push(pair)?;
    }
    Ok(pairs)
}

/// The tags that pairs make, where each pair has a key of its own.
pub(crate) fn tags_by(alloc: Global, pairs: Vec<(Name, Name)>) -> Result<Tags, ArgumentFault>
    ensures { Gives (λ tags. tags) result (or_fault BadTimeseries (tags_by pairs.items)) }
{
    let count = pairs.len();
    match Tags::build(alloc, pairs) {
        Ok(tags) => as_many(tags, count),
        Err(TagsFault::NoTags) => Err(ArgumentFault::BadTimeseries),
        Err(TagsFault::TwoValues { .. }) => Err(ArgumentFault::BadTimeseries),
        Err(TagsFault::TooManyTags { .. }) => Err(ArgumentFault::BadTimeseries),
        Err(TagsFault::OutOfMemory) => Err(ArgumentFault::OutOfMemory),
    }
}

/// The tags, where there are so many.
fn as_many(tags: Tags, count: usize) -> Result<Tags, ArgumentFault>
    ensures { Gives (λ tags. tags) result (or_fault BadTimeseries (if length tags == count then Some tags else None)) }
{
    if tags.pairs().len() == count {
        return Ok(tags);
    }
    Err(ArgumentFault::BadTimeseries)
}
