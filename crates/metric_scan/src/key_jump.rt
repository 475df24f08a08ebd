//! Where a search for rows that pass filters goes on behind one that doesn't.
ghost use Rattle.std.specs.Prelude.{◌≡◌, ℕ, List, ◌∷◌, [], ◌++◌, ◌<◌, ◌≤◌, false, length, take, get_or, All, IfSome};
ghost use Rattle.row_key.specs.Key.{IsKey, most_ids};
ghost use Rattle.metric_scan.specs.IdFilters.{passes, passes_filter, passes_test};
ghost use Rattle.metric_scan.specs.KeyJumps.{IsBehind, IsNextId, IsNextValue, JumpsOver};

use crate::id_filter::{IdFilter, IdTest, passes_filter};
use arrayvec::ArrayVec;
use row_hours::HOUR;
use row_key::{RowKey, Widths, most_ids};

/// The id behind this one, or None where it is the greatest.
fn next_id(id: u32, most: u32) -> Option<u32>
    ensures { IsNextId most id result }
{
    if id < most { Some(id + 1) } else { None }
}

/// Where a value fails a test, the least one above it that may pass, of those up to the greatest that there can be.
fn next_value(test: &IdTest, value: u32, most: u32) -> Option<u32>
    requires { passes_test test.now value ≡ false }
    ensures { IsNextValue most test.now value result }
{
    match test {
        IdTest::Any | IdTest::NotOneOf { .. } => next_id(value, most),
        IdTest::OneOf { ids } => ids.least_above(value, most),
    }
}

/// How many of the pairs have a lesser id than this one, by the ids of their keys, which rise.
fn place_of(pairs: &[(u32, u32)], id: u32) -> usize
    ensures before { All (λ p. p.0 < id) (take result pairs.now) }
    ensures most { result ≤ length pairs.now }
    ensures at { result < length pairs.now → id ≤ (get_or pairs.now result (0, 0)).0 }
{
    for i in 0..pairs.len() {
        if id <= pairs[i].0 {
            return i;
        }
    }
    pairs.len()
}

/// The key with the first pairs of another, and then this one.
fn key_at(key: &RowKey, place: usize, pair: (u32, u32)) -> RowKey
    requires inside { place < length key.now.pairs.items }
    requires most { length key.now.pairs.items ≤ 8 }
    ensures metric { result.metric ≡ key.now.metric }
    ensures base { result.base ≡ key.now.base }
    ensures pairs { result.pairs.items ≡ take place key.now.pairs.items ++ pair ∷ [] }
{
    let mut pairs = ArrayVec::new();
    let _ = pairs.try_extend_from_slice(&key.pairs.as_slice()[..place]);
    pairs.push(pair);
    RowKey {
        metric: key.metric,
        base: key.base,
        pairs,
    }
}

/// The least key that the metric can have behind an hour.
fn next_hour(key: &RowKey, widths: Widths) -> Option<RowKey>
    requires { IsKey widths key.now }
    ensures { IfSome result (IsBehind widths key.now 0) }
{
    let base = key.base.checked_add(HOUR)?;
    let mut pairs = ArrayVec::new();
    pairs.push((1, 1));
    Some(RowKey {
        metric: key.metric,
        base,
        pairs,
    })
}

/// A key behind all those of the metric that have this key's hour and first pairs.
fn behind(key: &RowKey, place: usize, widths: Widths) -> Option<RowKey>
    requires key { IsKey widths key.now }
    requires inside { place ≤ length key.now.pairs.items }
    ensures { IfSome result (IsBehind widths key.now place) }
{
    if place == 0 {
        return next_hour(key, widths);
    }
    let (id, value) = key.pairs.as_slice()[place - 1];
    let next = next_id(value, most_ids(widths.tag_value))?;
    Some(key_at(key, place - 1, (id, next)))
}

/// A key behind all those that fail the filter as this one does: they have its hour and the same pairs before that of the filter.
/// Where no pair of the key has a greater id than the filter, there is none, since the next key may have the filter's.
fn jump_by(filter: &IdFilter, key: &RowKey, widths: Widths) -> Option<RowKey>
    requires key { IsKey widths key.now }
    requires fails { passes_filter filter.now key.now.pairs.items ≡ false }
    ensures { IfSome result (JumpsOver widths (passes_filter filter.now) key.now) }
{
    let pairs = key.pairs.as_slice();
    let place = place_of(pairs, filter.key);
    if place == pairs.len() {
        return None;
    }
    let (id, value) = pairs[place];
    if id != filter.key {
        return behind(key, place, widths);
    }
    let Some(next) = next_value(&filter.test, value, most_ids(widths.tag_value)) else {
        return behind(key, place, widths);
    };
    Some(key_at(key, place, (id, next)))
}

/// A key behind one that fails the filters, so that none from that one on and before it passes them.
///
/// Of the filters that it fails the one with the least id tells, since its pair stands first.
pub(crate) fn jump(filters: &[IdFilter], key: &RowKey, widths: Widths) -> Option<RowKey>
    requires { IsKey widths key.now }
    ensures { IfSome result (JumpsOver widths (passes filters.now) key.now) }
{
    let mut first: Option<&IdFilter> = None;
    for filter in filters {
        if !passes_filter(filter, key.pairs.as_slice())
            && first.is_none_or(|other| filter.key < other.key)
        {
            first = Some(filter);
        }
    }
    jump_by(first?, key, widths)
}
