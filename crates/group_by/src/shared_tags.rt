//! The tags that all series of a group have.
ghost use Rattle.std.specs.Prelude.{◌≡◌, AllPairs, IfOk};
ghost use Rattle.std.specs.List.{list_all};
ghost use Rattle.std.specs.declared.cmp.Ordering.TheVariants.{Less};
ghost use Rattle.tsd_base.specs.TagList.{RiseByKey};
ghost use Rattle.list_lemmas.specs.BytesOrder.{bytes_cmp};
ghost use Rattle.group_by.specs.Shared.{shared_pairs, aggregate_keys, has_pair, has_key};

use std::alloc::{AllocError, Global};
use tsd_base::names::Name;
use tsd_base::tags::Tags;

/// The tags of a group of series with these tags: the pairs that all of them have, rising by key, and the keys that all of
/// them have without one common value, rising. It fails only for want of memory.
pub fn shared(alloc: Global, series: &[Tags]) -> Result<(Vec<(Name, Name)>, Vec<Name>), AllocError>
    ensures pairs { IfOk result (λ both. (both.0.items ≡ shared_pairs series.now) × RiseByKey both.0.items) }
    ensures keys { IfOk result (λ both. (both.1.items ≡ aggregate_keys series.now) × AllPairs (λ x y. bytes_cmp x y ≡ Less) both.1.items) }
{
    let pairs = shared_pairs(alloc, series)?;
    let keys = aggregate_keys(alloc, series)?;
    Ok((pairs, keys))
}

/// The pairs that all of the series have, rising by key.
fn shared_pairs(alloc: Global, series: &[Tags]) -> Result<Vec<(Name, Name)>, AllocError>
    ensures shared { IfOk result (λ pairs. pairs.items ≡ shared_pairs series.now) }
    ensures rise { IfOk result (λ pairs. RiseByKey pairs.items) }
{
    let mut shared = Vec::new(alloc);
    if let [first, others @ ..] = series {
        for pair in first.pairs() {
            if all_have_pair(others, pair) {
                shared.push((pair.0.again(alloc)?, pair.1.again(alloc)?))?;
            }
        }
    }
    Ok(shared)
}

/// The keys that all of the series have, without one common value, rising.
fn aggregate_keys(alloc: Global, series: &[Tags]) -> Result<Vec<Name>, AllocError>
    ensures keys { IfOk result (λ keys. keys.items ≡ aggregate_keys series.now) }
    ensures rise { IfOk result (λ keys. AllPairs (λ x y. bytes_cmp x y ≡ Less) keys.items) }
{
    let mut keys = Vec::new(alloc);
    if let [first, others @ ..] = series {
        for pair in first.pairs() {
            if all_have_key(others, &pair.0) && !all_have_pair(others, pair) {
                keys.push(pair.0.again(alloc)?)?;
            }
        }
    }
    Ok(keys)
}

fn all_have_pair(series: &[Tags], pair: &(Name, Name)) -> bool
    ensures { result ≡ list_all (has_pair pair.now) series.now }
{
    series.iter().all(|tags| tags.pairs().contains(pair))
}

fn all_have_key(series: &[Tags], key: &Name) -> bool
    ensures { result ≡ list_all (has_key key.now) series.now }
{
    series.iter().all(|tags| has_key(tags.pairs(), key))
}

fn has_key(pairs: &[(Name, Name)], key: &Name) -> bool
    ensures { result ≡ has_key key.now pairs.now }
{
    pairs.iter().any(|pair| *key == pair.0)
}
