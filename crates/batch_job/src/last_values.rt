//! Of the values that a series has at one time, the last one.
ghost use Rattle.std.specs.Prelude.{◌≡◌, ℕ, IfOk, IsTrue};
ghost use Rattle.lerp_aggregate.specs.Aggregation.{value_at};
ghost use Rattle.tsd_base.specs.Dots.{IsRising};
ghost use Rattle.batch_job.specs.LastValues.{last_at, is_later};

use std::alloc::{AllocError, Global};
use std::collections::BTreeMap;
use tsd_base::dots::Dots;

/// Whether the times of values rise.
pub fn is_rising(values: &[(u64, i64)]) -> bool
    ensures { IsTrue result → IsRising values.now }
{
    let mut latest = None;
    for value in values {
        if !is_later(value.0, latest) {
            return false;
        }
        latest = Some(value.0);
    }
    true
}

/// Whether a time is later than the latest so far.
fn is_later(time: u64, latest: Option<u64>) -> bool
    ensures { result ≡ is_later time latest }
{
    match latest {
        Some(latest) => latest < time,
        None => true,
    }
}

/// The last value at each time, in order of time. It fails only for want of memory.
pub fn put_in_order(alloc: Global, values: &[(u64, i64)]) -> Result<Dots, AllocError>
    ensures { IfOk result (λ dots. (time : ℕ) → value_at dots time ≡ last_at values.now time) }
{
    let mut map = BTreeMap::new(alloc);
    for value in values {
        map.insert(value.0, value.1)?;
    }
    dots_of(alloc, &map)
}

/// The entries of a map.
fn dots_of(alloc: Global, values: &BTreeMap<u64, i64>) -> Result<Dots, AllocError>
    ensures { IfOk result (λ dots. dots ≡ values.now.entries) }
{
    let mut dots = Dots::make(alloc);
    for (time, value) in values {
        dots.push(*time, *value)?;
    }
    Ok(dots)
}
