//! Groups whose series have the same times.
ghost use Rattle.std.specs.Prelude.{◌≡◌, ◌<◌, IfOk, IfSome, [], Ok, length, All, slice_index_or};
ghost use Rattle.std.specs.Bool.{OnTrue};
ghost use Rattle.tsd_base.specs.Dots.{IsRising};
ghost use Rattle.lerp_aggregate.specs.Aggregation.{aggregated};
ghost use Rattle.lerp_aggregate.specs.EqualTimes.{AddsAt, HaveAt};
ghost use Rattle.lerp_aggregate.specs.Tally.{HasRoom};

use crate::tally::Tally;
use std::alloc::{AllocError, Global};
use tsd_base::dots::Dots;
use tsd_base::kinds::Aggregator;

/// The points of a group whose series have the same times, found place by place. It is nothing where times differ, or a sum
/// leaves an `i64`. It fails only for want of memory.
pub(crate) fn by_place(
    alloc: Global,
    list: &[Dots],
    how: Aggregator,
) -> Result<Option<Dots>, AllocError>
    requires { 0 < length list.now }
    ensures { IfOk result (λ answer. IfSome answer (λ dots. aggregated how list.now ≡ Ok dots)) }
{
    let first = list[0].list();
    if !have_length(list, first.len()) {
        return Ok(None);
    }
    points_by_place(alloc, list, first, how)
}

/// Whether each series has so many points.
fn have_length(list: &[Dots], count: usize) -> bool
    ensures { OnTrue result (All (λ series. length series ≡ count) list.now) }
{
    for dots in list {
        if dots.list().len() != count {
            return false;
        }
    }
    true
}

/// The points at the times of the first series, which the others have too.
fn points_by_place(
    alloc: Global,
    list: &[Dots],
    first: &[(u64, i64)],
    how: Aggregator,
) -> Result<Option<Dots>, AllocError>
    requires some { 0 < length list.now }
    requires first { slice_index_or list.now 0 [] ≡ first.now }
    requires rising { IsRising first.now }
    requires lengths { All (λ series. length series ≡ length first.now) list.now }
    ensures { IfOk result (λ answer. IfSome answer (λ dots. aggregated how list.now ≡ Ok dots)) }
{
    let mut dots = Dots::with_room(alloc, first.len())?;
    for place in 0..first.len() {
        let time = first[place].0;
        let mut tally = Tally::new();
        if !tally_at(list, place, time, &mut tally) {
            return Ok(None);
        }
        let Some(value) = tally.value(how) else {
            return Ok(None);
        };
        dots.push(time, value)?;
    }
    Ok(Some(dots))
}

/// Counts the values of all series at a place, and tells whether all have this time there. Where one hasn't, some may be counted.
fn tally_at(list: &[Dots], place: usize, time: u64, tally: &mut Tally) -> bool
    requires room { HasRoom tally.old (length list.now) }
    requires inside { All (λ series. place < length series) list.now }
    ensures adds { OnTrue result (AddsAt list.now time tally.old tally.new) }
    ensures have { OnTrue result (All (HaveAt place time) list.now) }
{
    for dots in list {
        let point = dots.list()[place];
        if point.0 != time {
            return false;
        }
        tally.add(point.1);
    }
    true
}
