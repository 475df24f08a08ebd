//! The groups of a sub query's series.
ghost use Rattle.std.specs.Prelude.{◌≡◌, ◌≤◌, ◌++◌, ◌∷◌, [], List, Some, length, map, ℕ, ℤ, All, IfOk, IfSome, OnOk};
ghost use Rattle.tsd_base.specs.declared.times.TheConstants.{LAST_TIME};
ghost use Rattle.tsd_base.specs.declared.kinds.Aggregator.TheVariants.{NoneOf};
ghost use Rattle.json_reply.specs.Replies.{IsReady, plain};
ghost use Rattle.lerp_aggregate.specs.Aggregation.{aggregated, GivesAggregate};
ghost use Rattle.lerp_aggregate.specs.FilledGroups.{IsOn, filled};
ghost use Rattle.downsample.specs.Buckets.{all_buckets};
ghost use Rattle.downsample.specs.Downsampling.{GivesDown};
ghost use Rattle.series_groups.specs.FilledSeries.{AreOn, GivesUnfilled, IsUnfilled, filled_to, unfilled};
ghost use Rattle.series_groups.specs.QueryAnswers.{all_or_least, answer, down_by, down_to, function_of, group_of};
ghost use Rattle.series_groups.specs.SeriesGroups.{AddsMember, AreGroups, AreSeriesFor, AreWhole, GivesGroup, GivesGroups, GivesLists, IsDown, IsWorkable, Keeps, KeepsFor, earliest, group_with};
ghost use Rattle.series_groups.specs.KeptSeries.{KeepsEach, KeepsWithin, PointsOf, all_with_points, dots_kept};
ghost use Rattle.series_groups.specs.NamedSeries.{AreEarly, points_in};

use crate::group_key::GroupKey;
use crate::named_series::Series;
use downsample::DownFault;
use downsample::intervals::{bucket_of, buckets};
use downsample::own_buckets::down_owned;
use group_by::shared_tags::shared;
use json_reply::reply::Group;
use lerp_aggregate::aggregation::{AggFault, aggregate};
use lerp_aggregate::filled_groups::aggregate_filled;
use query_text::queries::{Query, Sub};
use span_merge::kept_points::Kept;
use std::alloc::{AllocError, Global};
use std::collections::BTreeMap;
use tsd_base::dots::Dots;
use tsd_base::kinds::{Aggregator, Down, Fill, Function};
use tsd_base::names::Name;
use tsd_base::tags::Tags;

/// The groups of a sub query's series, which rise by their tags, each with a point. The series with the same values of the grouped
/// keys are one group, and groups are in order of these values; under `none` each series is a group by itself.
pub fn groups_of(
    alloc: Global,
    query: &Query,
    sub: &Sub,
    series: Vec<Series>,
) -> Result<Vec<Group>, AggFault>
    requires works { IsWorkable query.now sub.now }
    requires series { (of : PointsOf) × AreSeriesFor query.now sub.now of series.items }
    ensures answers { (of : PointsOf) → AreSeriesFor query.now sub.now of series.items → GivesGroups result (answer query.now sub.now (points_in sub.now.metric (all_with_points of series.items))) }
    ensures ready { IfOk result (λ groups. All IsReady groups.items) }
{
    let mut groups = Vec::new(alloc);
    for (_, members) in by_key(alloc, sub, series)? {
        push(&mut groups, group_with(alloc, query, sub, members)?)?;
    }
    Ok(groups)
}

/// Puts one more behind the others.
fn push<T: Drop>(list: &mut Vec<T>, one: T) -> Result<(), AllocError>
    ensures { OnOk result (list.new.items ≡ list.old.items ++ one ∷ []) }
{
    list.push(one)?;
    Ok(())
}

/// The series of each group.
fn by_key(
    alloc: Global,
    sub: &Sub,
    series: Vec<Series>,
) -> Result<BTreeMap<GroupKey, Vec<Series>>, AllocError>
    ensures { IfOk result (λ groups. AreGroups sub.now series.items groups) }
{
    let mut groups = BTreeMap::new(alloc);
    for one in series {
        let key = GroupKey::of(alloc, sub, &one.tags)?;
        add(alloc, &mut groups, key, one)?;
    }
    // For the proof: the keys are in order.
    let _ = groups.len();
    Ok(groups)
}

/// Adds a series behind the others of its group.
fn add(
    alloc: Global,
    groups: &mut BTreeMap<GroupKey, Vec<Series>>,
    key: GroupKey,
    one: Series,
) -> Result<(), AllocError>
    ensures { OnOk result (AddsMember groups.old key one groups.new) }
{
    if let Some(members) = groups.get_mut(&key) {
        members.push(one)?;
        return Ok(());
    }
    let mut members = Vec::new(alloc);
    members.push(one)?;
    groups.insert(key, members)?;
    Ok(())
}

/// The group of series.
fn group_with(
    alloc: Global,
    query: &Query,
    sub: &Sub,
    series: Vec<Series>,
) -> Result<Group, AggFault>
    requires works { IsWorkable query.now sub.now }
    requires kept { (of : PointsOf) × KeepsFor query.now sub.now of series.items }
    requires alone { sub.now.how ≡ NoneOf → length series.items ≡ 1 }
    ensures answers { (of : PointsOf) → KeepsFor query.now sub.now of series.items → GivesGroup result (group_with query.now sub.now of series.items) }
    ensures ready { IfOk result IsReady }
{
    let how = down_of(query, sub);
    let (tags, lists) = unfilled_lists(alloc, how, query, series)?;
    match aggregate_with_fill(alloc, &lists, sub.how, how, query) {
        Ok(dps) => Ok(tagged(alloc, query.ms, &sub.metric, &tags, dps)?),
        Err(fault) => Err(fault),
    }
}

/// How the series of a sub query are downsampled: as it asks, or else, where times are told in seconds, by 1 s with its aggregator's
/// function.
pub fn down_of(query: &Query, sub: &Sub) -> Option<Down>
    requires { IsWorkable query.now sub.now }
    ensures down { result ≡ down_by query.now.ms sub.now.how sub.now.down }
    ensures is { IfSome result (IsDown query.now.start query.now.end) }
{
    if sub.down.is_some() || query.ms {
        return sub.down;
    }
    Some(Down {
        interval: 1000,
        function: function_of(sub.how),
        fill: Fill::NoFill,
    })
}

/// The function of the same name, and the last value under `none`.
fn function_of(how: Aggregator) -> Function
    ensures { result ≡ function_of how }
{
    match how {
        Aggregator::Sum => Function::Sum,
        Aggregator::Min => Function::Min,
        Aggregator::Max => Function::Max,
        Aggregator::Avg => Function::Avg,
        Aggregator::Count => Function::Count,
        Aggregator::Zimsum => Function::Zimsum,
        Aggregator::Mimmin => Function::Mimmin,
        Aggregator::Mimmax => Function::Mimmax,
        Aggregator::NoneOf => Function::Last,
    }
}

/// The tags of series, and their points without those of a fill. Of the overflows of all series the least time is told.
fn unfilled_lists(
    alloc: Global,
    how: Option<Down>,
    query: &Query,
    series: Vec<Series>,
) -> Result<(Vec<Tags>, Vec<Dots>), AggFault>
    requires order { query.now.start ≤ query.now.end }
    requires most { query.now.end ≤ LAST_TIME }
    requires down { IfSome how (IsDown query.now.start query.now.end) }
    requires kept { (of : PointsOf) × KeepsEach how query.now.start query.now.end of series.items }
    ensures { (of : PointsOf) → KeepsEach how query.now.start query.now.end of series.items → GivesUnfilled how query.now.start query.now.end result series.items (all_or_least (map (down_to how query.now.start query.now.end) (dots_kept of series.items))) }
{
    apart(alloc, unfilled(how), query, series)
}

/// A downsample without its fill.
fn unfilled(how: Option<Down>) -> Option<Down>
    ensures { result ≡ unfilled how }
{
    match how {
        Some(how) => Some(Down {
            interval: how.interval,
            function: how.function,
            fill: Fill::NoFill,
        }),
        None => None,
    }
}

/// The tags and the points of series, which are downsampled where that is asked. Of the overflows of all series the least time is told.
fn apart(
    alloc: Global,
    how: Option<Down>,
    query: &Query,
    series: Vec<Series>,
) -> Result<(Vec<Tags>, Vec<Dots>), AggFault>
    requires order { query.now.start ≤ query.now.end }
    requires most { query.now.end ≤ LAST_TIME }
    requires down { IfSome how (IsDown query.now.start query.now.end) }
    requires unfilled { IsUnfilled how }
    requires kept { (of : PointsOf) × KeepsEach how query.now.start query.now.end of series.items }
    ensures { (of : PointsOf) → KeepsEach how query.now.start query.now.end of series.items → GivesLists result series.items (all_or_least (map (down_to how query.now.start query.now.end) (dots_kept of series.items))) }
{
    let mut tags = Vec::with_capacity(alloc, series.len())?;
    let mut lists = Vec::with_capacity(alloc, series.len())?;
    let mut least = None;
    for one in series {
        push(&mut tags, one.tags)?;
        let dots = finish(alloc, one.kept, how, query.start, query.end);
        keep(&mut lists, &mut least, dots)?;
    }
    match least {
        Some(time) => Err(AggFault::Overflow { time }),
        None => Ok((tags, lists)),
    }
}

/// Keeps the points of one more series, or the least time that stands in place of some.
fn keep(
    lists: &mut Vec<Dots>,
    least: &mut Option<u64>,
    one: Result<Dots, DownFault>,
) -> Result<(), AllocError>
    ensures { OnOk result (Keeps lists.old.items least.old one lists.new.items least.new) }
{
    match one {
        Ok(dots) => push(lists, dots),
        Err(DownFault::Overflow { time }) => {
            *least = earlier(*least, time);
            Ok(())
        }
        Err(DownFault::OutOfMemory) => Err(AllocError),
    }
}

/// The earlier of two times, or the one that there is.
fn earlier(least: Option<u64>, time: u64) -> Option<u64>
    ensures { result ≡ Some (earliest least time) }
{
    match least {
        Some(least) => Some(least.min(time)),
        None => Some(time),
    }
}

/// The points of a series, downsampled where that is asked, of what was kept of them.
fn finish(
    alloc: Global,
    kept: Kept,
    how: Option<Down>,
    start: u64,
    end: u64,
) -> Result<Dots, DownFault>
    requires order { start ≤ end }
    requires most { end ≤ LAST_TIME }
    requires down { IfSome how (IsDown start end) }
    requires unfilled { IsUnfilled how }
    requires kept { (points : List (ℕ × ℤ)) × KeepsWithin how start end kept points }
    ensures { (points : List (ℕ × ℤ)) → KeepsWithin how start end kept points → GivesDown result (down_to how start end points) }
{
    match kept {
        Kept::Points { dots } => down_to(alloc, dots, how, start, end),
        Kept::Buckets { fold } => Box::into_inner(fold).finish(),
    }
}

/// The points of a series, downsampled where that is asked.
fn down_to(
    alloc: Global,
    dots: Dots,
    how: Option<Down>,
    start: u64,
    end: u64,
) -> Result<Dots, DownFault>
    requires order { start ≤ end }
    requires most { end ≤ LAST_TIME }
    requires down { IfSome how (IsDown start end) }
    ensures { GivesDown result (down_to how start end dots) }
{
    match how {
        Some(how) => down_owned(alloc, dots, how, start, end),
        None => Ok(dots),
    }
}

/// The one value that series make at each time. Under a fill of zeros each of them has a value in all buckets.
fn aggregate_with_fill(
    alloc: Global,
    lists: &[Dots],
    how: Aggregator,
    down: Option<Down>,
    query: &Query,
) -> Result<Dots, AggFault>
    requires order { query.now.start ≤ query.now.end }
    requires most { query.now.end ≤ LAST_TIME }
    requires down { IfSome down (IsDown query.now.start query.now.end) }
    requires early { All AreEarly lists.now }
    requires on { AreOn down query.now.start query.now.end lists.now }
    requires alone { how ≡ NoneOf → length lists.now ≡ 1 }
    ensures { GivesAggregate result (aggregated how (filled_to down query.now.start query.now.end lists.now)) }
{
    match down {
        Some(down) => match down.fill {
            Fill::NoFill => aggregate(alloc, lists, how),
            Fill::Zero => aggregate_in(alloc, lists, how, down.interval, query),
        },
        None => aggregate(alloc, lists, how),
    }
}

/// The one value that series make in each bucket, where each of them has a value in all.
fn aggregate_in(
    alloc: Global,
    lists: &[Dots],
    how: Aggregator,
    interval: u64,
    query: &Query,
) -> Result<Dots, AggFault>
    requires interval { 1 ≤ interval }
    requires order { query.now.start ≤ query.now.end }
    requires most { query.now.end ≤ LAST_TIME }
    requires on { All (IsOn (all_buckets interval query.now.start query.now.end)) lists.now }
    ensures { GivesAggregate result (aggregated how (map (filled (all_buckets interval query.now.start query.now.end)) lists.now)) }
{
    let first = bucket_of(interval, query.start);
    let count = buckets(query.start, query.end, interval);
    aggregate_filled(alloc, lists, how, first, interval, count)
}

/// The group of these points, with the tags that all of its series have.
fn tagged(
    alloc: Global,
    ms: bool,
    metric: &Name,
    series: &[Tags],
    dps: Dots,
) -> Result<Group, AllocError>
    requires { AreWhole ms dps }
    ensures group { IfOk result (λ group. plain group ≡ group_of ms metric.now series.now dps) }
    ensures ready { IfOk result IsReady }
{
    let metric = metric.again(alloc)?;
    let (tags, aggregate_tags) = shared(alloc, series)?;
    Ok(Group {
        metric,
        tags,
        aggregate_tags,
        dps,
        ms,
    })
}
