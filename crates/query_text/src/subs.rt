//! Sub queries in text.
ghost use Rattle.std.specs.Prelude.{◌≡◌, ◌<◌, ◌≤◌, length, Some, IfOk, IfSome};
ghost use Rattle.query_text.specs.Downs.{IsInterval};
ghost use Rattle.query_text.specs.Subs.{asks_rate, colon_from, head_of, sub_by_aggregator, sub_by_down, sub_by_metric, sub_of, GivesSub};

use crate::aggregators::aggregator_named;
use crate::cuts::{name_of, place_of};
use crate::downs::read_down;
use crate::filters::read_filters;
use crate::queries::{FilterList, QueryFault, Sub};
use std::alloc::Global;
use tsd_base::kinds::{Aggregator, Down};

/// Reads a sub query: an aggregator, perhaps a downsample, and a metric, with a `:` between them, and then at most two parts of
/// filters in braces, of which the first ones group. Where `ms` is false a downsample's interval has to be whole seconds. It
/// answers the first fault from the left.
pub fn read_m(alloc: Global, text: &[u8], ms: bool) -> Result<Sub, QueryFault>
    ensures sub { GivesSub result (sub_of ms text.now) }
    ensures interval { IfOk result (λ sub. IfSome sub.down (λ down. IsInterval ms down.interval)) }
{
    let head = head(text);
    let Some(colon) = place_of(head, b':') else {
        return Err(QueryFault::BadM { at: head.len() });
    };
    match aggregator_named(&text[..colon]) {
        Some(how) => behind_aggregator(alloc, text, how, colon + 1, ms),
        None => Err(QueryFault::UnknownAggregator),
    }
}

/// Reads what stands behind the aggregator and its `:`, from this place on.
fn behind_aggregator(
    alloc: Global,
    text: &[u8],
    how: Aggregator,
    at: usize,
    ms: bool,
) -> Result<Sub, QueryFault>
    requires { at ≤ length (head_of text.now) }
    ensures { GivesSub result (sub_by_aggregator ms text.now at (Some how)) }
{
    if asks_rate(&text[at..]) {
        return Err(QueryFault::RateRefused);
    }
    match colon_from(text, at) {
        Some(colon) => behind_down(alloc, text, how, read_down(&text[at..colon], ms), colon + 1),
        None => read_metric(alloc, text, how, None, at),
    }
}

/// Reads what stands behind a downsample and its `:`, from this place on.
fn behind_down(
    alloc: Global,
    text: &[u8],
    how: Aggregator,
    down: Option<Down>,
    at: usize,
) -> Result<Sub, QueryFault>
    requires { at ≤ length (head_of text.now) }
    ensures { GivesSub result (sub_by_down text.now how at down) }
{
    let Some(down) = down else {
        return Err(QueryFault::BadDownsample);
    };
    if asks_rate(&text[at..]) {
        return Err(QueryFault::RateRefused);
    }
    match colon_from(text, at) {
        Some(further) => Err(QueryFault::BadM { at: further }),
        None => read_metric(alloc, text, how, Some(down), at),
    }
}

/// Reads the metric, whose name begins at this place, and the filters behind it.
fn read_metric(
    alloc: Global,
    text: &[u8],
    how: Aggregator,
    down: Option<Down>,
    at: usize,
) -> Result<Sub, QueryFault>
    requires { at ≤ length (head_of text.now) }
    ensures { GivesSub result (sub_by_metric text.now how down at) }
{
    let Some(metric) = name_of(alloc, &head(text)[at..])? else {
        return Err(QueryFault::BadM { at });
    };
    let filters = read_filters(alloc, text)?;
    Ok(Sub {
        how,
        down,
        metric,
        filters: FilterList::of(filters),
    })
}

/// Whether the text goes on with a rate.
fn asks_rate(text: &[u8]) -> bool
    ensures { result ≡ asks_rate text.now }
{
    text.starts_with(b"rate:") || text.starts_with(b"rate{")
}

/// What stands before the first `{`.
fn head(text: &[u8]) -> &[u8]
    ensures head { result.now ≡ head_of text.now }
    ensures within { length result.now ≤ length text.now }
{
    match place_of(text, b'{') {
        Some(at) => &text[..at],
        None => text,
    }
}

/// The place of the first `:` of the head from this place on.
fn colon_from(text: &[u8], from: usize) -> Option<usize>
    requires { from ≤ length (head_of text.now) }
    ensures place { result ≡ colon_from text.now from }
    ensures from { IfSome result (λ at. from ≤ at) }
    ensures within { IfSome result (λ at. at < length (head_of text.now)) }
{
    let head = head(text);
    match place_of(&head[from..], b':') {
        Some(n) => Some(from + n),
        None => None,
    }
}
