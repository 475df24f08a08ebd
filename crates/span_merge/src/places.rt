//! A place in the order of series, and its moves.
ghost use Rattle.std.specs.Prelude.{◌≡◌, ◌<◌, List, [], length, OnOk, OnErr, map};
ghost use Rattle.std.specs.Bool.{MatchBool};
ghost use Rattle.span_merge.specs.Places.{HasPut, LastHas, LastHasNot, LastIsAbove, LastIsNotAbove, MayPut, MovesLast, spans_of};
ghost use Rattle.span_merge.specs.Spans.{AreInOrder, kept_span};

use crate::series::{Series, append, order, series_of};
use std::alloc::{AllocError, Global};
use std::cmp::Ordering;
use tsd_base::dots::Dots;
use tsd_base::kinds::Down;

/// Moves the place behind the series that don't stand above these ids.
pub(crate) fn step_forward(
    before: &mut Vec<Series>,
    behind: &mut Vec<Series>,
    pairs: &[(u32, u32)],
) -> Result<(), AllocError>
    ensures same { spans_of before.new.items behind.new.items ≡ spans_of before.old.items behind.old.items }
    ensures ok { OnOk result (LastIsAbove pairs.now behind.new.items) }
{
    while is_last_at_most(behind.as_slice(), pairs) {
        move_last(behind, before)?;
    }
    Ok(())
}

/// Moves the place before the series that stand above these ids.
pub(crate) fn step_back(
    before: &mut Vec<Series>,
    behind: &mut Vec<Series>,
    pairs: &[(u32, u32)],
) -> Result<(), AllocError>
    requires above { LastIsAbove pairs.now behind.old.items }
    ensures same { spans_of before.new.items behind.new.items ≡ spans_of before.old.items behind.old.items }
    ensures above { OnOk result (LastIsAbove pairs.now behind.new.items) }
    ensures at_most { OnOk result (LastIsNotAbove pairs.now before.new.items) }
{
    while is_last_above(before.as_slice(), pairs) {
        move_last(before, behind)?;
    }
    Ok(())
}

/// Moves the place behind all series.
pub(crate) fn step_to_end(
    before: &mut Vec<Series>,
    behind: &mut Vec<Series>,
) -> Result<(), AllocError>
    ensures same { spans_of before.new.items behind.new.items ≡ spans_of before.old.items behind.old.items }
    ensures ok { OnOk result (behind.new.items ≡ []) }
{
    while !behind.is_empty() {
        move_last(behind, before)?;
    }
    Ok(())
}

/// Adds points to the last series, where it has these ids, and else a series behind it. It fails only for want of memory, and then
/// nothing changes.
pub(crate) fn add_last(
    alloc: Global,
    list: &mut Vec<Series>,
    how: Option<Down>,
    pairs: &[(u32, u32)],
    dots: Dots,
) -> Result<(), AllocError>
    requires ordered { AreInOrder (map kept_span list.old.items) }
    requires at_most { LastIsNotAbove pairs.now list.old.items }
    requires later { MayPut (map kept_span list.old.items) pairs.now dots }
    ensures ok { OnOk result (HasPut how (map kept_span list.old.items) pairs.now dots (map kept_span list.new.items)) }
    ensures err { OnErr result (map kept_span list.new.items ≡ map kept_span list.old.items) }
{
    if has_last(list.as_slice(), pairs) {
        let last = list.len() - 1;
        return append(alloc, &mut list[last], &dots);
    }
    list.push(series_of(alloc, how, pairs, dots)?)?;
    Ok(())
}

/// Moves the last series of a list behind those of another.
fn move_last(from: &mut Vec<Series>, to: &mut Vec<Series>) -> Result<(), AllocError>
    requires { 0 < length from.old.items }
    ensures ok { OnOk result (MovesLast from.old.items from.new.items to.old.items to.new.items) }
    ensures from { OnErr result (from.new.items ≡ from.old.items) }
    ensures to { OnErr result (to.new.items ≡ to.old.items) }
{
    to.reserve(1)?;
    if let Some(series) = from.pop() {
        to.push_reserved(series);
    }
    Ok(())
}

/// Whether there is a last series, and it stands above these ids.
fn is_last_above(list: &[Series], pairs: &[(u32, u32)]) -> bool
    ensures { MatchBool result (0 < length list.now × LastIsAbove pairs.now list.now) (LastIsNotAbove pairs.now list.now) }
{
    match list.last() {
        Some(series) => order(series, pairs) == Ordering::Greater,
        None => false,
    }
}

/// Whether there is a last series, and it doesn't stand above these ids.
fn is_last_at_most(list: &[Series], pairs: &[(u32, u32)]) -> bool
    ensures { MatchBool result (0 < length list.now) (LastIsAbove pairs.now list.now) }
{
    match list.last() {
        Some(series) => order(series, pairs) != Ordering::Greater,
        None => false,
    }
}

/// Whether there is a last series, and it has these ids.
fn has_last(list: &[Series], pairs: &[(u32, u32)]) -> bool
    ensures { MatchBool result (0 < length list.now × LastHas pairs.now list.now) (LastHasNot pairs.now list.now) }
{
    match list.last() {
        Some(series) => order(series, pairs) == Ordering::Equal,
        None => false,
    }
}
