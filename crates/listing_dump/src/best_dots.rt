//! The data points of a row that stay, in the order in which they are dumped.
ghost use Rattle.std.specs.Prelude.{◌≡◌, ◌++◌, ◌∷◌, [], ◌<◌, true, List, AllPairs, IfOk, OnOk, MatchBool, map, filter, length};
ghost use Rattle.qual_codec.specs.declared.cells.Dot.{Dot};
ghost use Rattle.qual_codec.specs.MergeSteps.{is_as_good};
ghost use Rattle.listing_dump.specs.BestDots.{AreBest, ArePlaced, Beats, Keeps, is_best, kept_of, numbered};

use qual_codec::{Dot, Item};
use std::alloc::{AllocError, Global};
use std::collections::BTreeMap;

/// A data point, and its place among those of its row.
#[derive(Clone, Copy, Debug, PartialEq, Eq)]
pub struct PlacedDot {
    pub place: usize,
    pub dot: Dot,
}

/// Whether the offsets rise.
fn are_rising(dots: &[Dot]) -> bool
    ensures { result ≡ true → AllPairs (λ d e. d.item.offset < e.item.offset) dots.now }
{
    let mut least = 0;
    for dot in dots {
        let offset = dot.item.offset as u64;
        if offset < least {
            return false;
        }
        least = offset + 1;
    }
    true
}

/// The data points with their places, in order of places. It fails only for want of memory.
fn numbered(alloc: Global, dots: &[Dot]) -> Result<Vec<PlacedDot>, AllocError>
    ensures { IfOk result (λ placed. placed.items ≡ numbered 0 dots.now) }
{
    let mut placed = Vec::with_capacity(alloc, dots.len())?;
    for place in 0..dots.len() {
        placed.push(PlacedDot {
            place,
            dot: dots[place],
        })?;
    }
    Ok(placed)
}

/// The data points with their places, in order of offsets and then of places. It fails only for want of memory.
fn place_dots(alloc: Global, dots: &[Dot]) -> Result<Vec<PlacedDot>, AllocError>
    ensures { IfOk result (λ placed. ArePlaced dots.now placed.items) }
{
    let mut placed = numbered(alloc, dots)?;
    placed.sort_unstable_by_key(|p| (p.dot.item.offset, p.place));
    Ok(placed)
}

/// Whether an item is as good as another one at its offset, or better.
fn is_as_good(item: Item, other: Item) -> bool
    ensures { result ≡ is_as_good other item }
{
    if item.fine == other.fine {
        other.len <= item.len
    } else {
        other.fine
    }
}

/// What is kept of the offset and the value of a data point.
fn kept_of(best: &BTreeMap<(u32, i64), PlacedDot>, dot: &Dot) -> Option<PlacedDot>
    ensures { result ≡ kept_of best.now dot.now }
{
    match best.get(&(dot.item.offset, dot.value)) {
        Some(kept) => Some(*kept),
        None => None,
    }
}

/// Whether one that is as good as a data point is kept of its offset and value.
fn has_as_good(best: &BTreeMap<(u32, i64), PlacedDot>, dot: &Dot) -> bool
    ensures { (dots : List Dot) → AreBest dots best.now → MatchBool result (AreBest (dots ++ dot.now ∷ []) best.now) (Beats dots dot.now) }
{
    match kept_of(best, dot) {
        Some(kept) => is_as_good(kept.dot.item, dot.item),
        None => false,
    }
}

/// Keeps a data point, if it is better than the one that is kept of its offset and value. It fails only for want of memory.
fn keep_better(
    best: &mut BTreeMap<(u32, i64), PlacedDot>,
    dot: Dot,
    place: usize,
) -> Result<(), AllocError>
    ensures { OnOk result ((dots : List Dot) → length dots ≡ place → AreBest dots best.old → AreBest (dots ++ dot ∷ []) best.new) }
{
    if has_as_good(best, &dot) {
        return Ok(());
    }
    best.insert((dot.item.offset, dot.value), PlacedDot { place, dot })?;
    Ok(())
}

/// For each offset and value the best data point, the first where several are as good. It fails only for want of memory.
fn best_of(alloc: Global, dots: &[Dot]) -> Result<BTreeMap<(u32, i64), PlacedDot>, AllocError>
    ensures { IfOk result (AreBest dots.now) }
{
    let mut best = BTreeMap::new(alloc);
    for place in 0..dots.len() {
        keep_better(&mut best, dots[place], place)?;
    }
    Ok(best)
}

/// Whether a data point is the best of its offset and value.
fn is_best(best: &BTreeMap<(u32, i64), PlacedDot>, placed: &PlacedDot) -> bool
    ensures { result ≡ is_best best.now placed.now }
{
    match kept_of(best, &placed.dot) {
        Some(kept) => kept.place == placed.place,
        None => false,
    }
}

/// Adds the best of data points. It fails only for want of memory.
fn push_best(
    best: &BTreeMap<(u32, i64), PlacedDot>,
    placed: &[PlacedDot],
    dots: &mut Vec<Dot>,
) -> Result<(), AllocError>
    ensures { OnOk result (dots.new.items ≡ dots.old.items ++ map (λ p. p.dot) (filter (is_best best.now) placed.now)) }
{
    for at in 0..placed.len() {
        if is_best(best, &placed[at]) {
            dots.push(placed[at].dot)?;
        }
    }
    Ok(())
}

/// Of the data points of a row, one cell behind the other, keeps the best of each offset and value, in order of offsets; those of one offset
/// stay in their order. It fails only for want of memory.
///
/// Where the offsets rise nothing is done.
pub fn keep_best(alloc: Global, dots: &mut Vec<Dot>) -> Result<(), AllocError>
    ensures { OnOk result (Keeps dots.old.items dots.new.items) }
{
    if are_rising(dots) {
        return Ok(());
    }
    let placed = place_dots(alloc, dots)?;
    let best = best_of(alloc, dots)?;
    dots.clear();
    push_best(&best, &placed, dots)
}
