//! Cursors over the series of a group, and the walk over the union of their times.
ghost use Rattle.std.specs.Prelude.{◌≡◌, ◌+◌, ◌-◌, ◌<◌, ◌≤◌, ◌^◌, ◌&&◌, ℕ, ℤ, List, ◌++◌, length, take, drop, All, Some, None, IfOk, slice_index_or, [], ◌∷◌};
ghost use Rattle.std.specs.List.{filter_map, list_any, AllWithin};
ghost use Rattle.tsd_base.specs.Dots.{IsRising};
ghost use Rattle.lerp_aggregate.specs.Aggregation.{given_at};
ghost use Rattle.lerp_aggregate.specs.Interpolation.{between, nearest_before, nearest_after};
ghost use Rattle.lerp_aggregate.specs.Tally.{Adds, HasRoom};
ghost use Rattle.lerp_aggregate.specs.Walks.{earlier, earliest, first_time, is_due, is_inside, joined, next_of, series_of, walk_ahead, walked, BundleStands, StandAt, Stands, StandsAt};

use crate::interpolation::lerp_at;
use crate::tally::Tally;
use std::alloc::{AllocError, Global};
use tsd_base::dots::Dots;

/// What lies ahead of some cursors.
#[derive(Clone, Copy)]
pub struct Ahead {
    /// The earliest time of the points that are left.
    next: Option<u64>,
    /// Whether a cursor stands between two points of its series.
    inside: bool,
}

impl Ahead {
    /// Of these cursors and of others.
    #[inline]
    fn join(self, other: Ahead) -> Ahead
        ensures { result ≡ joined self other }
    {
        Ahead {
            next: earlier(self.next, other.next),
            inside: self.inside | other.inside,
        }
    }

    /// Whether the series may give something at a time: at a point there, or between two points.
    #[inline]
    fn is_due(self, between: bool, time: u64) -> bool
        ensures { result ≡ is_due self.next (between && self.inside) time }
    {
        match self.next {
            Some(next) => between && self.inside || next == time,
            None => false,
        }
    }
}

/// A place in a series: the points before it are done.
#[derive(Drop)]
pub struct Cursor {
    /// Which series of the group it is.
    index: usize,
    place: usize,
    /// The time of the point at the place, if one is left.
    next: Option<u64>,
}

impl Cursor {
    /// Before the first point.
    fn start(index: usize, series: &[(u64, i64)]) -> Cursor
        requires { IsRising series.now }
        ensures index { result.index ≡ index }
        ensures stands { StandsAt series.now 0 result }
    {
        Cursor {
            index,
            place: 0,
            next: time_at(series, 0),
        }
    }

    /// Whether it stands between two points: it has passed one, and one is left.
    #[inline]
    fn is_inside(&self) -> bool
        ensures { result ≡ is_inside self.now }
    {
        self.place > 0 && self.next.is_some()
    }

    /// What the series gives at a time; then the cursor is behind the point of that time.
    #[inline]
    fn turn(&mut self, series: &[(u64, i64)], between: bool, time: u64) -> Option<i64>
        requires stands { StandsAt series.now time self.old }
        requires limit { All (λ p. p.0 < 2 ^ 43) series.now }
        ensures gives { result ≡ given_at between series.now time }
        ensures index { self.new.index ≡ self.old.index }
        ensures stands { StandsAt series.now (time + 1) self.new }
    {
        match self.next {
            None => None,
            Some(next) => {
                if next == time {
                    Some(self.pass(series))
                } else if between {
                    self.value_between(series, time)
                } else {
                    None
                }
            }
        }
    }

    /// The value at the place; then the cursor is behind it.
    #[inline]
    fn pass(&mut self, series: &[(u64, i64)]) -> i64
        requires left { self.old.place < length series.now }
        ensures value { (d : ℕ × ℤ) → result ≡ (slice_index_or series.now self.old.place d).1 }
        ensures index { self.new.index ≡ self.old.index }
        ensures place { self.new.place ≡ self.old.place + 1 }
        ensures next { self.new.next ≡ first_time (drop (self.old.place + 1) series.now) }
    {
        let value = series[self.place].1;
        self.place += 1;
        self.next = time_at(series, self.place);
        value
    }

    /// The value at a time between the point before the place and the point at it.
    fn value_between(&self, series: &[(u64, i64)], time: u64) -> Option<i64>
        requires stands { StandsAt series.now (time + 1) self.now }
        requires left { self.now.place < length series.now }
        requires missing { AllWithin (λ p. p.0 < time) series.now 0 self.now.place }
        requires limit { All (λ p. p.0 < 2 ^ 43) series.now }
        ensures { result ≡ between (nearest_before series.now time) (nearest_after series.now time) time }
    {
        if self.place == 0 {
            return None;
        }
        let (x0, y0) = series[self.place - 1];
        let (x1, y1) = series[self.place];
        Some(lerp_at(x0, y0, x1, y1, time))
    }
}

/// The time of the point at a place.
#[inline]
fn time_at(series: &[(u64, i64)], place: usize) -> Option<u64>
    ensures { result ≡ first_time (drop place series.now) }
{
    series.get(place).map(|point| point.0)
}

/// How many cursors lie side by side below the tree.
const BUNDLE: usize = 16;

/// The cursors of a few series that follow one another.
#[derive(Drop)]
pub struct Bundle {
    ahead: Ahead,
    cursors: Vec<Cursor>,
}

impl Bundle {
    /// Before the first points of `count` series from the one with the index `first`.
    fn start(alloc: Global, list: &[Dots], first: usize, count: usize) -> Result<Bundle, AllocError>
        requires inside { first + count ≤ length list.now }
        ensures series { IfOk result (λ bundle. series_of list.now bundle.cursors.items ≡ take count (drop first list.now)) }
        ensures stand { IfOk result (λ bundle. BundleStands list.now 0 bundle) }
    {
        let mut next = None;
        let mut cursors = Vec::with_capacity(alloc, count)?;
        for index in first..first + count {
            let cursor = Cursor::start(index, list[index].list());
            next = earlier(next, cursor.next);
            cursors.push(cursor)?;
        }
        let inside = any_inside(&cursors);
        Ok(Bundle {
            ahead: Ahead { next, inside },
            cursors,
        })
    }

    /// Counts what the series give at a time; then the cursors are behind the points of that time.
    fn turn(&mut self, list: &[Dots], between: bool, time: u64, tally: &mut Tally)
        requires stand { BundleStands list.now time self.old }
        requires limit { All (λ series. All (λ p. p.0 < 2 ^ 43) series) list.now }
        requires room { HasRoom tally.old (length (series_of list.now self.old.cursors.items)) }
        ensures series { series_of list.now self.new.cursors.items ≡ series_of list.now self.old.cursors.items }
        ensures stand { BundleStands list.now (time + 1) self.new }
        ensures adds { Adds tally.old tally.new (filter_map (λ series. given_at between series time) (series_of list.now self.old.cursors.items)) }
    {
        if self.ahead.is_due(between, time) {
            self.ahead.next = turn_all(self.cursors.as_mut_slice(), list, between, time, tally);
            self.ahead.inside = any_inside(&self.cursors);
        }
    }
}

/// Whether one of these cursors stands between two points of its series. The first one that does ends the search, so
/// where series go on side by side one look is enough.
fn any_inside(cursors: &[Cursor]) -> bool
    ensures { result ≡ list_any is_inside cursors.now }
{
    cursors.iter().any(Cursor::is_inside)
}

/// Turns each cursor, and gives the earliest time of the points that are left.
fn turn_all(
    cursors: &mut [Cursor],
    list: &[Dots],
    between: bool,
    time: u64,
    tally: &mut Tally,
) -> Option<u64>
    requires stand { All (Stands list.now time) cursors.old }
    requires limit { All (λ series. All (λ p. p.0 < 2 ^ 43) series) list.now }
    requires room { HasRoom tally.old (length cursors.old) }
    ensures series { series_of list.now cursors.new ≡ series_of list.now cursors.old }
    ensures stand { All (Stands list.now (time + 1)) cursors.new }
    ensures adds { Adds tally.old tally.new (filter_map (λ series. given_at between series time) (series_of list.now cursors.old)) }
    ensures next { result ≡ earliest cursors.new }
{
    let mut next = None;
    for i in 0..cursors.len() {
        let left = turn_one(&mut cursors[i], list, between, time, tally);
        next = earlier(next, left);
    }
    next
}

/// Counts what one series gives at a time, and gives the time of its next point.
#[inline]
fn turn_one(
    cursor: &mut Cursor,
    list: &[Dots],
    between: bool,
    time: u64,
    tally: &mut Tally,
) -> Option<u64>
    requires stand { Stands list.now time cursor.old }
    requires limit { All (λ series. All (λ p. p.0 < 2 ^ 43) series) list.now }
    requires room { HasRoom tally.old 1 }
    ensures index { cursor.new.index ≡ cursor.old.index }
    ensures stand { Stands list.now (time + 1) cursor.new }
    ensures adds { Adds tally.old tally.new (filter_map (λ series. given_at between series time) (slice_index_or list.now cursor.old.index [] ∷ [])) }
    ensures next { result ≡ cursor.new.next }
{
    if let Some(value) = cursor.turn(list[cursor.index].list(), between, time) {
        tally.add(value);
    }
    cursor.next
}

/// The cursors of a group in a tree whose pairs know what lies ahead of those below them. So what is not due, as series
/// that have ended or not begun, is left aside as a whole.
#[derive(Drop)]
pub enum Walk {
    /// Over a few series.
    One(Bundle),
    /// Over some series, and over those behind them.
    Both {
        ahead: Ahead,
        left: Box<Walk>,
        right: Box<Walk>,
    },
}

impl Walk {
    /// Before the first points of `count` series from the one with the index `first`.
    pub fn start(
        alloc: Global,
        list: &[Dots],
        first: usize,
        count: usize,
    ) -> Result<Walk, AllocError>
        requires inside { first + count ≤ length list.now }
        ensures walked { IfOk result (λ walk. walked list.now walk ≡ take count (drop first list.now)) }
        ensures stand { IfOk result (λ walk. StandAt list.now 0 walk) }
    {
        if count <= BUNDLE {
            return Ok(Walk::One(Bundle::start(alloc, list, first, count)?));
        }
        let half = count / 2;
        let left = Walk::start(alloc, list, first, half)?;
        let right = Walk::start(alloc, list, first + half, count - half)?;
        Walk::both(alloc, left, right)
    }

    /// Over what two walks are over, one behind the other.
    fn both(alloc: Global, left: Walk, right: Walk) -> Result<Walk, AllocError>
        ensures walked { (list : List (List (ℕ × ℤ))) → IfOk result (λ walk. walked list walk ≡ walked list left ++ walked list right) }
        ensures stand { (list : List (List (ℕ × ℤ))) (time : ℕ) → StandAt list time left → StandAt list time right → IfOk result (λ walk. StandAt list time walk) }
    {
        Ok(Walk::Both {
            ahead: left.ahead().join(right.ahead()),
            left: Box::new(alloc, left)?,
            right: Box::new(alloc, right)?,
        })
    }

    /// The earliest time of the points that are left.
    #[inline]
    pub fn next(&self) -> Option<u64>
        ensures { result ≡ next_of self.now }
    {
        self.ahead().next
    }

    /// What lies ahead of all cursors.
    #[inline]
    fn ahead(&self) -> Ahead
        ensures { result ≡ walk_ahead self.now }
    {
        match self {
            Walk::One(bundle) => bundle.ahead,
            Walk::Both { ahead, .. } => *ahead,
        }
    }

    /// Counts what the series give at a time; then the cursors are behind the points of that time.
    pub fn turn(&mut self, list: &[Dots], between: bool, time: u64, tally: &mut Tally)
        requires stand { StandAt list.now time self.old }
        requires limit { All (λ series. All (λ p. p.0 < 2 ^ 43) series) list.now }
        requires room { HasRoom tally.old (length (walked list.now self.old)) }
        ensures walked { walked list.now self.new ≡ walked list.now self.old }
        ensures stand { StandAt list.now (time + 1) self.new }
        ensures adds { Adds tally.old tally.new (filter_map (λ series. given_at between series time) (walked list.now self.old)) }
    {
        match self {
            Walk::One(bundle) => bundle.turn(list, between, time, tally),
            Walk::Both { ahead, left, right } => {
                if ahead.is_due(between, time) {
                    left.turn(list, between, time, tally);
                    right.turn(list, between, time, tally);
                    *ahead = left.ahead().join(right.ahead());
                }
            }
        }
    }
}

/// The earlier of two times that may be there.
#[inline]
fn earlier(a: Option<u64>, b: Option<u64>) -> Option<u64>
    ensures { result ≡ earlier a b }
{
    match (a, b) {
        (Some(a), Some(b)) => Some(a.min(b)),
        (Some(a), None) => Some(a),
        (None, b) => b,
    }
}
