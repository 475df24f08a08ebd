//! What series make: values between points, aggregations and buckets. A point is written `TIME:VALUE`.
ghost use Rattle.std.specs.Prelude.{◌<◌, ◌^◌, All, IfOk};

use crate::text::{Bad, first_word, number, signed};
use crate::told::Told;
use downsample::{DownFault, buckets, down};
use lerp_aggregate::aggregation::{AggFault, aggregate};
use std::alloc::Global;
use tsd_base::dots::Dots;
use tsd_base::kinds::{Aggregator, Down, Fill, Function};
use tsd_base::times::LAST_TIME;

/// The time and the value of a word.
fn point(word: &str) -> Result<(u64, i64), Bad> {
    match word.split_once(':') {
        Some((time, value)) => Ok((number(time)?, signed(value)?)),
        None => Err(Bad::Line("no point TIME:VALUE")),
    }
}

/// Adds a point behind the last one.
fn add_point(dots: &mut Dots, time: u64, value: i64) -> Result<(), Bad> {
    if dots.list().iter().all(|dot| dot.0 < time) {
        dots.push(time, value)?;
        Ok(())
    } else {
        Err(Bad::Line("times that don't rise"))
    }
}

/// The points of words.
fn dots(alloc: Global, text: &str) -> Result<Dots, Bad> {
    let mut dots = Dots::make(alloc);
    for word in text.split_ascii_whitespace() {
        let (time, value) = point(word)?;
        add_point(&mut dots, time, value)?;
    }
    Ok(dots)
}

/// Adds points.
fn tell_dots(out: &mut Told, dots: &Dots) {
    if dots.list().is_empty() {
        out.add("(none)");
    }
    for &(time, value) in dots.list() {
        out.number(time);
        out.add(":");
        out.signed(value);
        out.add(" ");
    }
}

/// Adds the time at which a sum is too large.
fn tell_overflow(out: &mut Told, time: u64) {
    out.add("overflow at ");
    out.number(time);
}

/// An aggregator by its name.
fn aggregator(word: &str) -> Result<Aggregator, Bad> {
    Ok(match word {
        "sum" => Aggregator::Sum,
        "min" => Aggregator::Min,
        "max" => Aggregator::Max,
        "avg" => Aggregator::Avg,
        "count" => Aggregator::Count,
        "zimsum" => Aggregator::Zimsum,
        "mimmin" => Aggregator::Mimmin,
        "mimmax" => Aggregator::Mimmax,
        "none" => Aggregator::NoneOf,
        _ => return Err(Bad::Line("no aggregator")),
    })
}

/// A series whose times an aggregation takes.
fn series(alloc: Global, text: &str) -> Result<Dots, Bad>
    ensures { IfOk result (λ dots. All (λ dot. dot.0 < 2 ^ 43) dots) }
{
    let dots = dots(alloc, text)?;
    if dots.list().iter().all(|dot| dot.0 < 1 << 43) {
        Ok(dots)
    } else {
        Err(Bad::Line("a time above 2^43"))
    }
}

/// Series with `|` between them, or none.
fn group(alloc: Global, text: &str) -> Result<Vec<Dots>, Bad>
    ensures { IfOk result (λ group. All (λ series. All (λ dot. dot.0 < 2 ^ 43) series) group.items) }
{
    let mut group = Vec::new(alloc);
    if text.is_empty() {
        return Ok(group);
    }
    for part in text.split('|') {
        let series = series(alloc, part)?;
        group.push(series)?;
    }
    Ok(group)
}

/// `aggregate AGGREGATOR SERIES | SERIES ..`: the points that they make, or where they overflow.
pub fn aggregated(alloc: Global, text: &str, out: &mut Told) -> Result<(), Bad> {
    let (word, text) = first_word(text);
    let how = aggregator(word)?;
    let group = group(alloc, text)?;
    if how == Aggregator::NoneOf && group.len() != 1 {
        return Err(Bad::Line("none is of one series"));
    }
    match aggregate(alloc, group.as_slice(), how) {
        Ok(dots) => tell_dots(out, &dots),
        Err(AggFault::Overflow { time }) => tell_overflow(out, time),
        Err(AggFault::OutOfMemory) => out.lose(),
    }
    Ok(())
}

/// A function by its name.
fn function(word: &str) -> Result<Function, Bad> {
    Ok(match word {
        "sum" => Function::Sum,
        "min" => Function::Min,
        "max" => Function::Max,
        "avg" => Function::Avg,
        "count" => Function::Count,
        "first" => Function::First,
        "last" => Function::Last,
        "zimsum" => Function::Zimsum,
        "mimmin" => Function::Mimmin,
        "mimmax" => Function::Mimmax,
        _ => return Err(Bad::Line("no function")),
    })
}

/// A fill by its name.
fn fill(word: &str) -> Result<Fill, Bad> {
    match word {
        "none" => Ok(Fill::NoFill),
        "zero" => Ok(Fill::Zero),
        _ => Err(Bad::Line("no fill")),
    }
}

/// `down START END INTERVAL FUNCTION FILL SERIES`: a point for each bucket, or the one that overflows.
pub fn downsampled(alloc: Global, text: &str, out: &mut Told) -> Result<(), Bad> {
    let (start, text) = first_word(text);
    let (end, text) = first_word(text);
    let (interval, text) = first_word(text);
    let (word, text) = first_word(text);
    let (fill_word, text) = first_word(text);
    let how = Down {
        interval: number(interval)?,
        function: function(word)?,
        fill: fill(fill_word)?,
    };
    let made = made(alloc, text, how, number(start)?, number(end)?)?;
    match made {
        Ok(dots) => tell_dots(out, &dots),
        Err(DownFault::Overflow { time }) => tell_overflow(out, time),
        Err(DownFault::OutOfMemory) => out.lose(),
    }
    Ok(())
}

/// What a series makes, where the call is allowed.
fn made(
    alloc: Global,
    text: &str,
    how: Down,
    start: u64,
    end: u64,
) -> Result<Result<Dots, DownFault>, Bad> {
    let dots = dots(alloc, text)?;
    if how.interval < 1 || start > end || end > LAST_TIME {
        return Err(Bad::Line("no range of buckets"));
    }
    if how.fill == Fill::Zero && buckets(start, end, how.interval) > 1_000_000 {
        return Err(Bad::Line("too many buckets"));
    }
    Ok(down(alloc, &dots, how, start, end))
}
