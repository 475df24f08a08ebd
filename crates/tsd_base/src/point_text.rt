//! Reading a point of a line.
ghost use Rattle.std.specs.Prelude.{◌≡◌, false, position, IfOk, MatchResult, MatchOption};
ghost use Rattle.std.specs.List.{list_any};
ghost use Rattle.tsd_base.specs.declared.points.PointFault.TheVariants.{Metric, Time, Value, TagKey, TagValue, OutOfMemory};
ghost use Rattle.tsd_base.specs.Names.{IsName, name_of};
ghost use Rattle.tsd_base.specs.Points.{Gives, GivesPoint, HasParts, HasFewWords, IsCut, data_point, point_of_parts, pairs_of, tag_of, is_equals, told_as, from_tags};
ghost use Rattle.tsd_base.specs.TagList.{IsTags};
ghost use Rattle.tsd_base.specs.Words.{words_of};

use crate::names::{Name, NameFault};
use crate::points::{Point, PointFault};
use crate::tags::{Tags, TagsFault};
use crate::times::{BadTime, read_time};
use crate::values::{ValueFault, read_value};
use crate::words::next_word;
use std::alloc::{AllocFailed, Global};

/// The first three words of a line, and what stands behind them.
#[derive(Clone, Copy)]
struct Parts<'a> {
    metric: &'a [u8],
    time: &'a [u8],
    value: &'a [u8],
    tags: &'a [u8],
}

/// Reads a point: a metric, a time, a value, and one or more tags `key=value`, between spaces.
///
/// The first fault is told, in this order: the number of words, the metric, the time, the value, each tag from the
/// left (its form, its key, its value), and then what is wrong with the tags as a whole.
pub fn read_point(alloc: Global, line: &[u8]) -> Result<Point, PointFault>
    ensures gives { GivesPoint result line.now }
    ensures formed { IfOk result (λ point. IsName point.metric × IsTags point.tags) }
{
    let parts = first_words(line)?;
    read_parts(alloc, &parts)
}

/// The point of the parts of a line.
#[tactic(auto, unfolding(crate::specs::Points::point_of_parts))]
fn read_parts(alloc: Global, parts: &Parts) -> Result<Point, PointFault>
    ensures gives { Gives data_point result (point_of_parts parts.now.metric.now parts.now.time.now parts.now.value.now (words_of parts.now.tags.now)) }
    ensures formed { IfOk result (λ point. IsName point.metric × IsTags point.tags) }
{
    let metric = read_metric(alloc, parts.metric)?;
    let (time, fine) = read_time(parts.time)?;
    let value = read_value(parts.value)?;
    let pairs = read_pairs(alloc, parts.tags)?;
    let tags = Tags::build(alloc, pairs)?;
    Ok(Point {
        metric,
        tags,
        time,
        fine,
        value,
    })
}

/// The first three words, and what stands behind them, which has a word.
fn first_words(line: &[u8]) -> Result<Parts<'_>, PointFault>
    ensures { MatchResult result (HasParts line.now) (HasFewWords line.now) }
{
    let Some((metric, rest)) = next_word(line) else {
        return Err(PointFault::FewWords { found: 0 });
    };
    let Some((time, rest)) = next_word(rest) else {
        return Err(PointFault::FewWords { found: 1 });
    };
    let Some((value, rest)) = next_word(rest) else {
        return Err(PointFault::FewWords { found: 2 });
    };
    match next_word(rest) {
        Some(_) => Ok(Parts {
            metric,
            time,
            value,
            tags: rest,
        }),
        None => Err(PointFault::FewWords { found: 3 }),
    }
}

/// The pairs of the words of a text, from the left.
fn read_pairs(alloc: Global, text: &[u8]) -> Result<Vec<(Name, Name)>, PointFault>
    ensures { Gives (λ pairs. pairs.items) result (pairs_of 1 (words_of text.now)) }
{
    let mut pairs = Vec::new(alloc);
    // Many series have two tags, and the list is kept with a series that is known.
    let _ = pairs.reserve_exact(2);
    let mut rest = text;
    while let Some((word, after)) = next_word(rest) {
        let pair = read_tag(alloc, pairs.len() + 1, word)?;
        pairs.push(pair)?;
        rest = after;
    }
    Ok(pairs)
}

/// The pair of a word `key=value`, cut at its first `=`.
fn read_tag(alloc: Global, index: usize, word: &[u8]) -> Result<(Name, Name), PointFault>
    ensures { Gives (λ pair. pair) result (tag_of index word.now) }
{
    let Some((key, value)) = sides(word) else {
        return Err(PointFault::TagForm { index });
    };
    let key = read_key(alloc, index, key)?;
    let value = read_tag_value(alloc, index, value)?;
    Ok((key, value))
}

/// What stands before the first `=` of a word, and what stands behind it.
fn sides(word: &[u8]) -> Option<(&[u8], &[u8])>
    ensures { MatchOption result (list_any is_equals word.now ≡ false)
        (λ found. IsCut word.now found.0.now found.1.now) }
{
    let at = place_of_equals(word)?;
    Some((&word[..at], &word[at + 1..]))
}

/// The place of the first `=`.
fn place_of_equals(word: &[u8]) -> Option<usize>
    ensures { result ≡ position is_equals word.now }
{
    word.iter().position(|b| *b == b'=')
}

fn read_metric(alloc: Global, bytes: &[u8]) -> Result<Name, PointFault>
    ensures gives { Gives (λ name. name) result (told_as Metric (name_of bytes.now)) }
    ensures named { IfOk result IsName }
{
    match Name::read(alloc, bytes) {
        Ok(name) => Ok(name),
        Err(NameFault::OutOfMemory) => Err(PointFault::OutOfMemory),
        Err(fault) => Err(PointFault::Metric { fault }),
    }
}

fn read_key(alloc: Global, index: usize, bytes: &[u8]) -> Result<Name, PointFault>
    ensures { Gives (λ name. name) result (told_as (TagKey index) (name_of bytes.now)) }
{
    match Name::read(alloc, bytes) {
        Ok(name) => Ok(name),
        Err(NameFault::OutOfMemory) => Err(PointFault::OutOfMemory),
        Err(fault) => Err(PointFault::TagKey { index, fault }),
    }
}

fn read_tag_value(alloc: Global, index: usize, bytes: &[u8]) -> Result<Name, PointFault>
    ensures { Gives (λ name. name) result (told_as (TagValue index) (name_of bytes.now)) }
{
    match Name::read(alloc, bytes) {
        Ok(name) => Ok(name),
        Err(NameFault::OutOfMemory) => Err(PointFault::OutOfMemory),
        Err(fault) => Err(PointFault::TagValue { index, fault }),
    }
}

impl<T: Drop> From<AllocFailed<T>> for PointFault {
    ghost from_gives = { λ _ fault. fault ≡ OutOfMemory };

    fn from(_failed: AllocFailed<T>) -> PointFault {
        PointFault::OutOfMemory
    }
}

impl From<BadTime> for PointFault {
    ghost from_gives = { λ _ fault. fault ≡ Time };

    fn from(_bad: BadTime) -> PointFault {
        PointFault::Time
    }
}

impl From<ValueFault> for PointFault {
    ghost from_gives = { λ inner fault. fault ≡ Value inner };

    fn from(fault: ValueFault) -> PointFault {
        PointFault::Value { fault }
    }
}

impl From<TagsFault> for PointFault {
    ghost from_gives = { λ inner fault. fault ≡ from_tags inner };

    fn from(fault: TagsFault) -> PointFault {
        match fault {
            TagsFault::OutOfMemory => PointFault::OutOfMemory,
            fault => PointFault::Tags { fault },
        }
    }
}
