//! Queries in JSON.
ghost use Rattle.std.specs.Prelude.{◌≡◌, ◌≤◌, All, codes, IfOk};
ghost use Rattle.tsd_base.specs.declared.times.TheConstants.{LAST_TIME};
ghost use Rattle.serde_json.specs.Find.{get};
ghost use Rattle.serde_json.specs.View.{items_view, view};
ghost use Rattle.query_requests.specs.JsonQueries.{end_by, query_by_json, start_by, subs_in, time_of};
ghost use Rattle.query_requests.specs.QueryReadings.{CanWork, Gives, GivesQuery};
ghost use Rattle.query_text.specs.Subs.{CanDown};

use crate::json_members::{count_of, flag_in, items_in};
use crate::json_subs::read_sub;
use crate::query_parts::{check_count, check_order, last_moment, time_in};
use itoa::Buffer;
use query_text::queries::{Query, QueryFault, Sub, SubList};
use serde_json::Value;
use std::alloc::Global;

/// Reads the query that a JSON value asks where the clock shows `now`, in milliseconds since 1970.
///
/// It is an object. Its members `start` and `end` are strings, which are times as `read_time_arg` reads them, or numbers,
/// which are read as their digits; an end that is absent is now, or the last time where the clock is behind it.
/// `msResolution` says whether times are told in milliseconds, and is false where it is absent. `queries` is an array of
/// sub queries, which are objects: `aggregator` and `metric` are strings, `rate`, false where it is absent, isn't true,
/// `downsample` is a string, `tags` an object of strings, each a filter that groups, and `filters` an array of objects
/// with the strings `type`, `tagk` and `filter`, and `groupBy`, false where it is absent. Others are ignored, and null is
/// no absence.
///
/// The first fault is told, in this order: `BadQuery` where it is no object; for the start and then the end, `BadQuery`
/// where it is missing (the start) or neither a string nor a number, `BadTimes` where it is no time; `BadTimes` for an end
/// before the start; `BadQuery` for the kind of `msResolution` and `queries`; `BadQuery` where there is no sub query,
/// `TooManyQueries` where there are more than `MOST_QUERIES`; then those of each sub query, from the left: of its
/// aggregator, rate, downsample, metric, tags and filters. `OutOfMemory` may come at any time.
#[tactic(auto, unfolding(crate::specs::JsonQueries::query_by_json))]
pub fn read_query_json(alloc: Global, value: &Value, now: u64) -> Result<Query, QueryFault>
    ensures query { GivesQuery result (query_by_json now (view value.now)) }
    ensures can { IfOk result CanWork }
{
    if !value.is_object() {
        return Err(QueryFault::BadQuery);
    }
    let start = start_by(value, now)?;
    let end = end_by(value, now)?;
    check_order(start, end)?;
    let ms = flag_in(value, "msResolution")?;
    let queries = items_in(value, "queries")?;
    check_count(count_of(queries))?;
    let subs = subs_in(alloc, queries, ms)?;
    Ok(Query {
        start,
        end,
        ms,
        subs: SubList::of(subs),
    })
}

/// The time of the start, which has to be there.
fn start_by(value: &Value, now: u64) -> Result<u64, QueryFault>
    ensures time { Gives (λ time. time) result (start_by now (get (codes "start") (view value.now))) }
    ensures most { IfOk result (λ time. time ≤ LAST_TIME) }
{
    match value.get("start") {
        Some(found) => time_of(found, now),
        None => Err(QueryFault::BadQuery),
    }
}

/// The time of the end.
fn end_by(value: &Value, now: u64) -> Result<u64, QueryFault>
    ensures time { Gives (λ time. time) result (end_by now (get (codes "end") (view value.now))) }
    ensures most { IfOk result (λ time. time ≤ LAST_TIME) }
{
    match value.get("end") {
        Some(found) => time_of(found, now),
        None => Ok(last_moment(now)),
    }
}

/// The time of a string, or of a number's digits.
fn time_of(value: &Value, now: u64) -> Result<u64, QueryFault>
    ensures time { Gives (λ time. time) result (time_of now (view value.now)) }
    ensures most { IfOk result (λ time. time ≤ LAST_TIME) }
{
    if let Some(text) = value.as_str() {
        return time_in(text.as_bytes(), now);
    }
    if !value.is_number() {
        return Err(QueryFault::BadQuery);
    }
    match value.as_u64() {
        Some(n) => time_in(Buffer::new().format(n).as_bytes(), now),
        None => Err(QueryFault::BadTimes),
    }
}

/// The sub queries, from the left.
fn subs_in(alloc: Global, queries: &Vec<Value>, ms: bool) -> Result<Vec<Sub>, QueryFault>
    ensures subs { Gives (λ subs. subs.items) result (subs_in ms (items_view queries.now.items)) }
    ensures downs { IfOk result (λ subs. All (CanDown ms) subs.items) }
{
    let mut subs = Vec::new(alloc);
    for query in queries.as_slice() {
        let sub = read_sub(alloc, query, ms)?;
        subs.push(sub)?;
    }
    Ok(subs)
}
