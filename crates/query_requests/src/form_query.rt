//! Queries in forms.
ghost use Rattle.std.specs.Prelude.{◌≡◌, ◌≤◌, All, codes, length, map, option_map, IfOk};
ghost use Rattle.tsd_base.specs.declared.times.TheConstants.{LAST_TIME};
ghost use Rattle.http_requests.specs.Forms.{all_values, first_value};
ghost use Rattle.query_requests.specs.FormQueries.{end_in, is_set, query_by_form, query_of_form, start_in, subs_of};
ghost use Rattle.query_requests.specs.QueryReadings.{CanWork, Gives, GivesQuery};
ghost use Rattle.query_text.specs.Subs.{CanDown};

use crate::query_parts::{check_count, check_order, last_moment, time_in};
use http_requests::form::Form;
use query_text::queries::{Query, QueryFault, Sub, SubList};
use query_text::subs::read_m;
use std::alloc::Global;

/// Reads the query that a form asks where the clock shows `now`, in milliseconds since 1970.
///
/// The parameters `start` and `end` are times as `read_time_arg` reads them; an end that is missing is now, or the last
/// time where the clock is behind it. Each `m` is a sub query as `read_m` reads it. Times are told in milliseconds where
/// `ms` is there and isn't `false`. Of a name that comes several times, but `m`, the first counts, and others are ignored.
///
/// The first fault is told, in this order: `BadTimes` for a start that is missing or no time, for an end that is no time,
/// for an end before the start; `BadQuery` where there is no `m`, `TooManyQueries` where there are more than
/// `MOST_QUERIES`; then the faults of each `m`, from the left. `OutOfMemory` may come at any time.
#[tactic(auto, unfolding(crate::specs::FormQueries::query_by_form))]
pub fn read_query_form(alloc: Global, form: &[u8], now: u64) -> Result<Query, QueryFault>
    ensures query { GivesQuery result (query_by_form now form.now) }
    ensures can { IfOk result CanWork }
{
    let form = Form::read(alloc, form)?;
    query_of_form(alloc, &form, now)
}

/// The query of a form's parameters.
#[tactic(auto, unfolding(crate::specs::FormQueries::query_of_form))]
fn query_of_form(alloc: Global, form: &Form, now: u64) -> Result<Query, QueryFault>
    ensures query { GivesQuery result (query_of_form now form.now) }
    ensures can { IfOk result CanWork }
{
    let start = start_in(form.first("start"), now)?;
    let end = end_in(form.first("end"), now)?;
    check_order(start, end)?;
    let texts = form.all(alloc, "m")?;
    check_count(texts.len())?;
    let ms = is_set(form.first("ms"));
    let subs = subs_of(alloc, texts.as_slice(), ms)?;
    Ok(Query {
        start,
        end,
        ms,
        subs: SubList::of(subs),
    })
}

/// The time of a start.
fn start_in(text: Option<&str>, now: u64) -> Result<u64, QueryFault>
    ensures time { Gives (λ time. time) result (start_in now (option_map (λ text. text.now) text.entry)) }
    ensures most { IfOk result (λ time. time ≤ LAST_TIME) }
{
    match text {
        Some(text) => time_in(text.as_bytes(), now),
        None => Err(QueryFault::BadTimes),
    }
}

/// The time of an end.
fn end_in(text: Option<&str>, now: u64) -> Result<u64, QueryFault>
    ensures time { Gives (λ time. time) result (end_in now (option_map (λ text. text.now) text.entry)) }
    ensures most { IfOk result (λ time. time ≤ LAST_TIME) }
{
    match text {
        Some(text) => time_in(text.as_bytes(), now),
        None => Ok(last_moment(now)),
    }
}

/// Whether a parameter is there and isn't `false`.
fn is_set(value: Option<&str>) -> bool
    ensures { result ≡ is_set (option_map (λ text. text.now) value.entry) }
{
    match value {
        Some(value) => value.as_bytes() != b"false".as_slice(),
        None => false,
    }
}

/// The sub queries of texts, from the left.
fn subs_of(alloc: Global, texts: &[&str], ms: bool) -> Result<Vec<Sub>, QueryFault>
    ensures subs { Gives (λ subs. subs.items) result (subs_of ms (map (λ text. text.now) texts.now)) }
    ensures downs { IfOk result (λ subs. All (CanDown ms) subs.items) }
{
    let mut subs = Vec::new(alloc);
    for text in texts {
        let sub = read_m(alloc, text.as_bytes(), ms)?;
        subs.push(sub)?;
    }
    Ok(subs)
}
