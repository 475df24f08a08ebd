//! Sub queries in JSON.
ghost use Rattle.std.specs.Prelude.{◌≡◌, codes, false, IfOk, IfSome};
ghost use Rattle.serde_json.specs.Find.{get};
ghost use Rattle.serde_json.specs.View.{view};
ghost use Rattle.query_text.specs.Downs.{IsInterval};
ghost use Rattle.query_requests.specs.JsonSubs.{down_in, how_in, metric_in, sub_in, unless_rate};
ghost use Rattle.query_requests.specs.QueryReadings.{Gives};

use crate::json_filters::read_json_filters;
use crate::json_members::{flag_in, text_in};
use query_text::aggregators::aggregator_named;
use query_text::cuts::name_of;
use query_text::downs::read_down;
use query_text::queries::{FilterList, QueryFault, Sub};
use serde_json::Value;
use std::alloc::Global;
use tsd_base::kinds::{Aggregator, Down};
use tsd_base::names::Name;

/// Reads the sub query that a JSON value is. Where `ms` is false a downsample's interval has to be whole seconds.
#[tactic(auto, unfolding(crate::specs::JsonSubs::sub_in))]
pub(crate) fn read_sub(alloc: Global, value: &Value, ms: bool) -> Result<Sub, QueryFault>
    ensures sub { Gives (λ sub. sub) result (sub_in ms (view value.now)) }
    ensures interval { IfOk result (λ sub. IfSome sub.down (λ down. IsInterval ms down.interval)) }
{
    if !value.is_object() {
        return Err(QueryFault::BadQuery);
    }
    let how = how_in(text_in(value, "aggregator")?)?;
    refuse_rate(flag_in(value, "rate")?)?;
    let down = down_in(value, ms)?;
    let metric = metric_in(alloc, text_in(value, "metric")?)?;
    let filters = read_json_filters(alloc, value)?;
    Ok(Sub {
        how,
        down,
        metric,
        filters: FilterList::of(filters),
    })
}

fn how_in(name: &str) -> Result<Aggregator, QueryFault>
    ensures { Gives (λ how. how) result (how_in name.now) }
{
    match aggregator_named(name.as_bytes()) {
        Some(how) => Ok(how),
        None => Err(QueryFault::UnknownAggregator),
    }
}

fn refuse_rate(rate: bool) -> Result<(), QueryFault>
    ensures { Gives (λ _. false) result (unless_rate rate) }
{
    if rate {
        return Err(QueryFault::RateRefused);
    }
    Ok(())
}

fn down_in(value: &Value, ms: bool) -> Result<Option<Down>, QueryFault>
    ensures down { Gives (λ down. down) result (down_in ms (get (codes "downsample") (view value.now))) }
    ensures interval { IfOk result (λ down. IfSome down (λ down. IsInterval ms down.interval)) }
{
    let Some(found) = value.get("downsample") else {
        return Ok(None);
    };
    let Some(text) = found.as_str() else {
        return Err(QueryFault::BadQuery);
    };
    match read_down(text.as_bytes(), ms) {
        Some(down) => Ok(Some(down)),
        None => Err(QueryFault::BadDownsample),
    }
}

fn metric_in(alloc: Global, text: &str) -> Result<Name, QueryFault>
    ensures { Gives (λ name. name) result (metric_in text.now) }
{
    match name_of(alloc, text.as_bytes())? {
        Some(name) => Ok(name),
        None => Err(QueryFault::BadM { at: 0 }),
    }
}
