//! What a request for last points asks.
ghost use Rattle.std.specs.Prelude.{◌≡◌, ◌≤◌, codes, map, IfOk};
ghost use Rattle.http_requests.specs.Forms.{all_values, first_value};
ghost use Rattle.http_series.specs.ArgumentReading.{Gives, number_or, or_fault};
ghost use Rattle.http_series.specs.SeriesRequests.{all_named, lasts_asked, lasts_by_form, lasts_of_form, series_in};
ghost use Rattle.http_series.specs.SeriesTexts.{named_by, series_named};
ghost use Rattle.http_series.specs.declared.argument_fault.ArgumentFault.TheVariants.{BadBackScan};

use crate::argument_fault::ArgumentFault;
use crate::counted_numbers::number_or;
use crate::one_value::{pairs_of, tags_by};
use crate::series_text::series_or;
use http_requests::form::Form;
use query_text::queries::Sub;
use std::alloc::Global;
use tsd_base::names::Name;
use tsd_base::tags::Tags;

/// The most series whose last points can be asked for at once.
pub const MOST_TIMESERIES: usize = 16;

/// The most hours to look back.
pub const MOST_HOURS: u32 = 8784;

/// A series by its names.
#[derive(Drop)]
pub struct SeriesName {
    pub metric: Name,
    pub tags: Tags,
}

/// The series whose last points are asked for.
#[derive(Drop)]
pub struct LastRequest {
    /// 1 to 16 series.
    pub series: Vec<SeriesName>,
    /// How many hours before that of the moment are in reach, at most 8,784.
    pub back: u32,
}

/// The last points that a form asks for: each `timeseries` is a text that names a series, and `back_scan` the hours to look back.
///
/// A text names a series where `series_meta::read_series` reads it and its filters have 1 to 8 different keys, each with one value, as
/// `m{h=a}` and `m{h=literal_or(a)}`. Without `back_scan` it is 0. `BadTimeseries` exactly where there are no texts or more than 16, or
/// one names no series; then `BadBackScan` exactly where `back_scan` isn't digits of a number from 0 to 8,784.
#[tactic(auto, unfolding(crate::specs::SeriesRequests::lasts_by_form))]
pub fn read_lasts(alloc: Global, form: &[u8]) -> Result<LastRequest, ArgumentFault>
    ensures asked { Gives lasts_asked result (lasts_by_form form.now) }
    ensures back { IfOk result (λ request. request.back ≤ 8784) }
{
    let form = Form::read(alloc, form)?;
    lasts_of_form(alloc, &form)
}

#[tactic(auto, unfolding(crate::specs::SeriesRequests::lasts_of_form))]
fn lasts_of_form(alloc: Global, form: &Form) -> Result<LastRequest, ArgumentFault>
    ensures asked { Gives lasts_asked result (lasts_of_form form.now) }
    ensures back { IfOk result (λ request. request.back ≤ 8784) }
{
    let texts = form.all(alloc, "timeseries")?;
    let series = series_in(alloc, texts.as_slice())?;
    let back = back_in(form)?;
    Ok(LastRequest { series, back })
}

/// The series that 1 to 16 texts name.
fn series_in(alloc: Global, texts: &[&str]) -> Result<Vec<SeriesName>, ArgumentFault>
    ensures { Gives (λ series. series.items) result (series_in (map (λ text. text.now) texts.now)) }
{
    if 1 <= texts.len() && texts.len() <= MOST_TIMESERIES {
        return all_named(alloc, texts);
    }
    Err(ArgumentFault::BadTimeseries)
}

/// The series that texts name.
fn all_named(alloc: Global, texts: &[&str]) -> Result<Vec<SeriesName>, ArgumentFault>
    ensures { Gives (λ series. series.items) result (all_named (map (λ text. text.now) texts.now)) }
{
    let mut series = Vec::new(alloc);
    for text in texts {
        let one = series_named(alloc, text.as_bytes())?;
        series.push(one)?;
    }
    Ok(series)
}

/// The series that a text names.
#[tactic(auto, unfolding(crate::specs::SeriesTexts::series_named))]
fn series_named(alloc: Global, text: &[u8]) -> Result<SeriesName, ArgumentFault>
    ensures { Gives (λ series. series) result (series_named text.now) }
{
    let sub = series_or(alloc, ArgumentFault::BadTimeseries, text)?;
    named_by(alloc, sub)
}

/// The series whose metric and filters these are.
fn named_by(alloc: Global, sub: Sub) -> Result<SeriesName, ArgumentFault>
    ensures { Gives (λ series. series) result (named_by sub) }
{
    let pairs = pairs_of(alloc, sub.filters.list())?;
    let tags = tags_by(alloc, pairs)?;
    Ok(SeriesName {
        metric: sub.metric,
        tags,
    })
}

/// The hours to look back.
fn back_in(form: &Form) -> Result<u32, ArgumentFault>
    ensures back { Gives (λ back. back) result (or_fault BadBackScan (number_or 0 0 8784 (first_value (codes "back_scan") form.now))) }
    ensures most { IfOk result (λ back. back ≤ 8784) }
{
    match number_or(0, 0, MOST_HOURS, form.first("back_scan")) {
        Some(back) => Ok(back),
        None => Err(ArgumentFault::BadBackScan),
    }
}
