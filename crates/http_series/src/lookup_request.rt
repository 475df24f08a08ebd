//! What a lookup asks.
ghost use Rattle.std.specs.Prelude.{◌≡◌, ◌≤◌, codes, option_and_then, IfOk};
ghost use Rattle.http_requests.specs.Forms.{first_value};
ghost use Rattle.http_series.specs.ArgumentReading.{Gives, number_or, or_fault};
ghost use Rattle.http_series.specs.SeriesRequests.{lookup_asked, lookup_by_form, lookup_of_form};
ghost use Rattle.http_series.specs.SeriesTexts.{series_of};
ghost use Rattle.http_series.specs.declared.argument_fault.ArgumentFault.TheVariants.{BadLimit, BadLookup};

use crate::argument_fault::ArgumentFault;
use crate::counted_numbers::number_or;
use crate::series_text::series_or;
use http_requests::form::Form;
use query_text::queries::Sub;
use std::alloc::Global;

/// The most series that can be asked for.
pub const MOST_SERIES: u32 = 10_000;

/// How many series are asked for where a request doesn't say it.
pub const USUAL_LIMIT: u32 = 25;

/// The series of a metric that pass filters, at most so many.
#[derive(Drop)]
pub struct LookupRequest {
    /// The metric and the filters.
    pub sub: Sub,
    /// The most series that are wanted, from 1 to 10,000.
    pub limit: u32,
}

/// What a form asks to look up: `m` is a text that `series_meta::read_series` reads, and `limit` the most series that are wanted.
///
/// Of several `m` the first counts. Without `limit` it is 25. `BadLookup` exactly where `m` is missing or can't be read; then `BadLimit`
/// exactly where `limit` isn't digits of a number from 1 to 10,000.
#[tactic(auto, unfolding(crate::specs::SeriesRequests::lookup_by_form))]
pub fn read_lookup(alloc: Global, form: &[u8]) -> Result<LookupRequest, ArgumentFault>
    ensures asked { Gives lookup_asked result (lookup_by_form form.now) }
    ensures limit { IfOk result (λ request. (1 ≤ request.limit) × (request.limit ≤ 10000)) }
{
    let form = Form::read(alloc, form)?;
    lookup_of_form(alloc, &form)
}

#[tactic(auto, unfolding(crate::specs::SeriesRequests::lookup_of_form))]
fn lookup_of_form(alloc: Global, form: &Form) -> Result<LookupRequest, ArgumentFault>
    ensures asked { Gives lookup_asked result (lookup_of_form form.now) }
    ensures limit { IfOk result (λ request. (1 ≤ request.limit) × (request.limit ≤ 10000)) }
{
    let sub = sub_in(alloc, form)?;
    let limit = limit_in(form)?;
    Ok(LookupRequest { sub, limit })
}

/// The series of the first `m`.
fn sub_in(alloc: Global, form: &Form) -> Result<Sub, ArgumentFault>
    ensures { Gives (λ sub. sub) result (or_fault BadLookup (option_and_then series_of (first_value (codes "m") form.now))) }
{
    match form.first("m") {
        Some(text) => series_or(alloc, ArgumentFault::BadLookup, text.as_bytes()),
        None => Err(ArgumentFault::BadLookup),
    }
}

/// The most series that are wanted.
fn limit_in(form: &Form) -> Result<u32, ArgumentFault>
    ensures limit { Gives (λ limit. limit) result (or_fault BadLimit (number_or 25 1 10000 (first_value (codes "limit") form.now))) }
    ensures most { IfOk result (λ limit. (1 ≤ limit) × (limit ≤ 10000)) }
{
    match number_or(USUAL_LIMIT, 1, MOST_SERIES, form.first("limit")) {
        Some(limit) => Ok(limit),
        None => Err(ArgumentFault::BadLimit),
    }
}
