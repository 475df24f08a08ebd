//! Which names are asked to be suggested.
ghost use Rattle.std.specs.Prelude.{◌≡◌, codes, option_and_then, IfOk};
ghost use Rattle.serde_json.specs.Find.{as_str, get};
ghost use Rattle.serde_json.specs.View.{view};
ghost use Rattle.http_requests.specs.Forms.{first_value};
ghost use Rattle.http_requests.specs.JsonBodies.{json_of};
ghost use Rattle.name_requests.specs.declared.fault.SuggestFault.TheVariants.{BadMax, BadType, NotJson};
ghost use Rattle.name_requests.specs.RequestReading.{or_fault};
ghost use Rattle.name_requests.specs.SuggestRequests.{GivesSuggest, IsMax, kind_named, kind_of, max_in, max_named, max_of, max_within, prefix_in, prefix_of, suggest_by_body, suggest_by_form, suggest_in, suggest_of_form, suggest_of_value, suggestion};

use crate::fault::SuggestFault;
use http_requests::form::Form;
use http_requests::json_body::read_json;
use serde_json::Value;
use short_bytes::short::Bytes;
use std::alloc::{AllocError, Global};
use tsd_base::digits::read_digits;
use tsd_base::kinds::Kind;

/// The most names that can be asked for.
pub const MOST_SUGGESTED: u64 = 10_000;

/// How many names are asked for where a request doesn't say it.
pub const USUAL_MAX: u32 = 25;

/// What is to be suggested: names of a kind that begin with a prefix.
#[derive(Drop)]
pub struct SuggestRequest {
    pub kind: Kind,
    pub prefix: Bytes,
    /// The most names that are wanted, from 1 to 10,000.
    pub max: u32,
}

/// What a form asks: `type` is `metrics`, `tagk` or `tagv`, `q` is the prefix, and `max` the most names that are wanted.
///
/// Without `q` the prefix is empty, and without `max` it is 25. A bad type is told before a bad `max`.
#[tactic(auto, unfolding(crate::specs::SuggestRequests::suggest_by_form))]
pub fn suggest_by_form(alloc: Global, form: &[u8]) -> Result<SuggestRequest, SuggestFault>
    ensures gives { GivesSuggest suggestion result (suggest_by_form form.now) }
    ensures bounded { IfOk result (λ request. IsMax request.max) }
{
    let form = Form::read(alloc, form)?;
    suggest_of_form(alloc, &form)
}

/// What a body asks: an object with the members that a form has as parameters. `max` is a number, or a string of digits.
///
/// The first of these faults is told: the body is no JSON; it is no object; the type is missing, no string, or no type;
/// the prefix is no string; `max` is bad.
#[tactic(auto, unfolding(crate::specs::SuggestRequests::suggest_by_body))]
pub fn suggest_by_body(alloc: Global, body: &[u8]) -> Result<SuggestRequest, SuggestFault>
    ensures gives { GivesSuggest suggestion result (suggest_by_body body.now) }
    ensures bounded { IfOk result (λ request. IsMax request.max) }
{
    let value = value_of(alloc, body)?;
    suggest_of_value(alloc, &value)
}

fn suggest_of_form(alloc: Global, form: &Form) -> Result<SuggestRequest, SuggestFault>
    ensures gives { GivesSuggest suggestion result (suggest_of_form form.now) }
    ensures bounded { IfOk result (λ request. IsMax request.max) }
{
    let kind = kind_in_form(form)?;
    let max = max_in_form(form)?;
    let prefix = prefix_in_form(alloc, form)?;
    Ok(SuggestRequest { kind, prefix, max })
}

fn kind_in_form(form: &Form) -> Result<Kind, SuggestFault>
    ensures { GivesSuggest (λ kind. kind) result (kind_of (first_value (codes "type") form.now)) }
{
    match form.first("type") {
        Some(text) => kind_named(text.as_bytes()),
        None => Err(SuggestFault::BadType),
    }
}

fn max_in_form(form: &Form) -> Result<u32, SuggestFault>
    ensures gives { GivesSuggest (λ max. max) result (max_of (first_value (codes "max") form.now)) }
    ensures bounded { IfOk result IsMax }
{
    match form.first("max") {
        Some(text) => max_named(text.as_bytes()),
        None => Ok(USUAL_MAX),
    }
}

fn prefix_in_form(alloc: Global, form: &Form) -> Result<Bytes, AllocError>
    ensures { IfOk result (λ prefix. prefix ≡ prefix_of (first_value (codes "q") form.now)) }
{
    match form.first("q") {
        Some(text) => Bytes::of(alloc, text.as_bytes()),
        None => Ok(Bytes::none()),
    }
}

fn kind_named(text: &[u8]) -> Result<Kind, SuggestFault>
    ensures { GivesSuggest (λ kind. kind) result (or_fault BadType (kind_named text.now)) }
{
    if text == b"metrics".as_slice() {
        return Ok(Kind::Metric);
    }
    if text == b"tagk".as_slice() {
        return Ok(Kind::TagKey);
    }
    if text == b"tagv".as_slice() {
        return Ok(Kind::TagValue);
    }
    Err(SuggestFault::BadType)
}

#[tactic(auto, using(crate::proofs::MaxLemmas::max_within_min))]
fn max_named(text: &[u8]) -> Result<u32, SuggestFault>
    ensures gives { GivesSuggest (λ max. max) result (or_fault BadMax (max_named text.now)) }
    ensures bounded { IfOk result IsMax }
{
    match read_digits(text) {
        Some(n) => max_within(n),
        None => Err(SuggestFault::BadMax),
    }
}

fn max_within(n: u64) -> Result<u32, SuggestFault>
    ensures gives { GivesSuggest (λ max. max) result (or_fault BadMax (max_within n)) }
    ensures bounded { IfOk result IsMax }
{
    match n {
        1..=MOST_SUGGESTED => Ok(n as u32),
        _ => Err(SuggestFault::BadMax),
    }
}

fn value_of(alloc: Global, body: &[u8]) -> Result<Value, SuggestFault>
    ensures { GivesSuggest view result (or_fault NotJson (json_of body.now)) }
{
    match read_json(alloc, body) {
        Ok(Some(value)) => Ok(value),
        Ok(None) => Err(SuggestFault::NotJson),
        Err(_) => Err(SuggestFault::OutOfMemory),
    }
}

fn suggest_of_value(alloc: Global, value: &Value) -> Result<SuggestRequest, SuggestFault>
    ensures gives { GivesSuggest suggestion result (suggest_of_value (view value.now)) }
    ensures bounded { IfOk result (λ request. IsMax request.max) }
{
    if !value.is_object() {
        return Err(SuggestFault::BadRequest);
    }
    suggest_in(alloc, value)
}

fn suggest_in(alloc: Global, value: &Value) -> Result<SuggestRequest, SuggestFault>
    ensures gives { GivesSuggest suggestion result (suggest_in (view value.now)) }
    ensures bounded { IfOk result (λ request. IsMax request.max) }
{
    let kind = kind_in(value)?;
    let prefix = prefix_in(alloc, value)?;
    let max = max_in(value)?;
    Ok(SuggestRequest { kind, prefix, max })
}

fn kind_in(value: &Value) -> Result<Kind, SuggestFault>
    ensures { GivesSuggest (λ kind. kind) result (kind_of (option_and_then as_str (get (codes "type") (view value.now)))) }
{
    let Some(found) = value.get("type") else {
        return Err(SuggestFault::BadType);
    };
    match found.as_str() {
        Some(text) => kind_named(text.as_bytes()),
        None => Err(SuggestFault::BadType),
    }
}

fn prefix_in(alloc: Global, value: &Value) -> Result<Bytes, SuggestFault>
    ensures { GivesSuggest (λ prefix. prefix) result (prefix_in (get (codes "q") (view value.now))) }
{
    let Some(found) = value.get("q") else {
        return Ok(Bytes::none());
    };
    match found.as_str() {
        Some(text) => Ok(Bytes::of(alloc, text.as_bytes())?),
        None => Err(SuggestFault::BadRequest),
    }
}

fn max_in(value: &Value) -> Result<u32, SuggestFault>
    ensures gives { GivesSuggest (λ max. max) result (max_in (get (codes "max") (view value.now))) }
    ensures bounded { IfOk result IsMax }
{
    let Some(found) = value.get("max") else {
        return Ok(USUAL_MAX);
    };
    if let Some(text) = found.as_str() {
        return max_named(text.as_bytes());
    }
    match found.as_u64() {
        Some(n) => max_within(n),
        None => Err(SuggestFault::BadMax),
    }
}
