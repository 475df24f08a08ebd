//! Which names are asked to be given ids.
ghost use Rattle.std.specs.Prelude.{◌≡◌, option_map, IfOk};
ghost use Rattle.serde_json.specs.Find.{as_str, get};
ghost use Rattle.serde_json.specs.View.{items_view, view};
ghost use Rattle.http_requests.specs.JsonBodies.{json_of};
ghost use Rattle.name_requests.specs.declared.fault.AssignFault.TheVariants.{BadLists, NotJson};
ghost use Rattle.name_requests.specs.AssignRequests.{GivesAssign, assign_by_body, assign_by_form, assign_lists, assign_of_form, assign_of_value, list_in, listed, lists_in, texts_in, texts_of, with_a_list};
ghost use Rattle.name_requests.specs.RequestReading.{or_fault};

use crate::comma_list::comma_names;
use crate::fault::AssignFault;
use http_requests::form::Form;
use http_requests::json_body::read_json;
use serde_json::Value;
use short_bytes::short::Bytes;
use std::alloc::{AllocError, Global};

/// Names that are to be given ids, kind by kind: `None` where the request has no list of a kind. One list is there.
///
/// They are told as they came, and needn't be names; a list may be empty, and a name may come twice.
#[derive(Drop)]
pub struct AssignRequest {
    /// Names of metrics.
    pub metric: Option<Vec<Bytes>>,
    /// Names of tag keys.
    pub tagk: Option<Vec<Bytes>>,
    /// Names of tag values.
    pub tagv: Option<Vec<Bytes>>,
}

/// What a form asks: its first parameters `metric`, `tagk` and `tagv` are lists with commas. Others are ignored.
///
/// `metric=` is a list of one empty name. Where none of the three is there, that is the fault.
#[tactic(auto, unfolding(crate::specs::AssignRequests::assign_by_form))]
pub fn assign_by_form(alloc: Global, form: &[u8]) -> Result<AssignRequest, AssignFault>
    ensures { GivesAssign assign_lists result (assign_by_form form.now) }
{
    let form = Form::read(alloc, form)?;
    assign_of_form(alloc, &form)
}

/// What a body asks: an object whose members `metric`, `tagk` and `tagv` are arrays of strings. Others are ignored.
///
/// The first of these faults is told: the body is no JSON; it is no object, or one of the three members is there and no
/// array of strings, `null` too; none of the three is there.
#[tactic(auto, unfolding(crate::specs::AssignRequests::assign_by_body))]
pub fn assign_by_body(alloc: Global, body: &[u8]) -> Result<AssignRequest, AssignFault>
    ensures { GivesAssign assign_lists result (assign_by_body body.now) }
{
    let value = value_of(alloc, body)?;
    assign_of_value(alloc, &value)
}

fn assign_of_form(alloc: Global, form: &Form) -> Result<AssignRequest, AssignFault>
    ensures { GivesAssign assign_lists result (assign_of_form form.now) }
{
    let metric = listed(alloc, form, "metric")?;
    let tagk = listed(alloc, form, "tagk")?;
    let tagv = listed(alloc, form, "tagv")?;
    with_a_list(AssignRequest { metric, tagk, tagv })
}

/// The list that the first parameter of this name is.
fn listed(alloc: Global, form: &Form, name: &str) -> Result<Option<Vec<Bytes>>, AllocError>
    ensures { IfOk result (λ list. option_map (λ names. names.items) list ≡ listed name.now form.now) }
{
    match form.first(name) {
        Some(text) => Ok(Some(comma_names(alloc, text.as_bytes())?)),
        None => Ok(None),
    }
}

/// The request, where it has a list.
fn with_a_list(request: AssignRequest) -> Result<AssignRequest, AssignFault>
    ensures { GivesAssign assign_lists result (with_a_list (assign_lists request)) }
{
    if request.metric.is_none() && request.tagk.is_none() && request.tagv.is_none() {
        return Err(AssignFault::NothingToAssign);
    }
    Ok(request)
}

fn value_of(alloc: Global, body: &[u8]) -> Result<Value, AssignFault>
    ensures { GivesAssign view result (or_fault NotJson (json_of body.now)) }
{
    match read_json(alloc, body) {
        Ok(Some(value)) => Ok(value),
        Ok(None) => Err(AssignFault::NotJson),
        Err(_) => Err(AssignFault::OutOfMemory),
    }
}

fn assign_of_value(alloc: Global, value: &Value) -> Result<AssignRequest, AssignFault>
    ensures { GivesAssign assign_lists result (assign_of_value (view value.now)) }
{
    if !value.is_object() {
        return Err(AssignFault::BadLists);
    }
    lists_in(alloc, value)
}

fn lists_in(alloc: Global, value: &Value) -> Result<AssignRequest, AssignFault>
    ensures { GivesAssign assign_lists result (lists_in (view value.now)) }
{
    let metric = list_in(alloc, value, "metric")?;
    let tagk = list_in(alloc, value, "tagk")?;
    let tagv = list_in(alloc, value, "tagv")?;
    with_a_list(AssignRequest { metric, tagk, tagv })
}

/// The list that the member of this name is.
fn list_in(alloc: Global, value: &Value, name: &str) -> Result<Option<Vec<Bytes>>, AssignFault>
    ensures { GivesAssign (λ list. option_map (λ names. names.items) list) result (list_in (get name.now (view value.now))) }
{
    match value.get(name) {
        Some(found) => Ok(Some(texts_in(alloc, found)?)),
        None => Ok(None),
    }
}

/// The strings of an array.
fn texts_in(alloc: Global, value: &Value) -> Result<Vec<Bytes>, AssignFault>
    ensures { GivesAssign (λ texts. texts.items) result (texts_in (view value.now)) }
{
    match value.as_array() {
        Some(items) => texts_of(alloc, items),
        None => Err(AssignFault::BadLists),
    }
}

fn texts_of(alloc: Global, items: &Vec<Value>) -> Result<Vec<Bytes>, AssignFault>
    ensures { GivesAssign (λ texts. texts.items) result (texts_of (items_view items.now.items)) }
{
    let mut texts = Vec::new(alloc);
    for item in items.as_slice() {
        let text = text_of(alloc, item)?;
        texts.push(text)?;
    }
    Ok(texts)
}

fn text_of(alloc: Global, value: &Value) -> Result<Bytes, AssignFault>
    ensures { GivesAssign (λ text. text) result (or_fault BadLists (as_str (view value.now))) }
{
    match value.as_str() {
        Some(text) => Ok(Bytes::of(alloc, text.as_bytes())?),
        None => Err(AssignFault::BadLists),
    }
}
