//! The reply to an assignment of ids.
ghost use Rattle.std.specs.Prelude.{◌≡◌, IfOk, OnOk, string_bytes};
ghost use Rattle.std.specs.Str.Lossy.{utf8_lossy};
ghost use Rattle.serde_json.specs.Data.{no_members, put, string};
ghost use Rattle.serde_json.specs.View.{members_view, view};
ghost use Rattle.http_reply.specs.AssignReplies.{id_text, with_id, with_error, ids_onto, errors_onto, with_kind, assign_members, assign_body, assign_status, any_error, has_error};
ghost use Rattle.http_reply.specs.ReplyBytes.{reply_bytes};
ghost use Rattle.row_key.specs.IdWidths.{IsWidth};

use crate::reply_status::Status;
use crate::response::reply;
use row_key::{Widths, id_bytes};
use serde_json::{Map, Value};
use std::alloc::{AllocError, Global};

/// An element of a list of an assignment.
#[derive(Drop)]
pub struct Element {
    /// Its text as given.
    pub text: Vec<u8>,
    /// Its id, or the text of its error.
    pub answer: Result<u32, Vec<u8>>,
}

/// The answers to an assignment: for each kind that was named, those of its elements in order.
#[derive(Drop)]
pub struct Assignment {
    pub metric: Option<Vec<Element>>,
    pub tagk: Option<Vec<Element>>,
    pub tagv: Option<Vec<Element>>,
}

/// The bytes of the reply to an assignment. Its status is 400 where any element has an error, else 200.
///
/// The body has two objects for each kind that was named: the ids under the texts of their elements, and the errors under
/// theirs. An id has two lower-case hexadecimal digits for each byte that ids of its kind have. Keys are in byte order, and
/// of two elements of one key in one object the later counts. It fails only for want of memory.
pub fn assign_reply(
    alloc: Global,
    closing: bool,
    answers: &Assignment,
    widths: Widths,
) -> Result<Vec<u8>, AllocError>
    ensures { IfOk result (λ reply. reply.items ≡ reply_bytes (assign_status answers.now) closing (assign_body widths answers.now)) }
{
    let body = assign_body(alloc, answers, widths)?;
    reply(alloc, assign_status(answers), closing, &body)
}

/// The status of that reply.
pub fn assign_status(answers: &Assignment) -> Status
    ensures { result ≡ assign_status answers.now }
{
    if has_error(&answers.metric) {
        return Status::BadRequest;
    }
    if has_error(&answers.tagk) {
        return Status::BadRequest;
    }
    if has_error(&answers.tagv) {
        return Status::BadRequest;
    }
    Status::Ok
}

fn has_error(elements: &Option<Vec<Element>>) -> bool
    ensures { result ≡ has_error elements.now }
{
    match elements {
        None => false,
        Some(elements) => any_error(elements.as_slice()),
    }
}

fn any_error(elements: &[Element]) -> bool
    ensures { result ≡ any_error elements.now }
{
    for element in elements {
        if element.answer.is_err() {
            return true;
        }
    }
    false
}

/// The body of that reply.
pub fn assign_body(
    alloc: Global,
    answers: &Assignment,
    widths: Widths,
) -> Result<Vec<u8>, AllocError>
    ensures { IfOk result (λ body. body.items ≡ assign_body widths answers.now) }
{
    let members = assign_members(alloc, answers, widths)?;
    Value::from(members).to_vec(alloc)
}

fn assign_members(
    alloc: Global,
    answers: &Assignment,
    widths: Widths,
) -> Result<Map<String, Value>, AllocError>
    ensures { IfOk result (λ members. members_view members.entries ≡ assign_members widths answers.now) }
{
    let mut members = Map::new(alloc);
    add_kind(
        alloc,
        &mut members,
        "metric",
        "metric_errors",
        &answers.metric,
        widths.metric,
    )?;
    add_kind(
        alloc,
        &mut members,
        "tagk",
        "tagk_errors",
        &answers.tagk,
        widths.tag_key,
    )?;
    add_kind(
        alloc,
        &mut members,
        "tagv",
        "tagv_errors",
        &answers.tagv,
        widths.tag_value,
    )?;
    Ok(members)
}

/// Adds the two objects of a kind whose ids have so many bytes, if it was named.
fn add_kind(
    alloc: Global,
    members: &mut Map<String, Value>,
    key: &str,
    errors_key: &str,
    elements: &Option<Vec<Element>>,
    width: u8,
) -> Result<(), AllocError>
    requires { IsWidth width }
    ensures { OnOk result (members_view members.new.entries ≡ with_kind width key.now errors_key.now elements.now (members_view members.old.entries)) }
{
    if let Some(elements) = elements {
        let ids = ids(alloc, elements.as_slice(), width)?;
        add(members, String::from_str(alloc, key)?, Value::from(ids))?;
        let errors = errors(alloc, elements.as_slice())?;
        add(
            members,
            String::from_str(alloc, errors_key)?,
            Value::from(errors),
        )?;
    }
    Ok(())
}

fn ids(alloc: Global, elements: &[Element], width: u8) -> Result<Map<String, Value>, AllocError>
    requires { IsWidth width }
    ensures { IfOk result (λ ids. members_view ids.entries ≡ ids_onto width no_members elements.now) }
{
    let mut ids = Map::new(alloc);
    for element in elements {
        add_id(alloc, &mut ids, element, width)?;
    }
    Ok(ids)
}

fn add_id(
    alloc: Global,
    ids: &mut Map<String, Value>,
    element: &Element,
    width: u8,
) -> Result<(), AllocError>
    requires { IsWidth width }
    ensures { OnOk result (members_view ids.new.entries ≡ with_id width element.now.text.items element.now.answer (members_view ids.old.entries)) }
{
    if let Ok(id) = &element.answer {
        add_text(alloc, ids, &element.text, id_text(alloc, *id, width)?)?;
    }
    Ok(())
}

fn errors(alloc: Global, elements: &[Element]) -> Result<Map<String, Value>, AllocError>
    ensures { IfOk result (λ errors. members_view errors.entries ≡ errors_onto no_members elements.now) }
{
    let mut errors = Map::new(alloc);
    for element in elements {
        add_error(alloc, &mut errors, element)?;
    }
    Ok(errors)
}

fn add_error(
    alloc: Global,
    errors: &mut Map<String, Value>,
    element: &Element,
) -> Result<(), AllocError>
    ensures { OnOk result (members_view errors.new.entries ≡ with_error element.now.text.items element.now.answer (members_view errors.old.entries)) }
{
    if let Err(error) = &element.answer {
        add_text(
            alloc,
            errors,
            &element.text,
            String::from_utf8_lossy(alloc, error)?,
        )?;
    }
    Ok(())
}

/// The digits of an id.
fn id_text(alloc: Global, id: u32, width: u8) -> Result<String, AllocError>
    requires { IsWidth width }
    ensures { IfOk result (λ text. string_bytes text ≡ id_text width id) }
{
    let bytes = id_bytes(id, width);
    hex::encode(alloc, bytes.as_slice())
}

/// Puts a text under a key, in place of what was there.
fn add_text(
    alloc: Global,
    members: &mut Map<String, Value>,
    key: &[u8],
    text: String,
) -> Result<(), AllocError>
    ensures { OnOk result (members_view members.new.entries ≡ put (utf8_lossy key.now) (string (string_bytes text)) (members_view members.old.entries)) }
{
    let key = String::from_utf8_lossy(alloc, key)?;
    add(members, key, Value::from(text))
}

/// Puts a value under a key, in place of what was there.
#[tactic(auto, using(crate::proofs::Objects::inserted))]
fn add(members: &mut Map<String, Value>, key: String, value: Value) -> Result<(), AllocError>
    ensures { OnOk result (members_view members.new.entries ≡ put (string_bytes key) (view value) (members_view members.old.entries)) }
{
    members.insert(key, value)?;
    Ok(())
}
