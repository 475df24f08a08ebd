//! The answers to an assignment, each beside its text.
ghost use Rattle.std.specs.Prelude.{◌≡◌, length, map, option_map, IfOk};
ghost use Rattle.http_assign.specs.AssignLists.{outcomes_in, outcomes_of, texts_in};
ghost use Rattle.http_assign.specs.AssignTexts.{IsAsLong};
ghost use Rattle.name_requests.specs.AssignRequests.{assign_lists};
ghost use Rattle.http_api.specs.HttpAnswers.{HasTexts, answers_in, element_answers, element_texts};

use http_assign::assign_lists::{IdLists, IdOutcome};
use http_reply::assign_reply::{Assignment, Element};
use name_requests::assign_request::AssignRequest;
use short_bytes::short::Bytes;
use std::alloc::{AllocError, Global};

/// Puts the answer to each text beside it.
pub fn assignment_of(
    alloc: Global,
    request: &AssignRequest,
    ids: IdLists,
) -> Result<Assignment, AllocError>
    requires { IsAsLong request.now.metric request.now.tagk request.now.tagv ids }
    ensures texts { IfOk result (HasTexts (assign_lists request.now)) }
    ensures answers { IfOk result (λ answers. answers_in answers ≡ outcomes_in ids) }
{
    Ok(Assignment {
        metric: elements(alloc, &request.metric, ids.metric)?,
        tagk: elements(alloc, &request.tagk, ids.tagk)?,
        tagv: elements(alloc, &request.tagv, ids.tagv)?,
    })
}

fn elements(
    alloc: Global,
    texts: &Option<Vec<Bytes>>,
    answers: Vec<IdOutcome>,
) -> Result<Option<Vec<Element>>, AllocError>
    requires { length answers.items ≡ length (texts_in texts.now) }
    ensures texts { IfOk result (λ elements. element_texts elements ≡ option_map (λ names. names.items) texts.now) }
    ensures answers { IfOk result (λ elements. element_answers elements ≡ outcomes_of answers.items) }
{
    match texts {
        None => Ok(None),
        Some(texts) => Ok(Some(beside(alloc, texts.as_slice(), answers)?)),
    }
}

fn beside(
    alloc: Global,
    texts: &[Bytes],
    answers: Vec<IdOutcome>,
) -> Result<Vec<Element>, AllocError>
    requires { length answers.items ≡ length texts.now }
    ensures texts { IfOk result (λ elements. map (λ (element : Element). element.text.items) elements.items ≡ texts.now) }
    ensures answers { IfOk result (λ elements. map (λ (element : Element). element.answer) elements.items ≡ answers.items) }
{
    let mut elements = Vec::new(alloc);
    let mut answers = answers.into_iter();
    for text in texts {
        if let Some(answer) = answers.next() {
            elements.push(Element {
                text: Vec::from_slice(alloc, text.list())?,
                answer,
            })?;
        }
    }
    Ok(elements)
}
