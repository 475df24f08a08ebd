//! What a request asks for.
ghost use Rattle.std.specs.Prelude.{◌≡◌, ◌≤◌, IfOk, Result};
ghost use Rattle.http_requests.specs.JsonBodies.{json_of};
ghost use Rattle.name_requests.specs.AssignRequests.{AssignLists, GivesAssign, assign_lists};
ghost use Rattle.name_requests.specs.SuggestRequests.{GivesSuggest, IsMax, Suggestion, suggestion};
ghost use Rattle.query_requests.specs.QueryReadings.{CanWork, GivesQuery};
ghost use Rattle.query_text.specs.declared.queries.Query.{Query};
ghost use Rattle.query_text.specs.declared.queries.QueryFault.{QueryFault};
ghost use Rattle.series_meta.specs.Lookups.{SeriesAsked};
ghost use Rattle.http_series.specs.ArgumentReading.{Gives};
ghost use Rattle.http_series.specs.ArgumentTexts.{argument_fault_text};
ghost use Rattle.http_series.specs.SeriesRequests.{LastsAsked, lasts_asked, lookup_asked};
ghost use Rattle.http_series.specs.declared.argument_fault.ArgumentFault.{ArgumentFault};
ghost use Rattle.http_reply.specs.declared.reply_status.Status.{Status};
ghost use Rattle.http_api.specs.CallWork.{work_of, by_route, refusal_status, refusal_message, refuses, put_flags, puts_body, assigns, suggests, asks, asks_body, asks_last, looks_up, call_route, got_by, posted_by};
ghost use Rattle.http_api.specs.CallWork.Work.{Says};
ghost use Rattle.http_api.specs.CallTasks.{IsTask};

use crate::put_body::elements_of;
use http_reply::fixed_bodies::{aggregators_body, version_body};
use http_reply::reply_status::Status;
use http_requests::form::Form;
use http_requests::http_call::{Call, Refusal, Verb};
use http_requests::json_body::read_json;
use http_requests::routes::Route;
use http_series::{ArgumentFault, LastRequest, LookupRequest, read_lasts, read_lookup};
use json_reply::error_body::error_text;
use name_requests::assign_request::{AssignRequest, assign_by_body, assign_by_form};
use name_requests::fault::{AssignFault, SuggestFault};
use name_requests::suggest_request::{SuggestRequest, suggest_by_body, suggest_by_form};
use query_requests::form_query::read_query_form;
use query_requests::json_query::read_query_json;
use query_text::queries::{Query, QueryFault};
use serde_json::Value;
use std::alloc::{AllocError, Global};
use tsd_base::times::LAST_TIME;

/// What a request asks for.
#[derive(Drop)]
pub enum Task {
    /// A fixed answer.
    Say {
        status: Status,
        body: Vec<u8>,
    },
    /// Elements to put, which the body has, and what the reply is to tell.
    Put {
        details: bool,
        summary: bool,
        body: Value,
    },
    /// Names to give ids.
    Assign {
        request: AssignRequest,
    },
    /// Names to suggest.
    Suggest {
        request: SuggestRequest,
    },
    /// A query to answer.
    Ask {
        query: Query,
    },
    /// Series to look up.
    LookUp {
        request: LookupRequest,
    },
    /// Series whose last points up to a moment are wanted.
    AskLast {
        request: LastRequest,
        now: u64,
    },
}

/// What a request of this route asks for at a moment, in milliseconds since 1970: the refusal of its head, or else what its path and its
/// method say. It fails only for want of memory.
#[tactic(auto, unfolding(crate::specs::CallWork::work_of))]
pub fn task_of(
    alloc: Global,
    route: Option<Route>,
    call: &Call,
    now: u64,
) -> Result<Task, AllocError>
    requires { route ≡ call_route call.now }
    ensures { IfOk result (IsTask (work_of now call.now)) }
{
    match call.refused {
        Some(refusal) => refused_task(alloc, refusal),
        None => routed_task(alloc, route, call, now),
    }
}

fn refused_task(alloc: Global, refusal: Refusal) -> Result<Task, AllocError>
    ensures { IfOk result (IsTask (refuses (refusal_status refusal) (refusal_message refusal))) }
{
    match refusal {
        Refusal::BadHead => refuse(alloc, Status::BadRequest, b"bad head"),
        Refusal::HeadTooLarge => refuse(
            alloc,
            Status::RequestHeaderFieldsTooLarge,
            b"head too large",
        ),
        Refusal::Codings => refuse(alloc, Status::NotImplemented, b"codings are not supported"),
        Refusal::BadLength => refuse(alloc, Status::BadRequest, b"bad length"),
        Refusal::NoLength => refuse(alloc, Status::LengthRequired, b"length required"),
        Refusal::BodyTooLarge => refuse(alloc, Status::PayloadTooLarge, b"body too large"),
    }
}

/// An error.
fn refuse(alloc: Global, status: Status, message: &[u8]) -> Result<Task, AllocError>
    ensures { IfOk result (IsTask (refuses status message.now)) }
{
    Ok(Task::Say {
        status,
        body: error_text(alloc, status.code(), message)?,
    })
}

/// A body that is always the same.
fn say(alloc: Global, body: &[u8]) -> Result<Task, AllocError>
    ensures { IfOk result (IsTask (Says Status.Ok body.now)) }
{
    Ok(Task::Say {
        status: Status::Ok,
        body: Vec::from_slice(alloc, body)?,
    })
}

fn routed_task(
    alloc: Global,
    route: Option<Route>,
    call: &Call,
    now: u64,
) -> Result<Task, AllocError>
    ensures { IfOk result (IsTask (by_route now route call.now)) }
{
    let Some(route) = route else {
        return refuse(alloc, Status::NotFound, b"no such path");
    };
    match call.verb {
        Verb::Get => get_task(alloc, route, call.form.list(), now),
        Verb::Post => post_task(alloc, route, call.form.list(), call.body.list(), now),
        Verb::Other => refuse(alloc, Status::MethodNotAllowed, b"no such method"),
    }
}

/// What a `GET` asks for.
fn get_task(alloc: Global, route: Route, form: &[u8], now: u64) -> Result<Task, AllocError>
    ensures { IfOk result (IsTask (got_by now route form.now)) }
{
    match route {
        Route::Put => refuse(alloc, Status::MethodNotAllowed, b"no such method"),
        Route::Assign => assign_task(alloc, assign_by_form(alloc, form)),
        Route::Query => query_task(alloc, read_query_form(alloc, form, now)),
        Route::Last => last_task(alloc, read_lasts(alloc, form), now),
        Route::Lookup => lookup_task(alloc, read_lookup(alloc, form)),
        Route::Suggest => suggest_task(alloc, suggest_by_form(alloc, form)),
        Route::Version => say(alloc, version_body()),
        Route::Aggregators => say(alloc, aggregators_body()),
    }
}

/// What a `POST` asks for.
fn post_task(
    alloc: Global,
    route: Route,
    form: &[u8],
    body: &[u8],
    now: u64,
) -> Result<Task, AllocError>
    ensures { IfOk result (IsTask (posted_by now route form.now body.now)) }
{
    match route {
        Route::Put => put_task(alloc, form, body),
        Route::Assign => assign_task(alloc, assign_by_body(alloc, body)),
        Route::Query => query_body_task(alloc, body, now),
        Route::Last => refuse(alloc, Status::MethodNotAllowed, b"no such method"),
        Route::Lookup => refuse(alloc, Status::MethodNotAllowed, b"no such method"),
        Route::Suggest => suggest_task(alloc, suggest_by_body(alloc, body)),
        Route::Version => say(alloc, version_body()),
        Route::Aggregators => say(alloc, aggregators_body()),
    }
}

fn put_task(alloc: Global, form: &[u8], body: &[u8]) -> Result<Task, AllocError>
    ensures { IfOk result (IsTask (puts_body (put_flags form.now) (json_of body.now))) }
{
    let form = Form::read(alloc, form)?;
    let Some(body) = read_json(alloc, body)? else {
        return refuse(alloc, Status::BadRequest, b"body is not JSON");
    };
    if elements_of(&body).is_none() {
        return refuse(
            alloc,
            Status::BadRequest,
            b"body is not a point or a list of points",
        );
    }
    Ok(Task::Put {
        details: form.has("details"),
        summary: form.has("summary"),
        body,
    })
}

fn assign_task(alloc: Global, read: Result<AssignRequest, AssignFault>) -> Result<Task, AllocError>
    ensures { (asked : Result AssignLists AssignFault) → GivesAssign assign_lists read asked → IfOk result (IsTask (assigns asked)) }
{
    match read {
        Ok(request) => Ok(Task::Assign { request }),
        Err(AssignFault::OutOfMemory) => Err(AllocError),
        Err(fault) => {
            let mut message = Vec::new(alloc);
            fault.write_text(&mut message)?;
            refuse(alloc, Status::BadRequest, message.as_slice())
        }
    }
}

fn suggest_task(
    alloc: Global,
    read: Result<SuggestRequest, SuggestFault>,
) -> Result<Task, AllocError>
    requires { IfOk read (λ request. IsMax request.max) }
    ensures { (asked : Result Suggestion SuggestFault) → GivesSuggest suggestion read asked → IfOk result (IsTask (suggests asked)) }
{
    match read {
        Ok(request) => Ok(Task::Suggest { request }),
        Err(SuggestFault::OutOfMemory) => Err(AllocError),
        Err(fault) => {
            let mut message = Vec::new(alloc);
            fault.write_text(&mut message)?;
            refuse(alloc, Status::BadRequest, message.as_slice())
        }
    }
}

fn query_body_task(alloc: Global, body: &[u8], now: u64) -> Result<Task, AllocError>
    ensures { IfOk result (IsTask (asks_body now (json_of body.now))) }
{
    let Some(body) = read_json(alloc, body)? else {
        return refuse(alloc, Status::BadRequest, b"body is not JSON");
    };
    query_task(alloc, read_query_json(alloc, &body, now))
}

fn query_task(alloc: Global, read: Result<Query, QueryFault>) -> Result<Task, AllocError>
    requires { IfOk read CanWork }
    ensures { (asked : Result Query QueryFault) → GivesQuery read asked → IfOk result (IsTask (asks asked)) }
{
    match read {
        Ok(query) => Ok(Task::Ask { query }),
        Err(fault) => {
            let mut message = Vec::new(alloc);
            fault.write_text(&mut message)?;
            refuse(alloc, Status::BadRequest, message.as_slice())
        }
    }
}

fn lookup_task(
    alloc: Global,
    read: Result<LookupRequest, ArgumentFault>,
) -> Result<Task, AllocError>
    ensures { (asked : Result SeriesAsked ArgumentFault) → Gives lookup_asked read asked → IfOk result (IsTask (looks_up asked)) }
{
    match read {
        Ok(request) => Ok(Task::LookUp { request }),
        Err(ArgumentFault::OutOfMemory) => Err(AllocError),
        Err(fault) => argument_task(alloc, fault),
    }
}

fn last_task(
    alloc: Global,
    read: Result<LastRequest, ArgumentFault>,
    now: u64,
) -> Result<Task, AllocError>
    requires { IfOk read (λ request. request.back ≤ 8784) }
    ensures { (asked : Result LastsAsked ArgumentFault) → Gives lasts_asked read asked → IfOk result (IsTask (asks_last now asked)) }
{
    match read {
        Ok(request) => Ok(Task::AskLast {
            request,
            now: now.min(LAST_TIME),
        }),
        Err(ArgumentFault::OutOfMemory) => Err(AllocError),
        Err(fault) => argument_task(alloc, fault),
    }
}

/// The refusal of arguments that ask for no series.
fn argument_task(alloc: Global, fault: ArgumentFault) -> Result<Task, AllocError>
    ensures { IfOk result (IsTask (refuses Status.BadRequest (argument_fault_text fault))) }
{
    let mut message = Vec::new(alloc);
    fault.write_text(&mut message)?;
    refuse(alloc, Status::BadRequest, message.as_slice())
}
