//! The answer to a request of an HTTP connection.
ghost use Rattle.std.specs.Prelude.{◌≡◌, ℕ, List, map, IfOk, IfErr, IsOk, OnErr};
ghost use Rattle.cell_model.specs.declared.answers.Stored.{Stored};
ghost use Rattle.point_put.specs.declared.config.Config.{Config};
ghost use Rattle.point_put.specs.Admissions.{Admission, admission};
ghost use Rattle.serde_json.specs.View.{view};
ghost use Rattle.cell_model.specs.Seen.{Seen};
ghost use Rattle.cell_model.specs.Stops.{CountsStops, is_stop};
ghost use Rattle.cell_model.specs.declared.answers.RowsFault.TheVariants as rows_fault;
ghost use Rattle.name_requests.specs.AssignRequests.{assign_lists};
ghost use Rattle.name_requests.specs.SuggestRequests.{IsMax, suggestion};
ghost use Rattle.http_api.specs.CallTasks.{IsTask};
ghost use Rattle.http_api.specs.CallWork.{Work, call_route};
ghost use Rattle.http_api.specs.CallWork.Work.{Assigns, Puts, Says, Suggests};
ghost use Rattle.http_api.specs.HttpAnswers.{CallBroken, CallReplied, WorkBroken, WorkReplied};

use crate::answered_names::assignment_of;
use crate::call_task::{Task, task_of};
use crate::list_put::answer_list;
use crate::put_body::elements_of;
use crate::query_reply::answer_query;
use crate::routed_call::RoutedCall;
use crate::series_reply::{reply_lasts, reply_lookup};
use cell_model::answers::RowsFault;
use cell_model::rows::Rows;
use compactor::queue::Queue;
use http_assign::assign_lists::assign_lists;
use http_assign::suggest_names::suggest_names;
use http_put::put_elements::put_elements;
use http_reply::assign_reply::assign_reply;
use http_reply::put_reply::put_reply;
use http_reply::reply_status::Status;
use http_reply::response::reply;
use http_requests::http_call::Call;
use http_requests::routes::Route;
use json_reply::names_text::names_text;
use name_requests::assign_request::AssignRequest;
use name_requests::suggest_request::SuggestRequest;
use point_put::Config;
use serde_json::Value;
use std::alloc::{AllocError, Global};
use tsd_hooks::UidRule;
use uid_table::uids::Uids;

/// Answers a request with the bytes of its reply, over any rows.
///
/// A refusal is told first: of the head, then of the path, the method, and of what the path's requests read. A put asks its
/// elements and an assignment its names one after the other, and a new name of either is given an id only where the rule allows it;
/// the row of each point that was accepted is added to the queue. `now` is the moment of the request in milliseconds since 1970, from
/// which a query counts its times, and up to which last points are; no other request depends on it. It fails for want of memory, or
/// where the caller was stopped before a step; what was done before stays done.
pub fn answer<R: Rows + Drop>(
    alloc: Global,
    names: &mut Uids<R>,
    rule: &UidRule,
    config: &Config,
    queue: &mut Queue,
    call: &RoutedCall,
    now: u64,
) -> Result<Vec<u8>, RowsFault>
    ensures ok { IfOk result (λ reply. CallReplied (admission config.now rule.now.patterns) now call.now (R.seen names.old.rows) queue.old reply.items (R.seen names.new.rows) queue.new) }
    ensures err { OnErr result (CallBroken (admission config.now rule.now.patterns) now call.now (R.seen names.old.rows) queue.old (R.seen names.new.rows) queue.new) }
    ensures stops { CountsStops is_stop result (R.stops names.old.rows) (R.stops names.new.rows) }
{
    let route = call.route();
    answer_routed(alloc, route, names, rule, config, queue, call.call(), now)
}

/// Answers a request of this route.
fn answer_routed<R: Rows + Drop>(
    alloc: Global,
    route: Option<Route>,
    names: &mut Uids<R>,
    rule: &UidRule,
    config: &Config,
    queue: &mut Queue,
    call: &Call,
    now: u64,
) -> Result<Vec<u8>, RowsFault>
    requires { route ≡ call_route call.now }
    ensures ok { IfOk result (λ reply. CallReplied (admission config.now rule.now.patterns) now call.now (R.seen names.old.rows) queue.old reply.items (R.seen names.new.rows) queue.new) }
    ensures err { OnErr result (CallBroken (admission config.now rule.now.patterns) now call.now (R.seen names.old.rows) queue.old (R.seen names.new.rows) queue.new) }
    ensures stops { CountsStops is_stop result (R.stops names.old.rows) (R.stops names.new.rows) }
{
    let found = answer_list(alloc, route, names, rule, config, queue, call)?;
    match found {
        Some(reply) => Ok(reply),
        None => answer_task(alloc, route, names, rule, config, queue, call, now),
    }
}

/// Answers a request of this route by its task.
fn answer_task<R: Rows + Drop>(
    alloc: Global,
    route: Option<Route>,
    names: &mut Uids<R>,
    rule: &UidRule,
    config: &Config,
    queue: &mut Queue,
    call: &Call,
    now: u64,
) -> Result<Vec<u8>, RowsFault>
    requires { route ≡ call_route call.now }
    ensures ok { IfOk result (λ reply. CallReplied (admission config.now rule.now.patterns) now call.now (R.seen names.old.rows) queue.old reply.items (R.seen names.new.rows) queue.new) }
    ensures err { OnErr result (CallBroken (admission config.now rule.now.patterns) now call.now (R.seen names.old.rows) queue.old (R.seen names.new.rows) queue.new) }
    ensures stops { CountsStops is_stop result (R.stops names.old.rows) (R.stops names.new.rows) }
{
    match task_of(alloc, route, call, now) {
        Ok(task) => perform(alloc, names, rule, config, queue, &task, call.closing),
        Err(_) => Err(RowsFault::OutOfMemory),
    }
}

/// Does what a request asks for, and answers with the bytes of its reply.
fn perform<R: Rows + Drop>(
    alloc: Global,
    names: &mut Uids<R>,
    rule: &UidRule,
    config: &Config,
    queue: &mut Queue,
    task: &Task,
    closing: bool,
) -> Result<Vec<u8>, RowsFault>
    requires { (work : Work) × IsTask work task.now }
    ensures ok { IfOk result (λ reply. (work : Work) → IsTask work task.now → WorkReplied (admission config.now rule.now.patterns) work closing (R.seen names.old.rows) queue.old reply.items (R.seen names.new.rows) queue.new) }
    ensures err { OnErr result ((work : Work) → IsTask work task.now → WorkBroken (admission config.now rule.now.patterns) work (R.seen names.old.rows) queue.old (R.seen names.new.rows) queue.new) }
    ensures stops { CountsStops is_stop result (R.stops names.old.rows) (R.stops names.new.rows) }
{
    match task {
        Task::Say { status, body } => say(alloc, *status, closing, body.as_slice()),
        Task::Put {
            details,
            summary,
            body,
        } => match elements_of(body) {
            Some(elements) => put_all(
                alloc, names, rule, config, queue, *details, *summary, closing, elements,
            ),
            None => unreachable!(),
        },
        Task::Assign { request } => assign(alloc, names, rule, closing, request),
        Task::Suggest { request } => suggest(alloc, names, closing, request),
        Task::Ask { query } => answer_query(alloc, names, closing, query),
        Task::LookUp { request } => reply_lookup(alloc, names, closing, request),
        Task::AskLast { request, now } => reply_lasts(alloc, names, closing, request, *now),
    }
}

/// A fixed answer.
fn say(alloc: Global, status: Status, closing: bool, body: &[u8]) -> Result<Vec<u8>, RowsFault>
    ensures ok { IfOk result (λ reply. (c : Admission) (seen : Seen) (queue : List Stored) → WorkReplied c (Says status body.now) closing seen queue reply.items seen queue) }
    ensures err { IfErr result (λ fault. fault ≡ rows_fault.OutOfMemory) }
{
    told(reply(alloc, status, closing, body))
}

/// Puts elements.
fn put_all<R: Rows + Drop>(
    alloc: Global,
    names: &mut Uids<R>,
    rule: &UidRule,
    config: &Config,
    queue: &mut Queue,
    details: bool,
    summary: bool,
    closing: bool,
    elements: &[Value],
) -> Result<Vec<u8>, RowsFault>
    ensures ok { IfOk result (λ reply. WorkReplied (admission config.now rule.now.patterns) (Puts (record { details = details; summary = summary }) (map view elements.now)) closing (R.seen names.old.rows) queue.old reply.items (R.seen names.new.rows) queue.new) }
    ensures err { OnErr result (WorkBroken (admission config.now rule.now.patterns) (Puts (record { details = details; summary = summary }) (map view elements.now)) (R.seen names.old.rows) queue.old (R.seen names.new.rows) queue.new) }
    ensures stops { CountsStops is_stop result (R.stops names.old.rows) (R.stops names.new.rows) }
{
    let outcomes = put_elements(alloc, names, rule, config, queue, elements)?;
    told(put_reply(alloc, closing, details, summary, outcomes.as_slice()))
}

/// Gives ids to the names that are asked for.
fn assign<R: Rows + Drop>(
    alloc: Global,
    names: &mut Uids<R>,
    rule: &UidRule,
    closing: bool,
    request: &AssignRequest,
) -> Result<Vec<u8>, RowsFault>
    ensures ok { IfOk result (λ reply. (config : Config) (queue : List Stored) → WorkReplied (admission config rule.now.patterns) (Assigns (assign_lists request.now)) closing (R.seen names.old.rows) queue reply.items (R.seen names.new.rows) queue) }
    ensures err { OnErr result ((config : Config) (queue : List Stored) → WorkBroken (admission config rule.now.patterns) (Assigns (assign_lists request.now)) (R.seen names.old.rows) queue (R.seen names.new.rows) queue) }
    ensures stops { CountsStops is_stop result (R.stops names.old.rows) (R.stops names.new.rows) }
{
    let ids = assign_lists(
        alloc,
        names,
        rule,
        &request.metric,
        &request.tagk,
        &request.tagv,
    )?;
    match assignment_of(alloc, request, ids) {
        Ok(answers) => told(assign_reply(alloc, closing, &answers, names.widths())),
        Err(_) => Err(RowsFault::OutOfMemory),
    }
}

/// Suggests the names that are asked for.
fn suggest<R: Rows + Drop>(
    alloc: Global,
    names: &mut Uids<R>,
    closing: bool,
    request: &SuggestRequest,
) -> Result<Vec<u8>, RowsFault>
    requires { IsMax request.now.max }
    ensures ok { IfOk result (λ reply. (c : Admission) (queue : List Stored) → WorkReplied c (Suggests (suggestion request.now)) closing (R.seen names.old.rows) queue reply.items (R.seen names.new.rows) queue) }
    ensures err { OnErr result ((c : Admission) (queue : List Stored) → WorkBroken c (Suggests (suggestion request.now)) (R.seen names.old.rows) queue (R.seen names.new.rows) queue) }
    ensures stops { CountsStops is_stop result (R.stops names.old.rows) (R.stops names.new.rows) }
{
    let found = suggest_names(
        alloc,
        names,
        request.kind,
        request.prefix.list(),
        request.max,
    )?;
    match names_text(alloc, found.as_slice()) {
        Ok(body) => told(reply(alloc, Status::Ok, closing, body.as_slice())),
        Err(_) => Err(RowsFault::OutOfMemory),
    }
}

/// The reply, or the want of memory for it.
pub(crate) fn told(reply: Result<Vec<u8>, AllocError>) -> Result<Vec<u8>, RowsFault>
    ensures ok { (bytes : List ℕ) → IfOk reply (λ r. r.items ≡ bytes) → IfOk result (λ r. r.items ≡ bytes) }
    ensures given { IsOk result → IsOk reply }
    ensures err { IfErr result (λ fault. fault ≡ rows_fault.OutOfMemory) }
{
    match reply {
        Ok(bytes) => Ok(bytes),
        Err(_) => Err(RowsFault::OutOfMemory),
    }
}
