//! The answer to a put of a list of plain elements.
ghost use Rattle.std.specs.Prelude.{◌≡◌, ℕ, true, None, Some, Ok as Done, IfOk, IfErr, IfSome, IsSomeAnd, OnErr};
ghost use Rattle.cell_model.specs.Stops.{CountsStops, is_stop};
ghost use Rattle.cell_model.specs.declared.answers.RowsFault.TheVariants as rows_fault;
ghost use Rattle.point_put.specs.Admissions.{admission};
ghost use Rattle.http_put.specs.PutElements.{texts_of};
ghost use Rattle.http_requests.specs.JsonBodies.{json_of};
ghost use Rattle.http_api.specs.CallWork.{call_route, put_flags, puts_body};
ghost use Rattle.http_api.specs.HttpAnswers.{CallBroken, CallReplied, WorkBroken, WorkReplied, list_reply};

use cell_model::answers::RowsFault;
use cell_model::rows::Rows;
use compactor::queue::Queue;
use http_put::put_lines::put_lines;
use http_reply::put_reply::put_reply;
use http_requests::form::Form;
use http_requests::http_call::{Call, Verb};
use http_requests::routes::Route;
use point_put::Config;
use std::alloc::Global;
use tsd_hooks::UidRule;
use uid_table::uids::Uids;

/// Answers a put whose body is a list of elements, most of them plain, with no tree of its values. Of any other request it answers
/// `None`, which says nothing, and then nothing was done.
pub fn answer_list<R: Rows + Drop>(
    alloc: Global,
    route: Option<Route>,
    names: &mut Uids<R>,
    rule: &UidRule,
    config: &Config,
    queue: &mut Queue,
    call: &Call,
) -> Result<Option<Vec<u8>>, RowsFault>
    requires { route ≡ call_route call.now }
    ensures ok { (now : ℕ) → IfOk result (λ found. IfSome found (λ reply. CallReplied (admission config.now rule.now.patterns) now call.now (R.seen names.old.rows) queue.old reply.items (R.seen names.new.rows) queue.new)) }
    ensures nothing { result ≡ Done None → (names.new ≡ names.old) × (queue.new ≡ queue.old) }
    ensures err { (now : ℕ) → OnErr result (CallBroken (admission config.now rule.now.patterns) now call.now (R.seen names.old.rows) queue.old (R.seen names.new.rows) queue.new) }
    ensures stops { CountsStops is_stop result (R.stops names.old.rows) (R.stops names.new.rows) }
{
    if is_put(route, call.verb) {
        put_list(
            alloc,
            names,
            rule,
            config,
            queue,
            call.form.list(),
            call.body.list(),
            call.closing,
        )
    } else {
        Ok(None)
    }
}

/// Whether a request of this route and method is a put.
fn is_put(route: Option<Route>, verb: Verb) -> bool
    ensures { result ≡ true → (route ≡ Some Route.Put) × (verb ≡ Verb.Post) }
{
    is_put_path(route) && is_post(verb)
}

fn is_put_path(route: Option<Route>) -> bool
    ensures { result ≡ true → route ≡ Some Route.Put }
{
    match route {
        Some(Route::Put) => true,
        _ => false,
    }
}

fn is_post(verb: Verb) -> bool
    ensures { result ≡ true → verb ≡ Verb.Post }
{
    match verb {
        Verb::Post => true,
        _ => false,
    }
}

/// Puts the elements of a body, and answers with the bytes of the reply that the parameters want.
fn put_list<R: Rows + Drop>(
    alloc: Global,
    names: &mut Uids<R>,
    rule: &UidRule,
    config: &Config,
    queue: &mut Queue,
    form: &[u8],
    body: &[u8],
    closing: bool,
) -> Result<Option<Vec<u8>>, RowsFault>
    ensures ok { IfOk result (λ found. IfSome found (λ reply. WorkReplied (admission config.now rule.now.patterns) (puts_body (put_flags form.now) (json_of body.now)) closing (R.seen names.old.rows) queue.old reply.items (R.seen names.new.rows) queue.new)) }
    ensures nothing { result ≡ Done None → (names.new ≡ names.old) × (queue.new ≡ queue.old) }
    ensures err { OnErr result (WorkBroken (admission config.now rule.now.patterns) (puts_body (put_flags form.now) (json_of body.now)) (R.seen names.old.rows) queue.old (R.seen names.new.rows) queue.new) }
    ensures stops { CountsStops is_stop result (R.stops names.old.rows) (R.stops names.new.rows) }
{
    match Form::read(alloc, form) {
        Ok(form) => put_told(
            alloc,
            names,
            rule,
            config,
            queue,
            form.has("details"),
            form.has("summary"),
            closing,
            body,
        ),
        Err(_) => Ok(None),
    }
}

/// Puts the elements of a body, and answers with the bytes of the reply.
fn put_told<R: Rows + Drop>(
    alloc: Global,
    names: &mut Uids<R>,
    rule: &UidRule,
    config: &Config,
    queue: &mut Queue,
    details: bool,
    summary: bool,
    closing: bool,
    body: &[u8],
) -> Result<Option<Vec<u8>>, RowsFault>
    ensures ok { IfOk result (λ found. IfSome found (λ reply. WorkReplied (admission config.now rule.now.patterns) (puts_body (record { details = details; summary = summary }) (json_of body.now)) closing (R.seen names.old.rows) queue.old reply.items (R.seen names.new.rows) queue.new)) }
    ensures nothing { result ≡ Done None → (names.new ≡ names.old) × (queue.new ≡ queue.old) }
    ensures err { OnErr result (WorkBroken (admission config.now rule.now.patterns) (puts_body (record { details = details; summary = summary }) (json_of body.now)) (R.seen names.old.rows) queue.old (R.seen names.new.rows) queue.new) }
    ensures stops { CountsStops is_stop result (R.stops names.old.rows) (R.stops names.new.rows) }
{
    let found = put_lines(alloc, names, rule, config, queue, body)?;
    match found {
        Some(outcomes) => told_list(alloc, closing, details, summary, outcomes.as_slice()),
        None => Ok(None),
    }
}

/// The reply that tells of elements, or the want of memory for it.
fn told_list(
    alloc: Global,
    closing: bool,
    details: bool,
    summary: bool,
    outcomes: &[Option<Vec<u8>>],
) -> Result<Option<Vec<u8>>, RowsFault>
    ensures ok { IfOk result (λ found. IsSomeAnd found (λ reply. reply.items ≡ list_reply (record { details = details; summary = summary }) closing (texts_of outcomes.now))) }
    ensures err { IfErr result (λ fault. fault ≡ rows_fault.OutOfMemory) }
{
    match put_reply(alloc, closing, details, summary, outcomes) {
        Ok(reply) => Ok(Some(reply)),
        Err(_) => Err(RowsFault::OutOfMemory),
    }
}
