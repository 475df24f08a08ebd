//! The reply to a query.
ghost use Rattle.std.specs.Prelude.{◌≡◌, ◌≢◌, ℕ, List, map, All, IfErr, IfOk, IsOk, OnErr, Err};
ghost use Rattle.cell_model.specs.declared.answers.Stored.{Stored};
ghost use Rattle.cell_model.specs.Stops.{CountsStops, is_stop};
ghost use Rattle.point_put.specs.Admissions.{Admission};
ghost use Rattle.json_reply.specs.ErrorBodies.{error_body};
ghost use Rattle.json_reply.specs.Replies.{IsReady, plain, text_of};
ghost use Rattle.http_reply.specs.ReplyBytes.{reply_bytes};
ghost use Rattle.http_reply.specs.ReplyStatuses.{code_of};
ghost use Rattle.query_requests.specs.QueryReadings.{CanWork};
ghost use Rattle.metric_scan.specs.AskFaultTexts.{ask_fault_text};
ghost use Rattle.metric_scan.specs.AskFaults as ask_faults;
ghost use Rattle.query_run.specs.AskedQueries.{plain_result};
ghost use Rattle.http_api.specs.CallWork.Work.{Asks};
ghost use Rattle.http_api.specs.HttpAnswers.{IsReplyTo, WorkBroken, WorkReplied};

use crate::http_answer::told;
use cell_model::answers::RowsFault;
use cell_model::rows::Rows;
use http_reply::reply_status::Status;
use http_reply::response::{refusal, reply};
use json_reply::reply::{Reply, reply_text};
use query_run::{AskFault, ask};
use query_text::queries::Query;
use std::alloc::{AllocError, Global};
use uid_table::uids::Uids;

/// Answers a query with its groups, or with why it has no answer.
pub(crate) fn answer_query<R: Rows + Drop>(
    alloc: Global,
    names: &mut Uids<R>,
    closing: bool,
    query: &Query,
) -> Result<Vec<u8>, RowsFault>
    requires { CanWork query.now }
    ensures ok { IfOk result (λ reply. (c : Admission) (queue : List Stored) → WorkReplied c (Asks query.now) closing (R.seen names.old.rows) queue reply.items (R.seen names.new.rows) queue) }
    ensures err { OnErr result ((c : Admission) (queue : List Stored) → WorkBroken c (Asks query.now) (R.seen names.old.rows) queue (R.seen names.new.rows) queue) }
    ensures stops { CountsStops is_stop result (R.stops names.old.rows) (R.stops names.new.rows) }
{
    let asked = ask(alloc, names, query);
    tell(alloc, closing, asked)
}

/// The reply to a query that was asked. It fails for want of memory, or where the caller was stopped.
fn tell(alloc: Global, closing: bool, asked: Result<Reply, AskFault>) -> Result<Vec<u8>, RowsFault>
    requires { IfOk asked (λ reply. All IsReady reply.groups.items) }
    ensures ok { IfOk result (λ reply. IsReplyTo (plain_result asked) closing reply.items) }
    ensures stops { (before now : ℕ) → CountsStops ask_faults.is_stop asked before now → CountsStops is_stop result before now }
{
    match asked {
        Ok(reply) => told(tell_groups(alloc, closing, &reply)),
        Err(fault) => tell_fault(alloc, closing, &fault),
    }
}

/// The reply with the groups.
fn tell_groups(alloc: Global, closing: bool, groups: &Reply) -> Result<Vec<u8>, AllocError>
    requires { All IsReady groups.now.groups.items }
    ensures { IfOk result (λ reply. reply.items ≡ reply_bytes Status.Ok closing (text_of (map plain groups.now.groups.items))) }
{
    let body = reply_text(alloc, groups)?;
    reply(alloc, Status::Ok, closing, &body)
}

/// The reply to a query that has no answer, or why there is no reply.
pub(crate) fn tell_fault(
    alloc: Global,
    closing: bool,
    fault: &AskFault,
) -> Result<Vec<u8>, RowsFault>
    ensures ok { IfOk result (λ reply. IsReplyTo (Err fault.now) closing reply.items) }
    ensures stops { IfErr result (λ failed. is_stop failed ≡ ask_faults.is_stop fault.now) }
{
    match fault {
        AskFault::Stopped => Err(RowsFault::Stopped),
        _ => told(tell_text(alloc, closing, fault)),
    }
}

/// The reply with the text of a fault.
fn tell_text(alloc: Global, closing: bool, fault: &AskFault) -> Result<Vec<u8>, AllocError>
    requires { fault.now ≢ AskFault.Stopped }
    ensures text { IfOk result (λ reply. reply.items ≡ reply_bytes Status.BadRequest closing (error_body (code_of Status.BadRequest) (ask_fault_text fault.now))) }
    ensures told { IsOk result → fault.now ≢ AskFault.OutOfMemory }
{
    let mut message = Vec::new(alloc);
    fault.write_text(&mut message)?;
    refusal(alloc, Status::BadRequest, closing, message.as_slice())
}
