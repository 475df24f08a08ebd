//! The replies to requests on series.
ghost use Rattle.std.specs.Prelude.{◌≤◌, ℕ, List, IfOk, OnErr};
ghost use Rattle.tsd_base.specs.declared.times.TheConstants.{LAST_TIME};
ghost use Rattle.cell_model.specs.declared.answers.Stored.{Stored};
ghost use Rattle.cell_model.specs.Stops.{CountsStops, is_stop};
ghost use Rattle.point_put.specs.Admissions.{Admission};
ghost use Rattle.series_meta.specs.MetaFaults as meta_faults;
ghost use Rattle.http_series.specs.SeriesAnswers.{plain_text};
ghost use Rattle.http_series.specs.SeriesRequests.{askings, lasts_asked, lookup_asked};
ghost use Rattle.http_api.specs.CallWork.Work.{AsksLast, LooksUp};
ghost use Rattle.http_api.specs.HttpAnswers.{IsSeriesReply, WorkBroken, WorkReplied};

use crate::http_answer::told;
use crate::query_reply::tell_fault;
use cell_model::answers::RowsFault;
use cell_model::rows::Rows;
use http_reply::reply_status::Status;
use http_reply::response::reply;
use http_series::{LastRequest, LookupRequest, answer_lasts, answer_lookup, query_fault};
use series_meta::MetaFault;
use std::alloc::Global;
use uid_table::uids::Uids;

/// Looks up series, and answers with the bytes of the reply that tells of them.
pub(crate) fn reply_lookup<R: Rows + Drop>(
    alloc: Global,
    names: &mut Uids<R>,
    closing: bool,
    request: &LookupRequest,
) -> Result<Vec<u8>, RowsFault>
    ensures ok { IfOk result (λ reply. (c : Admission) (queue : List Stored) → WorkReplied c (LooksUp (lookup_asked request.now)) closing (R.seen names.old.rows) queue reply.items (R.seen names.new.rows) queue) }
    ensures err { OnErr result ((c : Admission) (queue : List Stored) → WorkBroken c (LooksUp (lookup_asked request.now)) (R.seen names.old.rows) queue (R.seen names.new.rows) queue) }
    ensures stops { CountsStops is_stop result (R.stops names.old.rows) (R.stops names.new.rows) }
{
    let answer = answer_lookup(alloc, names, request);
    tell_series(alloc, closing, answer)
}

/// Asks for the last points of series up to a moment, and answers with the bytes of the reply that tells of them.
pub(crate) fn reply_lasts<R: Rows + Drop>(
    alloc: Global,
    names: &mut Uids<R>,
    closing: bool,
    request: &LastRequest,
    now: u64,
) -> Result<Vec<u8>, RowsFault>
    requires now { now ≤ LAST_TIME }
    requires back { request.now.back ≤ 8784 }
    ensures ok { IfOk result (λ reply. (c : Admission) (queue : List Stored) → WorkReplied c (AsksLast (askings now (lasts_asked request.now))) closing (R.seen names.old.rows) queue reply.items (R.seen names.new.rows) queue) }
    ensures err { OnErr result ((c : Admission) (queue : List Stored) → WorkBroken c (AsksLast (askings now (lasts_asked request.now))) (R.seen names.old.rows) queue (R.seen names.new.rows) queue) }
    ensures stops { CountsStops is_stop result (R.stops names.old.rows) (R.stops names.new.rows) }
{
    let answer = answer_lasts(alloc, names, request, now);
    tell_series(alloc, closing, answer)
}

/// The reply with the text that tells of series, or with why there is none. It fails for want of memory, or where the caller was stopped.
fn tell_series(
    alloc: Global,
    closing: bool,
    answer: Result<Vec<u8>, MetaFault>,
) -> Result<Vec<u8>, RowsFault>
    ensures ok { IfOk result (λ reply. IsSeriesReply (plain_text answer) closing reply.items) }
    ensures stops { (before now : ℕ) → CountsStops meta_faults.is_stop answer before now → CountsStops is_stop result before now }
{
    match answer {
        Ok(text) => told(reply(alloc, Status::Ok, closing, text.as_slice())),
        Err(fault) => tell_fault(alloc, closing, &query_fault(fault)),
    }
}
