//! The answer of a query over the points that were read.
ghost use Rattle.std.specs.Prelude.{◌≡◌, ◌∷◌, [], List, All, IfOk};
ghost use Rattle.json_reply.specs.Replies.{IsReady};
ghost use Rattle.cell_model.specs.Stops.{CountsStops};
ghost use Rattle.metric_scan.specs.AskFaults.{is_stop};
ghost use Rattle.query_text.specs.declared.queries.Sub.{Sub};
ghost use Rattle.tsd_base.specs.Points.{DataPoint};
ghost use Rattle.batch_job.specs.JobAnswers.{CanAsk, GivesAnswer, answered};
ghost use Rattle.point_lines.specs.OpenRules.{AllowsAll};
ghost use Rattle.batch_job.specs.Pending.{Gathers, so_far};
ghost use Rattle.batch_job.specs.Storing.{IsStored};

use crate::pending::Gathered;
use crate::pending_puts::put_all;
use cell_model::Rows;
use json_reply::reply::Reply;
use query_run::laws::answer_is_unordered;
use query_run::{AskFault, ask};
use query_text::queries::Query;
use std::alloc::Global;
use tsd_hooks::UidRule;
use uid_table::Uids;

/// Answers a query of one sub query over the points that were read: they are put into the store that has the ids of
/// their names, and the query is asked there. The rule for new names is one that allows each of them.
///
/// The first fault is told, want of memory and a stop where they come.
pub fn answer<R: Rows + Drop>(
    alloc: Global,
    query: &Query,
    store: &mut Uids<R>,
    rule: &UidRule,
    gathered: Gathered,
) -> Result<Reply, AskFault>
    requires can { CanAsk query.now }
    requires allows { AllowsAll rule.now.patterns }
    requires gathers { (points : List DataPoint) × Gathers points (so_far (R.seen store.old.rows) gathered) }
    ensures answers { (s : Sub) (points : List DataPoint) → query.now.subs ≡ s ∷ [] → Gathers points (so_far (R.seen store.old.rows) gathered) → GivesAnswer result (answered query.now s points) }
    ensures ready { IfOk result (λ reply. All IsReady reply.groups.items) }
    ensures stops { CountsStops is_stop result (R.stops store.old.rows) (R.stops store.new.rows) }
{
    put_all(alloc, store, rule, gathered.into_series())?;
    answer_from(alloc, query, store)
}

/// Answers a query over the points of a store.
fn answer_from<R: Rows + Drop>(
    alloc: Global,
    query: &Query,
    store: &mut Uids<R>,
) -> Result<Reply, AskFault>
    requires can { CanAsk query.now }
    requires stored { (points : List DataPoint) × IsStored points (R.seen store.old.rows) }
    ensures answers { (s : Sub) (points : List DataPoint) → query.now.subs ≡ s ∷ [] → IsStored points (R.seen store.old.rows) → GivesAnswer result (answered query.now s points) }
    ensures ready { IfOk result (λ reply. All IsReady reply.groups.items) }
    ensures stops { CountsStops is_stop result (R.stops store.old.rows) (R.stops store.new.rows) }
{
    // For the proof: a law.
    answer_is_unordered();
    ask(alloc, store, query)
}
