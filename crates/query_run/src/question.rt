//! Asking a query.
ghost use Rattle.std.specs.Prelude.{◌≡◌, ◌++◌, ◌≤◌, All, IfOk, OnOk};
ghost use Rattle.tsd_base.specs.declared.times.TheConstants.{LAST_TIME};
ghost use Rattle.query_text.specs.Subs.{CanDown};
ghost use Rattle.json_reply.specs.Replies.{IsReady};
ghost use Rattle.cell_model.specs.Stops.{CountsStops};
ghost use Rattle.metric_scan.specs.AskFaults.{is_stop};
ghost use Rattle.query_run.specs.AskedQueries.{QuerySays};

use crate::sub_query::work;
use cell_model::Rows;
use json_reply::reply::{Group, Reply};
use metric_scan::fault::AskFault;
use query_text::queries::Query;
use std::alloc::{AllocError, Global};
use uid_table::Uids;

/// Adds groups behind others.
fn add(groups: &mut Vec<Group>, more: Vec<Group>) -> Result<(), AllocError>
    ensures { OnOk result (groups.new.items ≡ groups.old.items ++ more.items) }
{
    let mut more = more;
    groups.append(&mut more)?;
    Ok(())
}

/// Answers a query: the groups of its sub queries, in order.
///
/// Each sub query is worked alone. Its names are resolved in the order of its text; then the rows of the metric in the hours from the
/// start's to the end's are read one by one, and directly after each that passes the filters the names of the ids that it shows and
/// that the sub query has not named before, pair by pair from the left, key before value. A name or an id whose pair `names` has kept
/// takes no read. Behind a row that fails the filters the next one is looked for behind those that fail as it does. What these rows show covers every point that the sub query wants and that was accepted before the first of these
/// steps, and lies within what is accepted at the end.
///
/// Times are in milliseconds. A downsample's interval is at least one millisecond, and whole seconds where times are told in seconds.
pub fn ask<R: Rows + Drop>(
    alloc: Global,
    names: &mut Uids<R>,
    query: &Query,
) -> Result<Reply, AskFault>
    requires order { query.now.start ≤ query.now.end }
    requires most { query.now.end ≤ LAST_TIME }
    requires downs { All (CanDown query.now.ms) query.now.subs }
    ensures says { QuerySays query.now (R.seen names.old.rows) result (R.seen names.new.rows) }
    ensures ready { IfOk result (λ reply. All IsReady reply.groups.items) }
    ensures stops { CountsStops is_stop result (R.stops names.old.rows) (R.stops names.new.rows) }
{
    let mut groups = Vec::new(alloc);
    for sub in query.subs.list() {
        let more = work(alloc, names, query, sub)?;
        add(&mut groups, more)?;
    }
    Ok(Reply { groups })
}
