//! The query of a batch.
ghost use Rattle.std.specs.Prelude.{◌≡◌, ◌≤◌, [], ◌∷◌, IfOk};
ghost use Rattle.tsd_base.specs.declared.times.TheConstants.{LAST_TIME};
ghost use Rattle.batch_job.specs.JobAnswers.{CanAsk};
ghost use Rattle.command_words.specs.PlainAsked.{plain_batch};
ghost use Rattle.batch_run.specs.BatchQueries.{GivesQuery};

use command_words::Batch;
use query_text::queries::{Query, QueryFault, Sub, SubList};
use query_text::subs::read_m;
use std::alloc::{AllocError, Global};

/// Reads the query of a batch: one sub query over its range. It answers why its text is none.
pub fn read_query(alloc: Global, batch: &Batch<'_>) -> Result<Query, QueryFault>
    requires range { batch.now.start ≤ batch.now.end }
    requires end { batch.now.end ≤ LAST_TIME }
    ensures gives { GivesQuery result (plain_batch batch.now) }
    ensures can { IfOk result CanAsk }
{
    match read_m(alloc, batch.query, batch.ms) {
        Ok(sub) => Ok(query_of(alloc, sub, batch)?),
        Err(fault) => Err(fault),
    }
}

/// The query of this sub query over the range of a batch.
fn query_of(alloc: Global, sub: Sub, batch: &Batch<'_>) -> Result<Query, AllocError>
    ensures start { IfOk result (λ query. query.start ≡ batch.now.start) }
    ensures end { IfOk result (λ query. query.end ≡ batch.now.end) }
    ensures ms { IfOk result (λ query. query.ms ≡ batch.now.ms) }
    ensures subs { IfOk result (λ query. query.subs ≡ sub ∷ []) }
{
    let mut subs = Vec::new(alloc);
    subs.push(sub)?;
    Ok(Query {
        start: batch.start,
        end: batch.end,
        ms: batch.ms,
        subs: SubList::of(subs),
    })
}
