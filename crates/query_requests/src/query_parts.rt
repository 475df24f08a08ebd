//! The parts of a query that forms and JSON share.
ghost use Rattle.std.specs.Prelude.{◌≡◌, ◌≤◌, IfOk};
ghost use Rattle.query_requests.specs.QueryReadings.{Gives, end_behind, few_queries, last_moment, time_in};

use crate::query_times::read_time_arg;
use query_text::queries::{MOST_QUERIES, QueryFault};
use tsd_base::times::LAST_TIME;

/// The time that a text names.
pub(crate) fn time_in(text: &[u8], now: u64) -> Result<u64, QueryFault>
    ensures time { Gives (λ time. time) result (time_in now text.now) }
    ensures most { IfOk result (λ time. time ≤ LAST_TIME) }
{
    match read_time_arg(text, now) {
        Ok(time) => Ok(time),
        Err(_) => Err(QueryFault::BadTimes),
    }
}

/// Now, but not behind the last time.
pub(crate) fn last_moment(now: u64) -> u64
    ensures moment { result ≡ last_moment now }
    ensures most { result ≤ LAST_TIME }
{
    now.min(LAST_TIME)
}

/// Refuses an end before its start.
pub(crate) fn check_order(start: u64, end: u64) -> Result<(), QueryFault>
    ensures gives { Gives (λ _. end) result (end_behind start end) }
    ensures order { IfOk result (λ _. start ≤ end) }
{
    if end < start {
        return Err(QueryFault::BadTimes);
    }
    Ok(())
}

/// Refuses a number of sub queries that is 0 or too great.
pub(crate) fn check_count(count: usize) -> Result<(), QueryFault>
    ensures { Gives (λ _. count) result (few_queries count) }
{
    if count == 0 {
        return Err(QueryFault::BadQuery);
    }
    if count > MOST_QUERIES {
        return Err(QueryFault::TooManyQueries { count });
    }
    Ok(())
}
