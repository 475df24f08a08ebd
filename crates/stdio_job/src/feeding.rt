//! Serving one connection over rows, and publishing the points that it accepted.
ghost use Rattle.std.specs.Prelude.{◌≡◌};
ghost use Rattle.std.specs.Io.KnownBytes.{IsAtEnd};
ghost use Rattle.point_put.specs.Admissions.{admission};
ghost use Rattle.tsd_daemon.specs.ServedConns.{ConnCauses, Passes};
ghost use Rattle.stdio_job.specs.FedConnections.{PublishesBytes};

use crate::publication::publish;
use cell_model::rows::Rows;
use compactor::queue::Queue;
use point_feed::{Feed, FeedTerms, PrintsPoints, SelectsPoints};
use point_put::Config;
use std::alloc::Global;
use tsd_daemon::{Served, serve_conn};
use tsd_hooks::UidRule;
use tsd_io::clock::Clock;
use tsd_io::ports::{Sink, Source};
use uid_table::uids::{KEPT_PAIRS, Uids};

/// Serves one connection over rows, and publishes the points that it accepted and that are selected. It hands the rows back, as their last
/// step left them.
pub fn serve_feeding<
    R: Rows + Drop,
    G: SelectsPoints + Drop,
    F: PrintsPoints + Drop,
    J: FeedTerms,
    S: Source,
    K: Sink,
    C: Clock,
>(
    alloc: Global,
    rows: R,
    rule: &UidRule,
    config: &Config,
    selects: G,
    prints: F,
    source: &mut S,
    sink: &mut K,
    clock: &mut C,
) -> (Served, R)
    requires prefix { G.prefix selects ≡ J.prefix }
    requires start { R.seen rows ≡ J.start }
    ensures served { Passes (record { taken = S.taken source.old; left = S.left source.old; held = K.held sink.old; moments = C.moments clock.old })
        (record { taken = S.taken source.new; left = S.left source.new; held = K.held sink.new; moments = C.moments clock.new })
        (PublishesBytes (admission config.now rule.now.patterns) J.prefix J.start result.0 (R.seen result.1)) }
    ensures end { result.0 ≡ Served.End → IsAtEnd (S.left source.new) }
    ensures causes { ConnCauses (record { reads = S.faults source.old; writes = K.faults sink.old; stops = R.stops rows; ticks = C.faults clock.old })
        (record { reads = S.faults source.new; writes = K.faults sink.new; stops = R.stops result.1; ticks = C.faults clock.new }) result.0 }
{
    let feed: Feed<R, G, F, J> = Feed::make(alloc, rows, selects, prints);
    match Uids::over(alloc, feed, KEPT_PAIRS) {
        Ok(names) => serve_names(alloc, names, rule, config, source, sink, clock),
        Err((_error, feed)) => {
            let (rows, _lines, _count) = feed.part();
            (Served::OutOfMemory, rows)
        }
    }
}

/// Serves one connection over rows that feed, and publishes what was fed.
fn serve_names<
    R: Rows + Drop,
    G: SelectsPoints + Drop,
    F: PrintsPoints + Drop,
    J: FeedTerms,
    S: Source,
    K: Sink,
    C: Clock,
>(
    alloc: Global,
    names: Uids<Feed<R, G, F, J>>,
    rule: &UidRule,
    config: &Config,
    source: &mut S,
    sink: &mut K,
    clock: &mut C,
) -> (Served, R)
    requires start { R.seen names.rows.rows ≡ J.start }
    ensures served { Passes (record { taken = S.taken source.old; left = S.left source.old; held = K.held sink.old; moments = C.moments clock.old })
        (record { taken = S.taken source.new; left = S.left source.new; held = K.held sink.new; moments = C.moments clock.new })
        (PublishesBytes (admission config.now rule.now.patterns) J.prefix J.start result.0 (R.seen result.1)) }
    ensures end { result.0 ≡ Served.End → IsAtEnd (S.left source.new) }
    ensures causes { ConnCauses (record { reads = S.faults source.old; writes = K.faults sink.old; stops = R.stops names.rows.rows; ticks = C.faults clock.old })
        (record { reads = S.faults source.new; writes = K.faults sink.new; stops = R.stops result.1; ticks = C.faults clock.new }) result.0 }
{
    let mut names = names;
    let mut queue = Queue::make(alloc);
    let ended = serve_conn(
        alloc, &mut names, rule, config, source, sink, clock, &mut queue,
    );
    let (rows, lines, count) = names.part().part();
    let served = publish(alloc, ended, &lines, count, sink);
    (served, rows)
}
