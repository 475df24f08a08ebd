//! Serving one connection over a store of its own.
ghost use Rattle.std.specs.Prelude.{◌≡◌, None, option_map};
ghost use Rattle.std.specs.Io.KnownBytes.{IsAtEnd};
ghost use Rattle.point_put.specs.Admissions.{admission};
ghost use Rattle.tsd_daemon.specs.ServedConns.{ConnCauses, Passes};
ghost use Rattle.stdio_job.specs.LoneConnections.{ServesAlone};

use crate::published_connection::serve_published;
use compactor::queue::Queue;
use lone_store::{empty, halt_of};
use point_put::Config;
use row_key::Widths;
use std::alloc::Global;
use tsd_daemon::{Served, serve_conn};
use tsd_hooks::UidRule;
use tsd_io::clock::Clock;
use tsd_io::halt::Halt;
use tsd_io::ports::{Sink, Source};

/// How the serving of a connection ended, and the halt, as its last step left it.
#[derive(Drop)]
pub struct Finished<H> {
    pub served: Served,
    pub halt: H,
}

/// Serves one connection over an empty store of its own, whose ids have these widths and each step of which asks the halt first. A new
/// name is given an id only where the rule allows it. Rows that were put to are not compacted: the store goes with the connection.
///
/// With a prefix to `publish`, where the connection ends by itself the line `published N` follows behind the replies, and the lines of the N
/// points that were accepted and whose metric begins with the prefix, in the order in which they were put. Where it ends otherwise, or memory
/// runs out, nothing follows.
pub fn serve_alone<S: Source, K: Sink, C: Clock, H: Halt + Drop>(
    alloc: Global,
    widths: Widths,
    rule: &UidRule,
    config: &Config,
    publish: Option<&[u8]>,
    source: &mut S,
    sink: &mut K,
    clock: &mut C,
    halt: H,
) -> Finished<H>
    ensures served { Passes (record { taken = S.taken source.old; left = S.left source.old; held = K.held sink.old; moments = C.moments clock.old })
        (record { taken = S.taken source.new; left = S.left source.new; held = K.held sink.new; moments = C.moments clock.new })
        (ServesAlone widths (admission config.now rule.now.patterns) (option_map (λ prefix. prefix.now) publish.entry) result.served) }
    ensures end { result.served ≡ Served.End → IsAtEnd (S.left source.new) }
    ensures causes { ConnCauses (record { reads = S.faults source.old; writes = K.faults sink.old; stops = H.stops halt; ticks = C.faults clock.old })
        (record { reads = S.faults source.new; writes = K.faults sink.new; stops = H.stops result.halt; ticks = C.faults clock.new }) result.served }
{
    match publish {
        Some(prefix) => serve_published(
            alloc, widths, rule, config, prefix, source, sink, clock, halt,
        ),
        None => serve_plain(alloc, widths, rule, config, source, sink, clock, halt),
    }
}

/// Serves one connection, and publishes nothing.
fn serve_plain<S: Source, K: Sink, C: Clock, H: Halt + Drop>(
    alloc: Global,
    widths: Widths,
    rule: &UidRule,
    config: &Config,
    source: &mut S,
    sink: &mut K,
    clock: &mut C,
    halt: H,
) -> Finished<H>
    ensures served { Passes (record { taken = S.taken source.old; left = S.left source.old; held = K.held sink.old; moments = C.moments clock.old })
        (record { taken = S.taken source.new; left = S.left source.new; held = K.held sink.new; moments = C.moments clock.new })
        (ServesAlone widths (admission config.now rule.now.patterns) None result.served) }
    ensures end { result.served ≡ Served.End → IsAtEnd (S.left source.new) }
    ensures causes { ConnCauses (record { reads = S.faults source.old; writes = K.faults sink.old; stops = H.stops halt; ticks = C.faults clock.old })
        (record { reads = S.faults source.new; writes = K.faults sink.new; stops = H.stops result.halt; ticks = C.faults clock.new }) result.served }
{
    match empty(alloc, widths, halt) {
        Ok(store) => {
            let mut store = store;
            let mut queue = Queue::make(alloc);
            let served = serve_conn(
                alloc, &mut store, rule, config, source, sink, clock, &mut queue,
            );
            let halt = halt_of(store);
            Finished { served, halt }
        }
        Err((_error, halt)) => Finished {
            served: Served::OutOfMemory,
            halt,
        },
    }
}
