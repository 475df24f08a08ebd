//! Serving a connection.
ghost use Rattle.std.specs.Prelude.{◌≡◌};
ghost use Rattle.std.specs.Io.KnownBytes.{IsAtEnd};
ghost use Rattle.cell_model.specs.Seen.{InEach};
ghost use Rattle.point_put.specs.Admissions.{admission};
ghost use Rattle.tsd_daemon.specs.ConnRequests.{begins_http};
ghost use Rattle.tsd_daemon.specs.Headline.{Headline};
ghost use Rattle.tsd_daemon.specs.ServedConns.{AsksBytes, ConnCauses, Passes, QueuesBytes, ServesBytes, TakesBytes};
ghost use Rattle.tsd_daemon.specs.Talks.{Ends};

use crate::conn_input::ConnInput;
use crate::http_session::serve_http;
use crate::served::Served;
use crate::telnet_session::serve_telnet;
use cell_model::rows::Rows;
use compactor::queue::Queue;
use point_put::Config;
use std::alloc::Global;
use tsd_hooks::UidRule;
use tsd_io::clock::Clock;
use tsd_io::ports::{Sink, Source};
use uid_table::uids::Uids;

/// Serves one connection, from the bytes that the source gives to the replies that the sink takes, to its end.
///
/// The first byte decides what the connection asks: where it is `A` to `Z` it is an HTTP connection, any other begins a telnet
/// session. Requests are answered one after the other. A new name is given an id only where the rule allows it. The row of each point
/// that was accepted is added to the queue. At most 2^40 bytes are taken.
///
/// Replies may wait to be given together, at most 64 KiB of them, but not while a point is put, not while an HTTP request is worked, and not
/// while bytes are taken. Nothing is taken behind a request that closes. The clause `pieces` says so of the last take, where the source tells
/// what that gave: nothing where it failed or found the end.
///
/// The clock is asked once for each HTTP request to `/api/query` that isn't refused, before it is worked, and for no other request.
/// Where it fails it isn't asked again.
pub fn serve_conn<R: Rows + Drop, S: Source, K: Sink, C: Clock>(
    alloc: Global,
    names: &mut Uids<R>,
    rule: &UidRule,
    config: &Config,
    source: &mut S,
    sink: &mut K,
    clock: &mut C,
    queue: &mut Queue,
) -> Served
    // In each lawful history that fits names keep their ids, and queries are answered plainly.
    ensures headline { Passes (record { taken = S.taken source.old; left = S.left source.old; held = K.held sink.old; moments = C.moments clock.old })
        (record { taken = S.taken source.new; left = S.left source.new; held = K.held sink.new; moments = C.moments clock.new })
        (λ input output times. InEach (R.seen names.new.rows) (λ h. Headline h (R.seen names.old.rows).length (R.seen names.new.rows).length input output times result)) }

    ensures served { Passes (record { taken = S.taken source.old; left = S.left source.old; held = K.held sink.old; moments = C.moments clock.old })
        (record { taken = S.taken source.new; left = S.left source.new; held = K.held sink.new; moments = C.moments clock.new })
        (ServesBytes (admission config.now rule.now.patterns) (R.seen names.old.rows) result (R.seen names.new.rows)) }
    ensures queue { Passes (record { taken = S.taken source.old; left = S.left source.old; held = K.held sink.old; moments = C.moments clock.old })
        (record { taken = S.taken source.new; left = S.left source.new; held = K.held sink.new; moments = C.moments clock.new })
        (QueuesBytes (admission config.now rule.now.patterns) (R.seen names.old.rows) queue.old result (R.seen names.new.rows) queue.new) }
    ensures calls { Passes (record { taken = S.taken source.old; left = S.left source.old; held = K.held sink.old; moments = C.moments clock.old })
        (record { taken = S.taken source.new; left = S.left source.new; held = K.held sink.new; moments = C.moments clock.new })
        (AsksBytes (admission config.now rule.now.patterns) (R.seen names.old.rows) (C.calls clock.old) result (R.seen names.new.rows) (C.calls clock.new)) }
    // Before the last take all requests that had come whole were answered, none of which closes, and their replies given.
    ensures pieces { Passes (record { taken = S.taken source.old; left = S.left source.old; held = K.held sink.old; moments = C.moments clock.old })
        (record { taken = S.taken source.new; left = S.left source.new; held = K.held sink.new; moments = C.moments clock.new })
        (TakesBytes (admission config.now rule.now.patterns) (R.seen names.old.rows) (S.last source.old) result (R.seen names.new.rows) (S.last source.new)) }
    ensures end { result ≡ Served.End → IsAtEnd (S.left source.new) }
    ensures causes { ConnCauses (record { reads = S.faults source.old; writes = K.faults sink.old; stops = R.stops names.old.rows; ticks = C.faults clock.old })
        (record { reads = S.faults source.new; writes = K.faults sink.new; stops = R.stops names.new.rows; ticks = C.faults clock.new }) result }
    ensures source { S.number source.new ≡ S.number source.old }
    ensures sink { K.number sink.new ≡ K.number sink.old }
{
    serve_requests(alloc, names, rule, config, source, sink, clock, queue)
}

/// Serves one connection.
fn serve_requests<R: Rows + Drop, S: Source, K: Sink, C: Clock>(
    alloc: Global,
    names: &mut Uids<R>,
    rule: &UidRule,
    config: &Config,
    source: &mut S,
    sink: &mut K,
    clock: &mut C,
    queue: &mut Queue,
) -> Served
    ensures served { Ends (admission config.now rule.now.patterns)
        (record { seen = R.seen names.old.rows; source = record { taken = S.taken source.old; left = S.left source.old; last = S.last source.old }; clock = record { moments = C.moments clock.old; calls = C.calls clock.old }; held = K.held sink.old; queue = queue.old })
        (record { seen = R.seen names.new.rows; source = record { taken = S.taken source.new; left = S.left source.new; last = S.last source.new }; clock = record { moments = C.moments clock.new; calls = C.calls clock.new }; held = K.held sink.new; queue = queue.new }) result }
    ensures end { result ≡ Served.End → IsAtEnd (S.left source.new) }
    ensures causes { ConnCauses (record { reads = S.faults source.old; writes = K.faults sink.old; stops = R.stops names.old.rows; ticks = C.faults clock.old })
        (record { reads = S.faults source.new; writes = K.faults sink.new; stops = R.stops names.new.rows; ticks = C.faults clock.new }) result }
    ensures source { S.number source.new ≡ S.number source.old }
    ensures sink { K.number sink.new ≡ K.number sink.old }
{
    let Ok(mut input) = ConnInput::make(alloc) else {
        return Served::OutOfMemory;
    };
    match input.take(source) {
        Ok(()) => {}
        Err(end) => return end,
    }
    if begins_http(input.piece()) {
        return serve_http(
            alloc, names, rule, config, queue, source, sink, clock, &mut input,
        );
    }
    serve_telnet(alloc, names, rule, config, queue, source, sink, &mut input)
}

/// Whether the first byte is `A` to `Z`.
fn begins_http(bytes: &[u8]) -> bool
    ensures { result ≡ begins_http bytes.now }
{
    match bytes.first() {
        Some(byte) => byte.is_ascii_uppercase(),
        None => false,
    }
}
