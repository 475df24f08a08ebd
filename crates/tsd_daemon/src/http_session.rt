//! An HTTP connection, from its bytes to its replies.
ghost use Rattle.std.specs.Prelude.{◌≡◌, ◌^◌, ◌<◌, ◌≤◌, [], None};
ghost use Rattle.std.specs.Io.KnownBytes.{IsAtEnd};
ghost use Rattle.http_requests.specs.Routes.{route_table, valued};
ghost use Rattle.point_put.specs.Admissions.{admission};
ghost use Rattle.tsd_daemon.specs.ConnRequests.{http_asks};
ghost use Rattle.tsd_daemon.specs.ServedConns.{ConnCauses};
ghost use Rattle.tsd_daemon.specs.Talks.{ClockCauses, ClockMoves, SessionServed, http_to_come};

use crate::call_exchange::exchange_call;
use crate::conn_input::ConnInput;
use crate::next_piece::next_piece;
use crate::served::Served;
use crate::session::{Session, break_off};
use cell_model::rows::Rows;
use compactor::queue::Queue;
use http_requests::request_stream::Exchange;
use http_requests::routes::{Route, make_router};
use matchit::Router;
use point_put::Config;
use std::alloc::Global;
use tsd_hooks::UidRule;
use tsd_io::clock::Clock;
use tsd_io::ports::{Sink, Source};
use uid_table::uids::Uids;

/// Serves an HTTP connection whose first piece was taken, and isn't empty.
pub fn serve_http<R: Rows + Drop, S: Source, K: Sink, C: Clock>(
    alloc: Global,
    names: &mut Uids<R>,
    rule: &UidRule,
    config: &Config,
    queue: &mut Queue,
    source: &mut S,
    sink: &mut K,
    clock: &mut C,
    input: &mut ConnInput,
) -> Served
    requires { input.old.taken ≤ 2 ^ 40 }
    ensures served { SessionServed http_asks (admission config.now rule.now.patterns) input.old
        (record { seen = R.seen names.old.rows; source = record { taken = S.taken source.old; left = S.left source.old; last = S.last source.old }; clock = record { moments = C.moments clock.old; calls = C.calls clock.old }; held = K.held sink.old; queue = queue.old })
        (record { seen = R.seen names.new.rows; source = record { taken = S.taken source.new; left = S.left source.new; last = S.last source.new }; clock = record { moments = C.moments clock.new; calls = C.calls clock.new }; held = K.held sink.new; queue = queue.new }) result }
    ensures end { result ≡ Served.End → IsAtEnd (S.left source.new) }
    ensures causes { ConnCauses (record { reads = S.faults source.old; writes = K.faults sink.old; stops = R.stops names.old.rows; ticks = C.faults clock.old })
        (record { reads = S.faults source.new; writes = K.faults sink.new; stops = R.stops names.new.rows; ticks = C.faults clock.new }) result }
    ensures source { S.number source.new ≡ S.number source.old }
    ensures sink { K.number sink.new ≡ K.number sink.old }
{
    let Ok(router) = make_router(alloc) else {
        return Served::OutOfMemory;
    };
    let mut calls = Exchange::make(alloc);
    let mut session = Session::make(alloc);
    loop {
        match calls.feed(input.piece()) {
            Ok(()) => {}
            Err(_) => return Served::OutOfMemory,
        }
        if let Some(end) = answer_calls(
            alloc,
            &router,
            names,
            rule,
            config,
            queue,
            sink,
            clock,
            &mut session,
            &mut calls,
        ) {
            return end;
        }
        match next_piece(source, sink, &mut session.replies, input) {
            Ok(()) => {}
            Err(end) => return end,
        }
    }
}

/// Answers the calls that have come whole.
fn answer_calls<R: Rows + Drop, K: Sink, C: Clock>(
    alloc: Global,
    router: &Router<Route>,
    names: &mut Uids<R>,
    rule: &UidRule,
    config: &Config,
    queue: &mut Queue,
    sink: &mut K,
    clock: &mut C,
    session: &mut Session,
    calls: &mut Exchange,
) -> Option<Served>
    requires { valued router.now ≡ route_table }
    ensures moves { ClockMoves (admission config.now rule.now.patterns) (record { moments = C.moments clock.old; calls = C.calls clock.old }) (record { seen = R.seen names.old.rows; held = K.held sink.old; queue = queue.old; waiting = session.old.replies; counts = session.old.counts }) (http_to_come calls.old)
        (record { moments = C.moments clock.new; calls = C.calls clock.new }) (record { seen = R.seen names.new.rows; held = K.held sink.new; queue = queue.new; waiting = session.new.replies; counts = session.new.counts }) (http_to_come calls.new) result }
    ensures none { result ≡ None → http_to_come calls.new [] ≡ [] }
    ensures causes { ClockCauses (K.faults sink.old) (K.faults sink.new) (R.stops names.old.rows) (R.stops names.new.rows) (C.faults clock.old) (C.faults clock.new) result }
    ensures number { K.number sink.new ≡ K.number sink.old }
{
    loop {
        match calls.turn(alloc) {
            Err(_) => return Some(break_off(sink, &mut session.replies)),
            Ok(None) => return None,
            Ok(Some(call)) => {
                if let Some(end) = exchange_call(
                    alloc, router, names, rule, config, queue, sink, clock, session, call,
                ) {
                    return Some(end);
                }
            }
        }
    }
}
