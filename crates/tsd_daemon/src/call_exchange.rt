//! Working one call of an HTTP connection.
ghost use Rattle.std.specs.Prelude.{◌≡◌, ℕ, true, List, [], option_to_list, IfOk, OnErr};
ghost use Rattle.http_requests.specs.Routes.{route_table, valued};
ghost use Rattle.http_api.specs.CallWork.{asks_clock};
ghost use Rattle.tsd_io.specs.Causes.{HasCause};
ghost use Rattle.tsd_io.specs.Ticks.{IsCalled};
ghost use Rattle.point_put.specs.Admissions.{admission};
ghost use Rattle.tsd_daemon.specs.ConnClocks.{ClockTells, Ticked};
ghost use Rattle.tsd_daemon.specs.ConnRequests.{ConnRequest};
ghost use Rattle.tsd_daemon.specs.ConnRequests.ConnRequest.{Http};
ghost use Rattle.tsd_daemon.specs.Exchanges.{moment_for};
ghost use Rattle.tsd_daemon.specs.Talks.{Causes, ClockCauses, ClockMoves, IsNext};

use crate::counts::Counted;
use crate::served::Served;
use crate::session::{Session, tell_last};
use cell_model::answers::RowsFault;
use cell_model::rows::Rows;
use compactor::queue::Queue;
use http_api::{RoutedCall, answer};
use http_requests::http_call::Call;
use http_requests::routes::Route;
use matchit::Router;
use point_put::Config;
use std::alloc::Global;
use tsd_hooks::UidRule;
use tsd_io::clock::Clock;
use tsd_io::ports::{Failed, Sink};
use uid_table::uids::Uids;

/// Works one call, and lets go of it. The connection may end with it.
pub fn exchange_call<R: Rows + Drop, K: Sink, C: Clock>(
    alloc: Global,
    router: &Router<Route>,
    names: &mut Uids<R>,
    rule: &UidRule,
    config: &Config,
    queue: &mut Queue,
    sink: &mut K,
    clock: &mut C,
    session: &mut Session,
    call: Call,
) -> Option<Served>
    requires { valued router.now ≡ route_table }
    ensures moves { (come come' : List ℕ → List ConnRequest) → IsNext (Http call) come come'
        → ClockMoves (admission config.now rule.now.patterns) (record { moments = C.moments clock.old; calls = C.calls clock.old }) (record { seen = R.seen names.old.rows; held = K.held sink.old; queue = queue.old; waiting = session.old.replies; counts = session.old.counts }) come
        (record { moments = C.moments clock.new; calls = C.calls clock.new }) (record { seen = R.seen names.new.rows; held = K.held sink.new; queue = queue.new; waiting = session.new.replies; counts = session.new.counts }) come' result }
    ensures causes { ClockCauses (K.faults sink.old) (K.faults sink.new) (R.stops names.old.rows) (R.stops names.new.rows) (C.faults clock.old) (C.faults clock.new) result }
    ensures number { K.number sink.new ≡ K.number sink.old }
{
    let routed = RoutedCall::of(router, call);
    work_call(
        alloc, names, rule, config, queue, sink, clock, session, &routed,
    )
}

/// Works one call. Replies that wait are given before it, since it may make a step.
fn work_call<R: Rows + Drop, K: Sink, C: Clock>(
    alloc: Global,
    names: &mut Uids<R>,
    rule: &UidRule,
    config: &Config,
    queue: &mut Queue,
    sink: &mut K,
    clock: &mut C,
    session: &mut Session,
    call: &RoutedCall,
) -> Option<Served>
    ensures moves { (come come' : List ℕ → List ConnRequest) → IsNext (Http call.now) come come'
        → ClockMoves (admission config.now rule.now.patterns) (record { moments = C.moments clock.old; calls = C.calls clock.old }) (record { seen = R.seen names.old.rows; held = K.held sink.old; queue = queue.old; waiting = session.old.replies; counts = session.old.counts }) come
        (record { moments = C.moments clock.new; calls = C.calls clock.new }) (record { seen = R.seen names.new.rows; held = K.held sink.new; queue = queue.new; waiting = session.new.replies; counts = session.new.counts }) come' result }
    ensures causes { ClockCauses (K.faults sink.old) (K.faults sink.new) (R.stops names.old.rows) (R.stops names.new.rows) (C.faults clock.old) (C.faults clock.new) result }
    ensures number { K.number sink.new ≡ K.number sink.old }
{
    match session.replies.give(sink) {
        Ok(()) => call_in_turn(
            alloc, names, rule, config, queue, sink, clock, session, call,
        ),
        Err(_) => Some(Served::WriteFault),
    }
}

/// Works one call, where no reply waits. The clock is asked before it is worked, where the call asks for the moment.
fn call_in_turn<R: Rows + Drop, K: Sink, C: Clock>(
    alloc: Global,
    names: &mut Uids<R>,
    rule: &UidRule,
    config: &Config,
    queue: &mut Queue,
    sink: &mut K,
    clock: &mut C,
    session: &mut Session,
    call: &RoutedCall,
) -> Option<Served>
    requires { session.old.replies ≡ [] }
    ensures moves { (come come' : List ℕ → List ConnRequest) → IsNext (Http call.now) come come'
        → ClockMoves (admission config.now rule.now.patterns) (record { moments = C.moments clock.old; calls = C.calls clock.old }) (record { seen = R.seen names.old.rows; held = K.held sink.old; queue = queue.old; waiting = session.old.replies; counts = session.old.counts }) come
        (record { moments = C.moments clock.new; calls = C.calls clock.new }) (record { seen = R.seen names.new.rows; held = K.held sink.new; queue = queue.new; waiting = session.new.replies; counts = session.new.counts }) come' result }
    ensures causes { ClockCauses (K.faults sink.old) (K.faults sink.new) (R.stops names.old.rows) (R.stops names.new.rows) (C.faults clock.old) (C.faults clock.new) result }
    ensures number { K.number sink.new ≡ K.number sink.old }
{
    match moment_of(clock, call) {
        Ok(now) => call_at(alloc, names, rule, config, queue, sink, session, call, now),
        Err(_) => Some(Served::ClockFault),
    }
}

/// The moment at which a call is worked, in milliseconds since 1970: the clock's where the call asks it, else 0.
fn moment_of<C: Clock>(clock: &mut C, call: &RoutedCall) -> Result<u64, Failed>
    ensures ok { IfOk result (λ now. Ticked (record { moments = C.moments clock.old; calls = C.calls clock.old }) (option_to_list (moment_for call.now now)) (record { moments = C.moments clock.new; calls = C.calls clock.new })) }
    ensures err { OnErr result ((asks_clock call.now ≡ true) × (C.moments clock.new ≡ C.moments clock.old)) }
    ensures called { OnErr result (IsCalled (C.calls clock.old) (C.calls clock.new)) }
    ensures cause { HasCause (C.faults clock.old) (C.faults clock.new) result }
{
    if call.asks_clock() {
        return clock.now();
    }
    Ok(0)
}

/// Works one call at this moment, where no reply waits.
fn call_at<R: Rows + Drop, K: Sink>(
    alloc: Global,
    names: &mut Uids<R>,
    rule: &UidRule,
    config: &Config,
    queue: &mut Queue,
    sink: &mut K,
    session: &mut Session,
    call: &RoutedCall,
    now: u64,
) -> Option<Served>
    requires { session.old.replies ≡ [] }
    ensures moves { (come come' : List ℕ → List ConnRequest) → IsNext (Http call.now) come come'
        → (told told' : ClockTells) → Ticked told (option_to_list (moment_for call.now now)) told'
        → ClockMoves (admission config.now rule.now.patterns) told (record { seen = R.seen names.old.rows; held = K.held sink.old; queue = queue.old; waiting = session.old.replies; counts = session.old.counts }) come
        told' (record { seen = R.seen names.new.rows; held = K.held sink.new; queue = queue.new; waiting = session.new.replies; counts = session.new.counts }) come' result }
    ensures causes { Causes (K.faults sink.old) (K.faults sink.new) (R.stops names.old.rows) (R.stops names.new.rows) result }
    ensures number { K.number sink.new ≡ K.number sink.old }
{
    let reply = match answer(alloc, names, rule, config, queue, call, now) {
        Ok(reply) => reply,
        Err(RowsFault::OutOfMemory) => return Some(Served::OutOfMemory),
        Err(RowsFault::Stopped) => return Some(Served::Stopped),
    };
    if call.closing() {
        return Some(tell_last(sink, &mut session.replies, reply.as_slice(), Served::Closed));
    }
    match session.tell(sink, reply.as_slice(), Counted::Other) {
        Ok(()) => None,
        Err(_) => Some(Served::WriteFault),
    }
}
