//! A telnet session, from its bytes to its replies.
ghost use Rattle.std.specs.Prelude.{◌≡◌, ℕ, ◌^◌, ◌<◌, ◌≤◌, [], None};
ghost use Rattle.std.specs.Io.KnownBytes.{IsAtEnd};
ghost use Rattle.point_put.specs.Admissions.{admission};
ghost use Rattle.telnet_put.specs.Requests.{Request};
ghost use Rattle.telnet_put.specs.Sessions.{Gives, HasNext};
ghost use Rattle.tsd_daemon.specs.ConnClocks.{ClockTells};
ghost use Rattle.tsd_daemon.specs.ConnRequests.{telnet_asks};
ghost use Rattle.tsd_daemon.specs.ServedConns.{ConnCauses};
ghost use Rattle.tsd_daemon.specs.Talks.{Causes, Moves, SessionServed, telnet_to_come};

use crate::conn_input::ConnInput;
use crate::exchange::exchange;
use crate::next_piece::next_piece;
use crate::served::Served;
use crate::session::Session;
use cell_model::rows::Rows;
use compactor::queue::Queue;
use point_put::Config;
use std::alloc::Global;
use telnet_put::telnet_lines::Lines;
use tsd_hooks::UidRule;
use tsd_io::ports::{Sink, Source};
use uid_table::uids::Uids;

/// Serves a session whose first piece was taken, and isn't empty.
pub fn serve_telnet<R: Rows + Drop, S: Source, K: Sink>(
    alloc: Global,
    names: &mut Uids<R>,
    rule: &UidRule,
    config: &Config,
    queue: &mut Queue,
    source: &mut S,
    sink: &mut K,
    input: &mut ConnInput,
) -> Served
    requires { input.old.taken ≤ 2 ^ 40 }
    ensures served { (clock : ClockTells) → SessionServed telnet_asks (admission config.now rule.now.patterns) input.old
        (record { seen = R.seen names.old.rows; source = record { taken = S.taken source.old; left = S.left source.old; last = S.last source.old }; clock = clock; held = K.held sink.old; queue = queue.old })
        (record { seen = R.seen names.new.rows; source = record { taken = S.taken source.new; left = S.left source.new; last = S.last source.new }; clock = clock; held = K.held sink.new; queue = queue.new }) result }
    ensures end { result ≡ Served.End → IsAtEnd (S.left source.new) }
    ensures causes { (ticks : ℕ) → ConnCauses (record { reads = S.faults source.old; writes = K.faults sink.old; stops = R.stops names.old.rows; ticks = ticks })
        (record { reads = S.faults source.new; writes = K.faults sink.new; stops = R.stops names.new.rows; ticks = ticks }) result }
    ensures source { S.number source.new ≡ S.number source.old }
    ensures sink { K.number sink.new ≡ K.number sink.old }
{
    let mut lines = Lines::make(alloc);
    let mut session = Session::make(alloc);
    loop {
        match lines.feed(input.piece()) {
            Ok(()) => {}
            Err(_) => return Served::OutOfMemory,
        }
        if let Some(end) = answer_all(
            alloc,
            names,
            rule,
            config,
            queue,
            sink,
            &mut session,
            &mut lines,
        ) {
            return end;
        }
        match next_piece(source, sink, &mut session.replies, input) {
            Ok(()) => {}
            Err(end) => return end,
        }
    }
}

/// Answers the requests that have come whole.
fn answer_all<R: Rows + Drop, K: Sink>(
    alloc: Global,
    names: &mut Uids<R>,
    rule: &UidRule,
    config: &Config,
    queue: &mut Queue,
    sink: &mut K,
    session: &mut Session,
    lines: &mut Lines,
) -> Option<Served>
    ensures moves { Moves (admission config.now rule.now.patterns) (record { seen = R.seen names.old.rows; held = K.held sink.old; queue = queue.old; waiting = session.old.replies; counts = session.old.counts }) (telnet_to_come lines.old)
        (record { seen = R.seen names.new.rows; held = K.held sink.new; queue = queue.new; waiting = session.new.replies; counts = session.new.counts }) (telnet_to_come lines.new) result }
    ensures none { result ≡ None → telnet_to_come lines.new [] ≡ [] }
    ensures causes { Causes (K.faults sink.old) (K.faults sink.new) (R.stops names.old.rows) (R.stops names.new.rows) result }
    ensures number { K.number sink.new ≡ K.number sink.old }
{
    while let Some(end) = lines.find() {
        if let Some(ended) = answer_next(
            alloc, names, rule, config, queue, sink, session, lines, end,
        ) {
            return Some(ended);
        }
    }
    None
}

/// Answers the request that was found, whose line ends here, and uses it up.
fn answer_next<R: Rows + Drop, K: Sink>(
    alloc: Global,
    names: &mut Uids<R>,
    rule: &UidRule,
    config: &Config,
    queue: &mut Queue,
    sink: &mut K,
    session: &mut Session,
    lines: &mut Lines,
    end: usize,
) -> Option<Served>
    requires { HasNext lines.old end }
    ensures moves { Moves (admission config.now rule.now.patterns) (record { seen = R.seen names.old.rows; held = K.held sink.old; queue = queue.old; waiting = session.old.replies; counts = session.old.counts }) (telnet_to_come lines.old)
        (record { seen = R.seen names.new.rows; held = K.held sink.new; queue = queue.new; waiting = session.new.replies; counts = session.new.counts }) (telnet_to_come lines.new) result }
    ensures used { (request : Request) × Gives lines.old request lines.new }
    ensures causes { Causes (K.faults sink.old) (K.faults sink.new) (R.stops names.old.rows) (R.stops names.new.rows) result }
    ensures number { K.number sink.new ≡ K.number sink.old }
{
    let command = lines.command(end);
    let closing = command.closes();
    let ended = exchange(alloc, names, rule, config, queue, sink, session, &command);
    lines.skip(end, closing);
    ended
}
