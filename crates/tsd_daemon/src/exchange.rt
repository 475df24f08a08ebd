//! Working one request of a telnet session.
ghost use Rattle.std.specs.Prelude.{◌≡◌, ℕ, false, List, [], ◌++◌, MatchOption};
ghost use Rattle.tsd_base.specs.Points.{point_of};
ghost use Rattle.telnet_put.specs.Requests.Request.{Put};
ghost use Rattle.telnet_put.specs.TelnetCommands.{request_of};
ghost use Rattle.point_put.specs.Admissions.{admission};
ghost use Rattle.tsd_daemon.specs.declared.counts.Counted.TheVariants as counted;
ghost use Rattle.tsd_daemon.specs.ConnRequests.{ConnRequest, end_of};
ghost use Rattle.tsd_daemon.specs.ConnRequests.ConnRequest.{Telnet};
ghost use Rattle.tsd_daemon.specs.ConnReplies.{counts_with};
ghost use Rattle.tsd_daemon.specs.Exchanges.{is_put};
ghost use Rattle.tsd_daemon.specs.PutAnswers.{put_of};
ghost use Rattle.tsd_daemon.specs.Talks.{Causes, FixedMoves, GivesReply, IsNext, Moves};

use crate::counts::Counted;
use crate::put_answer::answer_put;
use crate::served::Served;
use crate::session::{Session, break_off, tell_last};
use crate::telnet_reply::fixed_reply;
use cell_model::answers::RowsFault;
use cell_model::rows::Rows;
use compactor::queue::Queue;
use point_put::Config;
use std::alloc::Global;
use telnet_put::telnet_command::Command;
use tsd_hooks::UidRule;
use tsd_io::ports::Sink;
use uid_table::uids::Uids;

/// Works one request. The session may end with it.
pub fn exchange<R: Rows + Drop, K: Sink>(
    alloc: Global,
    names: &mut Uids<R>,
    rule: &UidRule,
    config: &Config,
    queue: &mut Queue,
    sink: &mut K,
    session: &mut Session,
    command: &Command<'_>,
) -> Option<Served>
    ensures moves { (come come' : List ℕ → List ConnRequest) → IsNext (Telnet (request_of command.now)) come come'
        → Moves (admission config.now rule.now.patterns) (record { seen = R.seen names.old.rows; held = K.held sink.old; queue = queue.old; waiting = session.old.replies; counts = session.old.counts }) come
        (record { seen = R.seen names.new.rows; held = K.held sink.new; queue = queue.new; waiting = session.new.replies; counts = session.new.counts }) come' result }
    ensures causes { Causes (K.faults sink.old) (K.faults sink.new) (R.stops names.old.rows) (R.stops names.new.rows) result }
    ensures number { K.number sink.new ≡ K.number sink.old }
{
    if let Some(text) = put_asked(command) {
        return work_put(alloc, names, rule, config, queue, sink, session, text);
    }
    forget(names, command);
    work_fixed(alloc, sink, session, command)
}

/// Forgets the kept pairs of names and ids, where that is asked.
fn forget<R: Rows + Drop>(names: &mut Uids<R>, command: &Command<'_>)
    ensures { names.new.rows ≡ names.old.rows }
{
    if let Command::DropCaches = command {
        names.drop_cache();
    }
}

/// The text of the point that a request asks to be put.
fn put_asked<'a>(command: &Command<'a>) -> Option<&'a [u8]>
    ensures { MatchOption result (is_put (Telnet (request_of command.now)) ≡ false) (λ text. request_of command.now ≡ Put (point_of text.now)) }
{
    match command {
        Command::Put { text } => Some(*text),
        _ => None,
    }
}

/// Works the put of a text. Replies that wait are given before it, since it may make a step.
fn work_put<R: Rows + Drop, K: Sink>(
    alloc: Global,
    names: &mut Uids<R>,
    rule: &UidRule,
    config: &Config,
    queue: &mut Queue,
    sink: &mut K,
    session: &mut Session,
    text: &[u8],
) -> Option<Served>
    ensures moves { (come come' : List ℕ → List ConnRequest) → IsNext (put_of text.now) come come'
        → Moves (admission config.now rule.now.patterns) (record { seen = R.seen names.old.rows; held = K.held sink.old; queue = queue.old; waiting = session.old.replies; counts = session.old.counts }) come
        (record { seen = R.seen names.new.rows; held = K.held sink.new; queue = queue.new; waiting = session.new.replies; counts = session.new.counts }) come' result }
    ensures causes { Causes (K.faults sink.old) (K.faults sink.new) (R.stops names.old.rows) (R.stops names.new.rows) result }
    ensures number { K.number sink.new ≡ K.number sink.old }
{
    match session.replies.give(sink) {
        Ok(()) => put_in_turn(alloc, names, rule, config, queue, sink, session, text),
        Err(_) => Some(Served::WriteFault),
    }
}

/// Works the put of a text, where no reply waits.
fn put_in_turn<R: Rows + Drop, K: Sink>(
    alloc: Global,
    names: &mut Uids<R>,
    rule: &UidRule,
    config: &Config,
    queue: &mut Queue,
    sink: &mut K,
    session: &mut Session,
    text: &[u8],
) -> Option<Served>
    requires { session.old.replies ≡ [] }
    ensures moves { (come come' : List ℕ → List ConnRequest) → IsNext (put_of text.now) come come'
        → Moves (admission config.now rule.now.patterns) (record { seen = R.seen names.old.rows; held = K.held sink.old; queue = queue.old; waiting = session.old.replies; counts = session.old.counts }) come
        (record { seen = R.seen names.new.rows; held = K.held sink.new; queue = queue.new; waiting = session.new.replies; counts = session.new.counts }) come' result }
    ensures causes { Causes (K.faults sink.old) (K.faults sink.new) (R.stops names.old.rows) (R.stops names.new.rows) result }
    ensures number { K.number sink.new ≡ K.number sink.old }
{
    let answer = match answer_put(alloc, names, rule, config, queue, text) {
        Ok(answer) => answer,
        Err(RowsFault::OutOfMemory) => return Some(Served::OutOfMemory),
        Err(RowsFault::Stopped) => return Some(Served::Stopped),
    };
    match session.tell(sink, answer.reply.as_slice(), answer.counted) {
        Ok(()) => None,
        Err(_) => Some(Served::WriteFault),
    }
}

/// Works a request that asks for no step.
fn work_fixed<K: Sink>(
    alloc: Global,
    sink: &mut K,
    session: &mut Session,
    command: &Command<'_>,
) -> Option<Served>
    requires { is_put (Telnet (request_of command.now)) ≡ false }
    ensures moves { FixedMoves (Telnet (request_of command.now)) (K.held sink.old) session.old.replies session.old.counts result (K.held sink.new) session.new.replies session.new.counts }
    ensures causes { (stops : ℕ) → Causes (K.faults sink.old) (K.faults sink.new) stops stops result }
    ensures number { K.number sink.new ≡ K.number sink.old }
{
    let Ok(reply) = fixed_reply(alloc, &session.counts, command) else {
        return Some(break_off(sink, &mut session.replies));
    };
    match end_of(command) {
        Some(end) => Some(tell_last(sink, &mut session.replies, reply.as_slice(), end)),
        None => tell_fixed(sink, session, reply.as_slice()),
    }
}

/// Tells the reply to a request that asks for no step and doesn't close.
fn tell_fixed<K: Sink>(sink: &mut K, session: &mut Session, reply: &[u8]) -> Option<Served>
    ensures some { GivesReply (K.held sink.old) (K.held sink.new) (session.old.replies ++ reply.now) session.new.replies result }
    ensures counts { session.new.counts ≡ counts_with session.old.counts counted.Other }
    ensures causes { (stops : ℕ) → Causes (K.faults sink.old) (K.faults sink.new) stops stops result }
    ensures number { K.number sink.new ≡ K.number sink.old }
{
    match session.tell(sink, reply, Counted::Other) {
        Ok(()) => None,
        Err(_) => Some(Served::WriteFault),
    }
}

/// How a session ends with a request, if it does.
fn end_of(command: &Command<'_>) -> Option<Served>
    ensures { result ≡ end_of (Telnet (request_of command.now)) }
{
    match command {
        Command::Exit => Some(Served::Exit),
        Command::Die => Some(Served::Die),
        _ => None,
    }
}
