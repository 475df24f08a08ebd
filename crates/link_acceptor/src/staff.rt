//! Workers that serve, each on a thread of its own, while connections are accepted.
ghost use Rattle.std.specs.Prelude.{◌≡◌, ◌<◌, ◌≤◌, ◌-◌, All, vec_len};
ghost use Rattle.std.specs.Fork.{AcceptsEach, ChangesAt};
ghost use Rattle.link_acceptor.specs.Accepting.{AddsUpOrFails, AsksEach, links_between, HasReason};
ghost use Rattle.link_acceptor.specs.Changes.{EachChanged};

use crate::accept_loop::{AcceptEnd, Accepted, accept_links};
use crate::link::Link;
use closable_queues::closable::ClosableQueues;
use std::sync::Wait;
use std::sync::ledger::{Ledger, Share};
use std::thread;
use std::thread::{Parker, Threads};
use std::time::Duration;
use tsd_doors::doors::Doors;
use tsd_io::halt::Halt;

/// How often it is asked whether each queue has a worker that has begun, once a millisecond.
const MOST_PAUSES: usize = 10_000;

/// Accepts on this thread, and calls a function with each of these, each on a thread of its own.
pub fn accept_beside<
    R: Threads + Wait + Sync,
    D: Doors,
    H: Halt,
    P: Ledger + Send + Sync,
    T: Ledger + Send + Sync,
    S: Send,
    F: Fn(usize, &mut S) + Sync,
>(
    rt: &R,
    queues: &ClosableQueues<Link<D::Inlet, D::Outlet>, P, T>,
    doors: &mut D,
    halt: &mut H,
    put: &mut Share<P>,
    servers: &mut Vec<S>,
    serve: &F,
) -> Accepted
    requires some { 0 < put.old.parts }
    requires accepts { AcceptsEach F.Fn serve.now servers.old.items }
    ensures len { vec_len servers.new ≡ vec_len servers.old }
    ensures changes { EachChanged (ChangesAt F.Fn serve.now) servers.old.items servers.new.items }
    ensures parts { put.new.parts ≡ put.old.parts }
    ensures adds_up { AddsUpOrFails result.end (D.counts doors.old) (D.counts doors.new) put.old.amount put.new.amount }
    ensures links { result.links ≡ links_between (D.counts doors.old) (D.counts doors.new) }
    ensures back { D.back doors.new ≡ D.back doors.old }
    ensures asked { AsksEach H.answers result.end ((D.counts doors.new).out - (D.counts doors.old).out) halt.old halt.new }
    ensures stops { H.stops halt.old ≤ H.stops halt.new }
    ensures faults { D.faults doors.old ≤ D.faults doors.new }
    ensures reason { HasReason result.end (D.waiting doors.old) (D.waiting doors.new) (H.stops halt.old) (H.stops halt.new) (D.faults doors.old) (D.faults doors.new) }
{
    let workers = servers.len();
    let (_, accepted) = thread::join_mut(
        rt,
        &mut ||
            requires { AcceptsEach F.Fn serve.now servers.now.items }
            ensures len { vec_len servers.exit.now ≡ vec_len servers.entry.now }
            ensures changes { EachChanged (ChangesAt F.Fn serve.entry.now) servers.entry.now.items servers.exit.now.items }
        {
            let count = servers.len().max(1);
            thread::for_each_mut(rt, servers, count, serve);
        },
        &mut || -> Accepted
            requires { 0 < put.now.parts }
        { accept_served(rt, queues, workers, doors, halt, put) },
    );
    accepted
}

/// Accepts once each queue has a worker that has begun. Where one has none after ten seconds no thread was made for it: nothing is
/// accepted, and the queues are closed.
fn accept_served<R: Wait, D: Doors, H: Halt, P: Ledger, T: Ledger>(
    rt: &R,
    queues: &ClosableQueues<Link<D::Inlet, D::Outlet>, P, T>,
    workers: usize,
    doors: &mut D,
    halt: &mut H,
    put: &mut Share<P>,
) -> Accepted
    requires some { 0 < put.old.parts }
    ensures parts { put.new.parts ≡ put.old.parts }
    ensures adds_up { AddsUpOrFails result.end (D.counts doors.old) (D.counts doors.new) put.old.amount put.new.amount }
    ensures links { result.links ≡ links_between (D.counts doors.old) (D.counts doors.new) }
    ensures back { D.back doors.new ≡ D.back doors.old }
    ensures asked { AsksEach H.answers result.end ((D.counts doors.new).out - (D.counts doors.old).out) halt.old halt.new }
    ensures stops { H.stops halt.old ≤ H.stops halt.new }
    ensures faults { D.faults doors.old ≤ D.faults doors.new }
    ensures reason { HasReason result.end (D.waiting doors.old) (D.waiting doors.new) (H.stops halt.old) (H.stops halt.new) (D.faults doors.old) (D.faults doors.new) }
{
    if have_begun(rt, queues, workers) {
        return accept_links(rt, queues, doors, halt, put);
    }
    queues.close(rt);
    Accepted {
        links: 0,
        end: AcceptEnd::OutOfMemory,
    }
}

/// Waits until workers of so many queues have begun, for ten seconds at most, and tells whether they have.
fn have_begun<R: Wait, X: Drop, P: Ledger, T: Ledger>(
    rt: &R,
    queues: &ClosableQueues<X, P, T>,
    workers: usize,
) -> bool {
    let pause = Parker::new();
    for _ in 0..MOST_PAUSES {
        if queues.have_begun(rt, workers) {
            return true;
        }
        pause.park_timeout(rt, Duration::from_millis(1));
    }
    false
}
