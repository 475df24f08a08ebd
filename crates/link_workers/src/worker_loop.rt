//! Workers, which serve the connections of one queue until it is closed and empty.
ghost use Rattle.std.specs.Prelude.{◌≡◌, ◌<◌, ◌≤◌, ◌+◌, ◌∷◌, ◌++◌, [], List, length, true, vec_capacity, IfSome, MatchOption};
ghost use Rattle.tsd_doors.specs.Links.{Shut};
ghost use Rattle.link_workers.specs.Returns.{AllServed};

use crate::link_ends::LinkEnds;
use crate::link_work::LinkWork;
use closable_queues::closable::ClosableQueues;
use closable_queues::queue_lists::QueueLists;
use link_acceptor::link::Link;
use std::sync::Wait;
use std::sync::ledger::{Ledger, Share};
use std::thread::Parker;
use std::time::Duration;
use tsd_doors::doors::Doors;

/// A worker: what it has served, and its share of what was taken from the queues, which is as many.
#[derive(Drop)]
pub struct LinkWorker<W: Drop, K: Drop, E: Drop, T: Ledger> {
    /// What it serves with, and what it has served.
    pub links: LinkEnds<W, K, E>,

    /// Its share of what was taken.
    pub share: Share<T>,

    /// The number of its queue.
    pub queue: usize,
    ghost one_part: { share.parts ≡ 1 },
    ghost counted: { share.amount ≡ length links.ends.items },
}

/// Serves the connections of the worker's queue until it is closed and empty. Room for a further end is taken before a connection is.
/// Where there is none it waits for a connection and a hundredth of a second, and tries again. It ends where the queue is closed.
/// Before the first it tells its queue that it has begun.
pub fn serve_worker<
    R: Wait,
    D: Doors,
    W: LinkWork<D::Inlet, D::Outlet> + Drop,
    P: Ledger,
    T: Ledger,
>(
    rt: &R,
    queues: &ClosableQueues<Link<D::Inlet, D::Outlet>, P, T>,
    worker: &mut LinkWorker<W, D::Kept, W::End, T>,
)
    requires served { AllServed W.served D.shown worker.old.links.work worker.old.links.ends.items }
    ensures served { AllServed W.served D.shown worker.new.links.work worker.new.links.ends.items }
{
    let LinkWorker {
        links,
        share,
        queue,
    } = worker;
    queues.begin(rt, *queue);
    for _ in rt.forever() {
        let Some(link) = next_link(rt, queues, *queue, &mut links.ends, share) else {
            return;
        };
        serve_next::<D, W>(links, link);
    }
}

/// The next of a queue, once there is room for a further end. None says that the queue is closed and empty, or that it was closed
/// while there was no room.
fn next_link<R: Wait, X: Drop, E: Drop, P: Ledger, T: Ledger>(
    rt: &R,
    queues: &ClosableQueues<X, P, T>,
    queue: usize,
    ends: &mut Vec<E>,
    share: &mut Share<T>,
) -> Option<X>
    requires some { 0 < share.old.parts }
    ensures ends { ends.new.items ≡ ends.old.items }
    ensures room { IfSome result (λ _. length ends.new.items < vec_capacity ends.new) }
    ensures moved { MatchOption result (share.new.amount ≡ share.old.amount) (λ _. share.new.amount ≡ share.old.amount + 1) }
    ensures parts { share.new.parts ≡ share.old.parts }
{
    for _ in rt.forever() {
        if ends.reserve(1).is_ok() {
            return queues.take(rt, queue, share);
        }
        if !queues.wait(rt, queue) {
            return None;
        }
        Parker::new().park_timeout(rt, Duration::from_millis(10));
    }
    unreachable!()
}

/// Serves what is left in the lists, once nothing more comes, with every part of both books. False says that there was no
/// room for a further end.
pub fn serve_left<R: Wait, D: Doors, W: LinkWork<D::Inlet, D::Outlet> + Drop, P: Ledger, T: Ledger>(
    rt: &R,
    lists: &mut QueueLists<Link<D::Inlet, D::Outlet>, P, T>,
    links: &mut LinkEnds<W, D::Kept, W::End>,
    put: &mut Share<P>,
    taken: &mut Share<T>,
) -> bool
    requires puts { put.old.parts ≡ P.parts }
    requires takes { taken.old.parts ≡ T.parts }
    requires some { 0 < taken.old.parts }
    requires served { AllServed W.served D.shown links.old.work links.old.ends.items }
    ensures put { put.new.amount ≡ put.old.amount }
    ensures counted { taken.new.amount + length links.old.ends.items ≡ taken.old.amount + length links.new.ends.items }
    ensures few { taken.new.amount ≤ put.new.amount }
    ensures all { result ≡ true → taken.new.amount ≡ put.new.amount }
    ensures served { AllServed W.served D.shown links.new.work links.new.ends.items }
{
    for _ in rt.forever() {
        if links.ends.reserve(1).is_err() {
            lists.audit(put, taken);
            return false;
        }
        let Some(link) = lists.take_left(put, taken) else {
            return true;
        };
        serve_next::<D, W>(links, link);
    }
    unreachable!()
}

/// Serves one connection to its end, shuts it and keeps its end, for which there is room.
fn serve_next<D: Doors, W: LinkWork<D::Inlet, D::Outlet> + Drop>(
    links: &mut LinkEnds<W, D::Kept, W::End>,
    link: Link<D::Inlet, D::Outlet>,
)
    requires room { length links.old.ends.items < vec_capacity links.old.ends }
    requires served { AllServed W.served D.shown links.old.work links.old.ends.items }
    ensures one { length links.new.ends.items ≡ length links.old.ends.items + 1 }
    ensures served { AllServed W.served D.shown links.new.work links.new.ends.items }
{
    let Link {
        mut inlet,
        mut outlet,
    } = link;
    let end = links.work.serve(&mut inlet, &mut outlet);
    links.ends.push_reserved((D::shut(inlet, outlet), end));
}
