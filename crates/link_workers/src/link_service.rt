//! All connections of the doors, each served by one of the workers or by the caller.
ghost use Rattle.std.specs.Prelude.{◌≡◌, ◌<◌, ◌≤◌, ◌+◌, [], All, length, max, IfOk, vec_len, vec_capacity};
ghost use Rattle.std.specs.List.{sum_by};
ghost use Rattle.link_acceptor.specs.Accepting.{AddsUp, AsksHalt, lost_by, links_between, HasReason};
ghost use Rattle.link_workers.specs.Returns.{AllServed, AccountsFor};

use crate::link_ends::LinkEnds;
use crate::link_work::LinkWork;
use crate::worker_loop::{LinkWorker, serve_left, serve_worker};
use closable_queues::closable::ClosableQueues;
use link_acceptor::accept_loop::{AcceptEnd, Accepted};
use link_acceptor::link::Link;
use link_acceptor::staff::accept_beside;
use std::alloc::{AllocError, Global};
use std::marker::Brand;
use std::sync::Wait;
use std::sync::ledger::{Blank, Book, Ledger, Share};
use std::thread::Threads;
use tsd_doors::doors::Doors;
use tsd_io::halt::Halt;

/// Accepts connections until no more come or there is a cause to stop, while workers on other threads serve them. When all
/// workers have ended, the caller serves what is left.
///
/// Connection k, from 0, goes to queue k mod `queue_count`, and worker i serves the queue i mod `queue_count`. Each
/// connection is served once, by one worker or the caller, and has an end of its own there. Only where the answer is
/// `OutOfMemory` a connection may have none.
pub fn serve_links<
    R: Threads + Wait + Sync,
    D: Doors,
    H: Halt,
    W: LinkWork<D::Inlet, D::Outlet> + Send + Drop,
>(
    rt: &R,
    alloc: Global,
    queue_count: usize,
    doors: &mut D,
    halt: &mut H,
    workers: &mut Vec<LinkEnds<W, D::Kept, W::End>>,
    own: &mut LinkEnds<W, D::Kept, W::End>,
) -> Accepted
    requires some { 0 < queue_count }
    requires idle { All (λ worker. worker.ends.items ≡ []) workers.old.items }
    requires own_idle { own.old.ends.items ≡ [] }
    requires begun { All (λ worker. W.served worker.work []) workers.old.items }
    requires own_begun { W.served own.old.work [] }
    ensures len { vec_len workers.new ≡ vec_len workers.old }
    ensures served { All (λ worker. AllServed W.served D.shown worker.work worker.ends.items) workers.new.items }
    ensures own_served { AllServed W.served D.shown own.new.work own.new.ends.items }
    ensures counted { AccountsFor result.end (D.counts doors.old) (D.counts doors.new)
        (sum_by (λ worker. length worker.ends.items) workers.new.items + length own.new.ends.items) }
    ensures links { result.links ≡ links_between (D.counts doors.old) (D.counts doors.new) }
    ensures back { D.back doors.new ≡ D.back doors.old }
    ensures asked { AsksHalt H.answers result.end (D.counts doors.old) (D.counts doors.new) halt.old halt.new }
    ensures stops { H.stops halt.old ≤ H.stops halt.new }
    ensures faults { D.faults doors.old ≤ D.faults doors.new }
    ensures reason { HasReason result.end (D.waiting doors.old) (D.waiting doors.new) (H.stops halt.old) (H.stops halt.new) (D.faults doors.old) (D.faults doors.new) }
{
    let parts = workers.len().max(1) as u64;
    serve_counted::<R, D, H, W, Brand, Brand>(
        rt,
        alloc,
        queue_count,
        doors,
        halt,
        workers,
        own,
        Blank::new(1),
        Blank::new(parts),
    )
}

/// Does so with new books of what is put into the queues and what is taken.
fn serve_counted<
    R: Threads + Wait + Sync,
    D: Doors,
    H: Halt,
    W: LinkWork<D::Inlet, D::Outlet> + Send + Drop,
    P: Ledger + Send + Sync,
    T: Ledger + Send + Sync,
>(
    rt: &R,
    alloc: Global,
    queue_count: usize,
    doors: &mut D,
    halt: &mut H,
    workers: &mut Vec<LinkEnds<W, D::Kept, W::End>>,
    own: &mut LinkEnds<W, D::Kept, W::End>,
    puts: Blank,
    takes: Blank,
) -> Accepted
    requires puts_name { puts.name ≡ P.name }
    requires puts_parts { puts.parts ≡ P.parts }
    requires puts_one { puts.parts ≡ 1 }
    requires takes_name { takes.name ≡ T.name }
    requires takes_parts { takes.parts ≡ T.parts }
    requires takes_each { takes.parts ≡ max (vec_len workers.old) 1 }
    requires some { 0 < queue_count }
    requires idle { All (λ worker. worker.ends.items ≡ []) workers.old.items }
    requires own_idle { own.old.ends.items ≡ [] }
    requires begun { All (λ worker. W.served worker.work []) workers.old.items }
    requires own_begun { W.served own.old.work [] }
    ensures len { vec_len workers.new ≡ vec_len workers.old }
    ensures served { All (λ worker. AllServed W.served D.shown worker.work worker.ends.items) workers.new.items }
    ensures own_served { AllServed W.served D.shown own.new.work own.new.ends.items }
    ensures counted { AccountsFor result.end (D.counts doors.old) (D.counts doors.new)
        (sum_by (λ worker. length worker.ends.items) workers.new.items + length own.new.ends.items) }
    ensures links { result.links ≡ links_between (D.counts doors.old) (D.counts doors.new) }
    ensures back { D.back doors.new ≡ D.back doors.old }
    ensures asked { AsksHalt H.answers result.end (D.counts doors.old) (D.counts doors.new) halt.old halt.new }
    ensures stops { H.stops halt.old ≤ H.stops halt.new }
    ensures faults { D.faults doors.old ≤ D.faults doors.new }
    ensures reason { HasReason result.end (D.waiting doors.old) (D.waiting doors.new) (H.stops halt.old) (H.stops halt.new) (D.faults doors.old) (D.faults doors.new) }
{
    let (puts, mut put) = puts.open::<P>();
    let (takes, mut taken) = takes.open::<T>();
    let Ok((queues, seated)) = make_queues::<D, W, P, T>(alloc, queue_count, workers, puts, takes)
    else {
        return Accepted {
            links: 0,
            end: AcceptEnd::OutOfMemory,
        };
    };
    let mut seated = seated;
    seat_workers::<D, W, T>(workers, &mut seated, &mut taken);
    let accepted = accept_beside(
        rt,
        &queues,
        doors,
        halt,
        &mut put,
        &mut seated,
        &|_, worker: &mut LinkWorker<W, D::Kept, W::End, T>|
            requires { AllServed W.served D.shown worker.now.links.work worker.now.links.ends.items }
            ensures { AllServed W.served D.shown worker.exit.now.links.work worker.exit.now.links.ends.items }
        { serve_worker::<R, D, W, P, T>(rt, &queues, worker) },
    );
    unseat_workers::<D, W, T>(workers, &mut seated, &mut taken);
    let mut lists = queues.into_lists();
    if serve_left::<R, D, W, P, T>(rt, &mut lists, own, &mut put, &mut taken) {
        return accepted;
    }
    Accepted {
        links: accepted.links,
        end: AcceptEnd::OutOfMemory,
    }
}

/// The queues, and room for the workers and for the first end of each.
fn make_queues<D: Doors, W: LinkWork<D::Inlet, D::Outlet> + Drop, P: Ledger, T: Ledger>(
    alloc: Global,
    queue_count: usize,
    workers: &mut Vec<LinkEnds<W, D::Kept, W::End>>,
    puts: Book<P>,
    takes: Book<T>,
) -> Result<
    (
        ClosableQueues<Link<D::Inlet, D::Outlet>, P, T>,
        Vec<LinkWorker<W, D::Kept, W::End, T>>,
    ),
    AllocError,
>
    requires some { 0 < queue_count }
    requires puts { puts.total ≡ 0 }
    requires takes { takes.total ≡ 0 }
    requires idle { All (λ worker. worker.ends.items ≡ []) workers.old.items }
    requires begun { All (λ worker. W.served worker.work []) workers.old.items }
    ensures none { IfOk result (λ made. made.1.items ≡ []) }
    ensures room { IfOk result (λ made. vec_len workers.old ≤ vec_capacity made.1) }
    ensures len { vec_len workers.new ≡ vec_len workers.old }
    ensures idle { All (λ worker. worker.ends.items ≡ []) workers.new.items }
    ensures begun { All (λ worker. W.served worker.work []) workers.new.items }
    ensures ready { IfOk result (λ _. All (λ worker. 0 < vec_capacity worker.ends) workers.new.items) }
{
    take_rooms::<D, W>(workers)?;
    let seated = Vec::with_capacity(alloc, workers.len())?;
    let queues = ClosableQueues::make(alloc, queue_count, puts, takes)?;
    Ok((queues, seated))
}

/// Takes room for the first end of each worker, so that none ends before it has served. It fails only for want of memory.
fn take_rooms<D: Doors, W: LinkWork<D::Inlet, D::Outlet> + Drop>(
    workers: &mut Vec<LinkEnds<W, D::Kept, W::End>>,
) -> Result<(), AllocError>
    requires idle { All (λ worker. worker.ends.items ≡ []) workers.old.items }
    requires begun { All (λ worker. W.served worker.work []) workers.old.items }
    ensures len { vec_len workers.new ≡ vec_len workers.old }
    ensures idle { All (λ worker. worker.ends.items ≡ []) workers.new.items }
    ensures begun { All (λ worker. W.served worker.work []) workers.new.items }
    ensures ready { IfOk result (λ _. All (λ worker. 0 < vec_capacity worker.ends) workers.new.items) }
{
    for at in 0..workers.len() {
        workers[at].take_room()?;
    }
    Ok(())
}

/// Gives each worker a queue and a part of the book of what is taken.
fn seat_workers<D: Doors, W: LinkWork<D::Inlet, D::Outlet> + Drop, T: Ledger>(
    workers: &mut Vec<LinkEnds<W, D::Kept, W::End>>,
    seated: &mut Vec<LinkWorker<W, D::Kept, W::End, T>>,
    taken: &mut Share<T>,
)
    requires idle { All (λ worker. worker.ends.items ≡ []) workers.old.items }
    requires begun { All (λ worker. W.served worker.work []) workers.old.items }
    requires none { seated.old.items ≡ [] }
    requires room { vec_len workers.old ≤ vec_capacity seated.old }
    requires parts { vec_len workers.old ≤ taken.old.parts }
    requires amount { taken.old.amount ≡ 0 }
    ensures none { workers.new.items ≡ [] }
    ensures capacity { vec_capacity workers.new ≡ vec_capacity workers.old }
    ensures len { vec_len seated.new ≡ vec_len workers.old }
    ensures parts { taken.new.parts + vec_len seated.new ≡ taken.old.parts }
    ensures amount { taken.new.amount ≡ 0 }
    ensures served { All (λ worker. AllServed W.served D.shown worker.links.work worker.links.ends.items) seated.new.items }
{
    while let Some(links) = workers.pop() {
        seated.push_reserved(LinkWorker {
            links,
            share: taken.split_off(1, 0),
            queue: workers.len(),
        });
    }
}

/// Takes the workers' parts back.
fn unseat_workers<D: Doors, W: LinkWork<D::Inlet, D::Outlet> + Drop, T: Ledger>(
    workers: &mut Vec<LinkEnds<W, D::Kept, W::End>>,
    seated: &mut Vec<LinkWorker<W, D::Kept, W::End, T>>,
    taken: &mut Share<T>,
)
    requires none { workers.old.items ≡ [] }
    requires room { vec_len seated.old ≤ vec_capacity workers.old }
    requires amount { taken.old.amount ≡ 0 }
    requires served { All (λ worker. AllServed W.served D.shown worker.links.work worker.links.ends.items) seated.old.items }
    ensures len { vec_len workers.new ≡ vec_len seated.old }
    ensures parts { taken.new.parts ≡ taken.old.parts + vec_len seated.old }
    ensures amount { taken.new.amount ≡ sum_by (λ worker. length worker.ends.items) workers.new.items }
    ensures served { All (λ worker. AllServed W.served D.shown worker.work worker.ends.items) workers.new.items }
{
    while let Some(worker) = seated.pop() {
        let LinkWorker { links, share, .. } = worker;
        taken.merge(share);
        workers.push_reserved(links);
    }
}
