//! Accepting connections, which go to queues in turn.
ghost use Rattle.std.specs.Prelude.{◌≡◌, ◌<◌, ◌≤◌, ◌+◌, ◌-◌, ◌^◌, min, true, IfOk, IfErr, MatchResult};
ghost use Rattle.link_acceptor.specs.Accepting.{AddsUp, AsksEach, LastAsk, lost_by, links_between, HasReason, IsHeeded, StillTells};

use crate::link::Link;
use closable_queues::closable::ClosableQueues;
use std::sync::Wait;
use std::sync::ledger::{Ledger, Share};
use tsd_doors::doors::Doors;
use tsd_io::halt::Halt;
use tsd_io::ports::Failed;

/// Why no more connections are accepted.
#[derive(Clone, Copy, Debug, PartialEq, Eq)]
pub enum AcceptEnd {
    /// No more come.
    NoneLeft,

    /// The halt refused to go on.
    Stopped,

    /// The doors failed.
    DoorFault,

    /// There was no memory for the connection that was accepted last, for what workers begin with, for the thread of a queue's only one or for a further end.
    OutOfMemory,
}

/// How many connections were accepted, and why no more are.
#[derive(Clone, Copy, Debug, PartialEq, Eq)]
pub struct Accepted {
    /// How many were accepted. It stands still at the last `u64`.
    pub links: u64,

    /// Why no more are.
    pub end: AcceptEnd,
}

/// Accepts connections, which go to the queues in turn, until no more come or there is a cause to stop, and closes the
/// queues. The halt is asked before each accept.
pub fn accept_links<R: Wait, D: Doors, H: Halt, P: Ledger, T: Ledger>(
    rt: &R,
    queues: &ClosableQueues<Link<D::Inlet, D::Outlet>, P, T>,
    doors: &mut D,
    halt: &mut H,
    share: &mut Share<P>,
) -> Accepted
    requires some { 0 < share.old.parts }
    ensures parts { share.new.parts ≡ share.old.parts }
    ensures adds_up { AddsUp (lost_by result.end) (D.counts doors.old) (D.counts doors.new) share.old.amount share.new.amount }
    ensures links { result.links ≡ links_between (D.counts doors.old) (D.counts doors.new) }
    ensures back { D.back doors.new ≡ D.back doors.old }
    ensures stops { H.stops halt.old ≤ H.stops halt.new }
    ensures faults { D.faults doors.old ≤ D.faults doors.new }
    ensures asked { AsksEach H.answers result.end ((D.counts doors.new).out - (D.counts doors.old).out) halt.old halt.new }
    ensures heeded { IsHeeded result.end (H.stops halt.old) (H.stops halt.new) }
    ensures reason { HasReason result.end (D.waiting doors.old) (D.waiting doors.new) (H.stops halt.old) (H.stops halt.new) (D.faults doors.old) (D.faults doors.new) }
{
    let accepted = accept_until_end(rt, queues, doors, halt, share);
    queues.close(rt);
    accepted
}

/// Accepts connections until no more come or there is a cause to stop.
fn accept_until_end<R: Wait, D: Doors, H: Halt, P: Ledger, T: Ledger>(
    rt: &R,
    queues: &ClosableQueues<Link<D::Inlet, D::Outlet>, P, T>,
    doors: &mut D,
    halt: &mut H,
    share: &mut Share<P>,
) -> Accepted
    requires some { 0 < share.old.parts }
    ensures parts { share.new.parts ≡ share.old.parts }
    ensures adds_up { AddsUp (lost_by result.end) (D.counts doors.old) (D.counts doors.new) share.old.amount share.new.amount }
    ensures links { result.links ≡ links_between (D.counts doors.old) (D.counts doors.new) }
    ensures back { D.back doors.new ≡ D.back doors.old }
    ensures stops { H.stops halt.old ≤ H.stops halt.new }
    ensures faults { D.faults doors.old ≤ D.faults doors.new }
    ensures asked { AsksEach H.answers result.end ((D.counts doors.new).out - (D.counts doors.old).out) halt.old halt.new }
    ensures heeded { IsHeeded result.end (H.stops halt.old) (H.stops halt.new) }
    ensures reason { HasReason result.end (D.waiting doors.old) (D.waiting doors.new) (H.stops halt.old) (H.stops halt.new) (D.faults doors.old) (D.faults doors.new) }
{
    let mut links: u64 = 0;
    for _ in rt.forever() {
        if let Err(end) = accept_link(rt, queues, doors, halt, share, links) {
            return after_links(links, end);
        }
        links = links.saturating_add(1);
    }
    unreachable!()
}

/// After so many that were put into the queues, this end. The one that there was no memory for was accepted too.
fn after_links(put: u64, end: AcceptEnd) -> Accepted
    ensures links { result.links ≡ min (put + lost_by end) (2 ^ 64 - 1) }
    ensures end { result.end ≡ end }
{
    let links = match end {
        AcceptEnd::OutOfMemory => put.saturating_add(1),
        AcceptEnd::NoneLeft | AcceptEnd::Stopped | AcceptEnd::DoorFault => put,
    };
    Accepted { links, end }
}

/// Accepts one connection, if the halt allows it, and puts it into the queue whose turn it is.
fn accept_link<R: Wait, D: Doors, H: Halt, P: Ledger, T: Ledger>(
    rt: &R,
    queues: &ClosableQueues<Link<D::Inlet, D::Outlet>, P, T>,
    doors: &mut D,
    halt: &mut H,
    share: &mut Share<P>,
    number: u64,
) -> Result<(), AcceptEnd>
    requires some { 0 < share.old.parts }
    ensures parts { share.new.parts ≡ share.old.parts }
    ensures adds_up { MatchResult result
        (λ _. AddsUp 0 (D.counts doors.old) (D.counts doors.new) share.old.amount share.new.amount)
        (λ end. AddsUp (lost_by end) (D.counts doors.old) (D.counts doors.new) share.old.amount share.new.amount) }
    ensures one { MatchResult result
        (λ _. (D.counts doors.new).out ≡ (D.counts doors.old).out + 1)
        (λ end. (D.counts doors.new).out ≡ (D.counts doors.old).out + lost_by end) }
    ensures back { D.back doors.new ≡ D.back doors.old }
    ensures stops { H.stops halt.old ≤ H.stops halt.new }
    ensures faults { D.faults doors.old ≤ D.faults doors.new }
    ensures tells { IfOk result (λ _. StillTells (D.waiting doors.old) (D.waiting doors.new)) }
    ensures asked { MatchResult result
        (λ _. H.answers halt.old true halt.new)
        (λ end. LastAsk H.answers end halt.old halt.new) }
    ensures heeded { MatchResult result
        (λ _. H.stops halt.new ≡ H.stops halt.old)
        (λ end. IsHeeded end (H.stops halt.old) (H.stops halt.new)) }
    ensures reason { IfErr result (λ end. HasReason end (D.waiting doors.old) (D.waiting doors.new) (H.stops halt.old) (H.stops halt.new) (D.faults doors.old) (D.faults doors.new)) }
{
    if !halt.may_step() {
        return Err(AcceptEnd::Stopped);
    }
    match doors.accept() {
        Ok(Some((inlet, outlet))) => { put_link(rt, queues, share, number, Link { inlet, outlet }) }
        Ok(None) => Err(AcceptEnd::NoneLeft),
        Err(Failed) => Err(AcceptEnd::DoorFault),
    }
}

/// Puts a connection into the queue whose turn it is.
fn put_link<R: Wait, X: Drop, P: Ledger, T: Ledger>(
    rt: &R,
    queues: &ClosableQueues<X, P, T>,
    share: &mut Share<P>,
    number: u64,
    link: X,
) -> Result<(), AcceptEnd>
    requires some { 0 < share.old.parts }
    ensures parts { share.new.parts ≡ share.old.parts }
    ensures moved { MatchResult result
        (λ _. share.new.amount ≡ share.old.amount + 1)
        (λ end. (end ≡ AcceptEnd.OutOfMemory) × (share.new.amount ≡ share.old.amount)) }
{
    match queues.put(rt, number, share, link) {
        Ok(()) => Ok(()),
        Err(_) => Err(AcceptEnd::OutOfMemory),
    }
}
