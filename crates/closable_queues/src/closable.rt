//! Queues under one lock that wait and can be closed.
ghost use Rattle.std.specs.Prelude.{◌≡◌, ◌<◌, ◌+◌, length, IfOk, MatchResult, MatchOption};

use crate::queue_lists::QueueLists;
use std::alloc::{AllocError, Global};
use std::sync::ledger::{Book, Ledger, Share};
use std::sync::{Condvar, Mutex, Wait};

/// Several queues under one lock, whose takers wait until something comes or the queues are closed.
///
/// Two books count over all queues: as many were put as were taken and are left, whenever the lock is free. So whoever has
/// all shares of both, once no other thread has the queues, knows that nothing was lost ([`QueueLists::take_left`]).
#[derive(Drop)]
pub struct ClosableQueues<X: Drop, P: Ledger, T: Ledger> {
    lists: Mutex<QueueLists<X, P, T>>,
    arrivals: Vec<Condvar>,
    ghost some: { 0 < length arrivals.items },
}

impl<X: Drop, P: Ledger, T: Ledger> ClosableQueues<X, P, T> {
    /// So many queues, which are empty and open, and whose books are new.
    pub fn make(
        alloc: Global,
        count: usize,
        puts: Book<P>,
        takes: Book<T>,
    ) -> Result<ClosableQueues<X, P, T>, AllocError>
        requires some { 0 < count }
        requires puts { puts.total ≡ 0 }
        requires takes { takes.total ≡ 0 }
    {
        let lists = Mutex::new(QueueLists::make(alloc, count, puts, takes)?);
        let arrivals = new_signals(alloc, count)?;
        Ok(ClosableQueues { lists, arrivals })
    }

    /// Puts the one with this number, from 0, at the end of the queue whose turn it is, and wakes one that waits there.
    /// Where there is no memory, or the queues are closed, it comes back.
    pub fn put<R: Wait>(&self, rt: &R, number: u64, mine: &mut Share<P>, x: X) -> Result<(), X>
        requires some { 0 < mine.old.parts }
        ensures moved { MatchResult result (λ _. mine.new.amount ≡ mine.old.amount + 1)
            (λ back. (back ≡ x) × (mine.new.amount ≡ mine.old.amount)) }
        ensures parts { mine.new.parts ≡ mine.old.parts }
    {
        let at = (number % self.arrivals.len() as u64) as usize;
        let put = self.lists.lock(rt).put(at, mine, x);
        self.arrivals[at].notify_one();
        put
    }

    /// Waits until the queue with this number, from 0, has one, and takes the first. None says that the queues were closed
    /// and this one was empty.
    pub fn take<R: Wait>(&self, rt: &R, queue: usize, mine: &mut Share<T>) -> Option<X>
        requires some { 0 < mine.old.parts }
        ensures moved { MatchOption result (mine.new.amount ≡ mine.old.amount)
            (λ _. mine.new.amount ≡ mine.old.amount + 1) }
        ensures parts { mine.new.parts ≡ mine.old.parts }
    {
        let at = queue % self.arrivals.len();
        let mut lists = self.arrivals[at].wait_while(rt, self.lists.lock(rt), |lists| {
            lists.must_wait(at)
        });
        lists.take(at, mine)
    }

    /// Waits until the queue with this number, from 0, has one or the queues are closed. False says that they are closed.
    pub fn wait<R: Wait>(&self, rt: &R, queue: usize) -> bool {
        let at = queue % self.arrivals.len();
        let lists = self.arrivals[at].wait_while(rt, self.lists.lock(rt), |lists| {
            lists.must_wait(at)
        });
        !lists.is_closed()
    }

    /// Tells that a taker of the queue with this number, from 0, has begun.
    pub fn begin<R: Wait>(&self, rt: &R, queue: usize) {
        let at = queue % self.arrivals.len();
        self.lists.lock(rt).begin(at);
    }

    /// Whether a taker of each of so many queues, from the first, has begun.
    pub fn have_begun<R: Wait>(&self, rt: &R, count: usize) -> bool {
        self.lists.lock(rt).have_begun(count)
    }

    /// Closes the queues and wakes all that wait.
    pub fn close<R: Wait>(&self, rt: &R) {
        self.lists.lock(rt).close();
        for arrival in &self.arrivals {
            arrival.notify_all();
        }
    }

    /// The lists, once no other thread has the queues.
    pub fn into_lists(self) -> QueueLists<X, P, T> {
        self.lists.into_inner()
    }
}

/// So many condition variables.
fn new_signals(alloc: Global, count: usize) -> Result<Vec<Condvar>, AllocError>
    ensures { IfOk result (λ signals. length signals.items ≡ count) }
{
    let mut signals = Vec::with_capacity(alloc, count)?;
    for _made in 0..count {
        signals.push(Condvar::new())?;
    }
    Ok(signals)
}
