//! The lists of several queues, and how many were put and taken.
ghost use Rattle.std.specs.Prelude.{◌≡◌, ◌<◌, ◌≤◌, ◌+◌, length, IfNone, IfOk, MatchResult, MatchOption};
ghost use Rattle.std.specs.List.{sum_by};
ghost use Rattle.std.specs.VecDeque.{deque_len};

use std::alloc::{AllocError, AllocFailed, Global};
use std::collections::VecDeque;
use std::sync::ledger::{Book, Ledger, Share};

/// The lists of several queues, in order of coming, each open or all closed.
///
/// The two books count what was put into them and what was taken out of them: what was put was taken or is left.
#[derive(Drop)]
pub struct QueueLists<X: Drop, P: Ledger, T: Ledger> {
    lists: Vec<VecDeque<X>>,
    puts: Book<P>,
    takes: Book<T>,
    closed: bool,
    begun: Vec<bool>,
    ghost counted: { puts.total ≡ takes.total + sum_by deque_len lists.items },
}

impl<X: Drop, P: Ledger, T: Ledger> QueueLists<X, P, T> {
    /// So many lists, which are empty and open.
    pub fn make(
        alloc: Global,
        count: usize,
        puts: Book<P>,
        takes: Book<T>,
    ) -> Result<QueueLists<X, P, T>, AllocError>
        requires puts { puts.total ≡ 0 }
        requires takes { takes.total ≡ 0 }
    {
        let lists = empty_lists(alloc, count)?;
        let mut begun = Vec::new(alloc);
        begun.resize(count, false)?;
        Ok(QueueLists {
            lists,
            puts,
            takes,
            closed: false,
            begun,
        })
    }

    /// Puts one at the end of the list at this place. Where there is no memory, or no such list, or they are closed, it comes back.
    pub fn put(&mut self, at: usize, mine: &mut Share<P>, x: X) -> Result<(), X>
        requires some { 0 < mine.old.parts }
        ensures moved { MatchResult result (λ _. mine.new.amount ≡ mine.old.amount + 1)
            (λ back. (back ≡ x) × (mine.new.amount ≡ mine.old.amount)) }
        ensures parts { mine.new.parts ≡ mine.old.parts }
    {
        if at >= self.lists.len() || self.closed {
            return Err(x);
        }
        match push_at(&mut self.lists, at, x) {
            Ok(()) => {
                self.puts.add(mine, 1);
                Ok(())
            }
            Err(back) => Err(back),
        }
    }

    /// Takes the first of the list at this place.
    pub fn take(&mut self, at: usize, mine: &mut Share<T>) -> Option<X>
        requires some { 0 < mine.old.parts }
        ensures moved { MatchOption result (mine.new.amount ≡ mine.old.amount)
            (λ _. mine.new.amount ≡ mine.old.amount + 1) }
        ensures parts { mine.new.parts ≡ mine.old.parts }
    {
        if at >= self.lists.len() {
            return None;
        }
        let first = pop_at(&mut self.lists, at);
        if first.is_some() {
            self.takes.add(mine, 1);
        }
        first
    }

    /// Takes one that is left in any list, with every part of both books. Where none is left, as many were taken as were put.
    ///
    /// Lists that are found empty are gone afterwards, so this is for when nothing more is put.
    pub fn take_left(&mut self, put: &mut Share<P>, mine: &mut Share<T>) -> Option<X>
        requires puts { put.old.parts ≡ P.parts }
        requires takes { mine.old.parts ≡ T.parts }
        requires some { 0 < mine.old.parts }
        ensures none { IfNone result (mine.new.amount ≡ put.new.amount) }
        ensures moved { MatchOption result (mine.new.amount ≡ mine.old.amount)
            (λ _. mine.new.amount ≡ mine.old.amount + 1) }
        ensures put { put.new.amount ≡ put.old.amount }
        ensures put_parts { put.new.parts ≡ put.old.parts }
        ensures parts { mine.new.parts ≡ mine.old.parts }
    {
        let first = pop_any(&mut self.lists);
        if first.is_some() {
            self.takes.add(mine, 1);
        }
        self.puts.audit(put);
        self.takes.audit(mine);
        first
    }

    /// Changes nothing, and tells who has every part of both books that no more were taken than were put.
    pub fn audit(&mut self, put: &mut Share<P>, mine: &mut Share<T>)
        requires puts { put.old.parts ≡ P.parts }
        requires takes { mine.old.parts ≡ T.parts }
        ensures few { mine.new.amount ≤ put.new.amount }
        ensures put { put.new.amount ≡ put.old.amount }
        ensures mine { mine.new.amount ≡ mine.old.amount }
        ensures put_parts { put.new.parts ≡ put.old.parts }
        ensures parts { mine.new.parts ≡ mine.old.parts }
    {
        self.puts.audit(put);
        self.takes.audit(mine);
    }

    /// Whether a taker of the list at this place has to wait: it is empty, and more may come.
    pub fn must_wait(&self, at: usize) -> bool {
        match self.lists.get(at) {
            Some(list) => list.is_empty() && !self.closed,
            None => false,
        }
    }

    /// Whether the lists are closed.
    pub fn is_closed(&self) -> bool {
        self.closed
    }

    /// Notes that a taker of the list at this place has begun.
    pub fn begin(&mut self, at: usize) {
        if let Some(begun) = self.begun.get_mut(at) {
            *begun = true;
        }
    }

    /// Whether a taker of each of so many lists, from the first, has begun.
    pub fn have_begun(&self, count: usize) -> bool {
        for begun in self.begun.iter().take(count) {
            if !*begun {
                return false;
            }
        }
        true
    }

    /// Closes all lists: no taker waits any more.
    pub fn close(&mut self) {
        self.closed = true;
    }
}

/// So many lists with nothing in them.
fn empty_lists<X: Drop>(alloc: Global, count: usize) -> Result<Vec<VecDeque<X>>, AllocError>
    ensures { IfOk result (λ lists. sum_by deque_len lists.items ≡ 0) }
{
    let mut lists = Vec::with_capacity(alloc, count)?;
    for _ in 0..count {
        lists.push(VecDeque::new(alloc))?;
    }
    Ok(lists)
}

/// Puts one at the end of the list at this place. Where there is no memory it comes back.
fn push_at<X: Drop>(lists: &mut Vec<VecDeque<X>>, at: usize, x: X) -> Result<(), X>
    requires { at < length lists.old.items }
    ensures { MatchResult result
        (λ _. sum_by deque_len lists.new.items ≡ sum_by deque_len lists.old.items + 1)
        (λ back. (back ≡ x) × (sum_by deque_len lists.new.items ≡ sum_by deque_len lists.old.items)) }
{
    let list = &mut lists[at];
    match list.push_back(x) {
        Ok(()) => Ok(()),
        Err(AllocFailed { value, .. }) => Err(value),
    }
}

/// Takes the first of the list at this place.
fn pop_at<X: Drop>(lists: &mut Vec<VecDeque<X>>, at: usize) -> Option<X>
    requires { at < length lists.old.items }
    ensures { MatchOption result
        (sum_by deque_len lists.new.items ≡ sum_by deque_len lists.old.items)
        (λ _. sum_by deque_len lists.new.items + 1 ≡ sum_by deque_len lists.old.items) }
{
    let list = &mut lists[at];
    list.pop_front()
}

/// Takes the first of the last list that has one. The empty lists behind it are gone.
fn pop_any<X: Drop>(lists: &mut Vec<VecDeque<X>>) -> Option<X>
    ensures { MatchOption result
        ((sum_by deque_len lists.new.items ≡ 0) × (sum_by deque_len lists.old.items ≡ 0))
        (λ _. sum_by deque_len lists.new.items + 1 ≡ sum_by deque_len lists.old.items) }
{
    while let Some(mut list) = lists.pop() {
        if let Some(first) = list.pop_front() {
            lists.push_reserved(list);
            return Some(first);
        }
    }
    None
}
