//! Two queues, one of which is fed and emptied on two threads, and the other one afterwards.
ghost use Rattle.std.specs.Prelude.{◌≡◌, ◌<◌};

use closable_queues::closable::ClosableQueues;
use closable_queues::queue_lists::QueueLists;
use std::alloc::{AllocError, Global};
use std::marker::Brand;
use std::sync::Wait;
use std::sync::ledger::{Blank, Ledger, Share};
use std::thread;
use std::thread::Threads;

/// Puts the numbers below 100, each in its turn, and closes the queues.
fn feed<P: Ledger, T: Ledger, R: Wait>(
    rt: &R,
    queues: &ClosableQueues<u64, P, T>,
    mine: Share<P>,
) -> Share<P>
    requires { 0 < mine.parts }
    ensures { result.parts ≡ mine.parts }
{
    let mut mine = mine;
    for number in 0..100 {
        if queues.put(rt, number, &mut mine, number).is_err() {
            break;
        }
    }
    queues.close(rt);
    mine
}

/// Adds up what comes to the first queue.
fn empty_first<P: Ledger, T: Ledger, R: Wait>(
    rt: &R,
    queues: &ClosableQueues<u64, P, T>,
    mine: Share<T>,
) -> (Share<T>, u64)
    requires { 0 < mine.parts }
    ensures { result.0.parts ≡ mine.parts }
{
    let mut mine = mine;
    let mut sum: u64 = 0;
    for _ in rt.forever() {
        let Some(number) = queues.take(rt, 0, &mut mine) else {
            break;
        };
        sum = sum.saturating_add(number);
    }
    (mine, sum)
}

/// Adds up what is left.
fn sum_left<P: Ledger, T: Ledger>(
    lists: QueueLists<u64, P, T>,
    put: Share<P>,
    taken: Share<T>,
) -> u64
    requires puts { put.parts ≡ P.parts }
    requires takes { taken.parts ≡ T.parts }
    requires some { 0 < taken.parts }
{
    let mut lists = lists;
    let mut put = put;
    let mut taken = taken;
    let mut sum: u64 = 0;
    for _ in 0..u64::MAX {
        let Some(number) = lists.take_left(&mut put, &mut taken) else {
            break;
        };
        sum = sum.saturating_add(number);
    }
    sum
}

/// What came to the first queue, and what was left, each added up.
fn both_sums<P: Ledger + Send + Sync, T: Ledger + Send + Sync, R: Threads + Wait + Sync>(
    rt: &R,
    alloc: Global,
    puts: Blank,
    takes: Blank,
) -> Result<(u64, u64), AllocError>
    requires puts_name { puts.name ≡ P.name }
    requires puts_parts { puts.parts ≡ P.parts }
    requires puts_one { puts.parts ≡ 1 }
    requires takes_name { takes.name ≡ T.name }
    requires takes_parts { takes.parts ≡ T.parts }
    requires takes_one { takes.parts ≡ 1 }
{
    let (puts, put) = puts.open::<P>();
    let (takes, taken) = takes.open::<T>();
    let queues = ClosableQueues::make(alloc, 2, puts, takes)?;
    let shared = &queues;
    let (put, (taken, first)) = thread::join(
        rt,
        move || feed(rt, shared, put),
        move || empty_first(rt, shared, taken),
    );
    Ok((first, sum_left(queues.into_lists(), put, taken)))
}

#[test]
fn each_number_is_taken_once(rt: HostRuntime) -> Result<(), AllocError> {
    let sums = both_sums::<Brand, Brand, HostRuntime>(
        &rt,
        rt.alloc(),
        Blank::new(1),
        Blank::new(1),
    )?;
    assert!(rt; sums == (2450, 2500));
    Ok(())
}
