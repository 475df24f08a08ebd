//! How many threads the system gives.
use std::rt::Clock;
use std::sync::{Mutex, Wait};
use std::thread;
use std::thread::Threads;
use std::time::Duration;

/// How long threads may take to end when they have nothing to do, in milliseconds.
const END_MILLIS: u64 = 50;

/// How many of so many threads the system gives at one time. They are made, and end again.
///
/// What `thread::join` can't make a thread for it calls behind the rest, and tells nobody. A fleet waits for connections first, so a
/// worker without a thread would serve nothing.
pub fn threads_given<R: Threads + Wait + Clock + Sync>(rt: &R, wanted: u32) -> u32 {
    let gate = Mutex::new(());
    let shared = &gate;
    let given = thread::scope(thread::scope_env(), rt, |scope| {
        let closed = shared.lock(rt);
        let mut given: u32 = 0;
        for _ in 0..wanted {
            if scope.spawn(move || drop(shared.lock(rt))).is_err() {
                break;
            }
            given = given.saturating_add(1);
        }
        drop(closed);
        given
    });
    thread::sleep(rt, Duration::from_millis(END_MILLIS));
    given
}
