//! Compaction workers on threads of their own, beside what else the caller does.
ghost use Rattle.std.specs.Prelude.{◌≡◌, vec_len};
ghost use Rattle.std.specs.Fork.{AcceptsEach};

use crate::row_compactor::{RowCompactor, compact_rows};
use cell_model::rows::Rows;
use std::sync::Wait;
use std::thread;
use std::thread::Threads;
use tsd_io::clock::Clock;

/// Calls a function on this thread, while each of the workers compacts the rows that are sent to it, on a thread of its own.
pub fn compact_beside<
    R: Rows + Drop + Send,
    C: Clock + Drop + Send,
    T: Threads + Wait + Sync,
    E: FnMut() -> A,
    A,
>(rt: &T, compactors: &mut Vec<RowCompactor<R, C>>, serve: &mut E) -> A
    requires serves { E.pre serve.old }
    ensures len { vec_len compactors.new ≡ vec_len compactors.old }
    ensures serves { E.step serve.old result serve.new }
{
    call_beside(
        rt,
        compactors,
        &|_, compactor: &mut RowCompactor<R, C>| compact_rows(rt, compactor),
        serve,
    )
}

/// Calls a function on this thread, and another with each of these, each on a thread of its own.
fn call_beside<T: Threads + Sync, S: Send, F: Fn(usize, &mut S) + Sync, E: FnMut() -> A, A>(
    rt: &T,
    compactors: &mut Vec<S>,
    compact: &F,
    serve: &mut E,
) -> A
    requires accepts { AcceptsEach F.Fn compact.now compactors.old.items }
    requires serves { E.pre serve.old }
    ensures len { vec_len compactors.new ≡ vec_len compactors.old }
    ensures serves { E.step serve.old result serve.new }
{
    let (_, served) = thread::join_mut(
        rt,
        &mut ||
            requires { AcceptsEach F.Fn compact.now compactors.now.items }
        { compact_each(rt, compactors, compact) },
        serve,
    );
    served
}

/// Calls a function with each of these, each on a thread of its own.
fn compact_each<T: Threads + Sync, S: Send, F: Fn(usize, &mut S) + Sync>(
    rt: &T,
    compactors: &mut Vec<S>,
    compact: &F,
)
    requires { AcceptsEach F.Fn compact.now compactors.old.items }
    ensures { vec_len compactors.new ≡ vec_len compactors.old }
{
    let count = compactors.len().max(1);
    thread::for_each_mut(rt, compactors, count, compact);
}
