//! The calls of caller 1 by the lines of a case.

use crate::case_roles::{Role, role_of};
use cell_model::Rows;
use compactor::Queue;
use std::alloc::Global;
use test_readers::case_lines::Line;
use test_readers::report::Report;
use test_readers::text::Bad;
use test_readers::told::Told;
use test_verbs::calls::{call, load};
use tsd_hooks::UidRule;
use uid_table::Uids;

/// Does a line that isn't the end's, and reports what differs.
fn do_line<R: Rows + Drop>(
    alloc: Global,
    names: &mut Uids<R>,
    rule: &UidRule,
    queue: &mut Queue,
    line: &Line<'_>,
    report: &mut Report,
) {
    match role_of(line.verb) {
        Role::Call => {
            let mut out = Told::of(alloc);
            let done = call(alloc, names, rule, queue, line.verb, line.rest, &mut out);
            report.settle(line, done, &out);
        }
        Role::Start if !line.wanted.is_empty() => report.refuse(line, "it gives no answer"),
        Role::Start | Role::Act(_) | Role::End => {}
    }
}

/// Makes the calls of the lines, and reports what differs.
fn make_calls<R: Rows + Drop>(
    alloc: Global,
    names: &mut Uids<R>,
    rule: &UidRule,
    lines: &[Line<'_>],
    report: &mut Report,
) {
    let mut queue = Queue::make(alloc);
    let mut ended = false;
    for line in lines {
        match role_of(line.verb) {
            Role::End => ended = true,
            Role::Call if ended => report.refuse(line, "a call behind the end"),
            _ => do_line(alloc, names, rule, &mut queue, line, report),
        }
    }
}

/// Puts the points with which the store is loaded.
fn load_all<R: Rows + Drop>(
    alloc: Global,
    names: &mut Uids<R>,
    rule: &UidRule,
    lines: &[Line<'_>],
) -> Result<(), Bad> {
    for line in lines {
        if line.verb == "load" {
            load(alloc, names, rule, line.rest)?;
        }
    }
    Ok(())
}

/// Which lines of a case are done.
#[derive(Clone, Copy, PartialEq, Eq)]
pub enum Stage {
    /// Those that load the store.
    Load,
    /// The calls of caller 1.
    Calls,
}

/// Does these lines with so many pairs of names and ids kept, if all before was done, and gives the rows back.
pub fn lines_over<R: Rows + Drop>(
    alloc: Global,
    rows: R,
    before: Result<(), Bad>,
    cap: u32,
    rule: &UidRule,
    stage: Stage,
    lines: &[Line<'_>],
    report: &mut Report,
) -> (R, Result<(), Bad>) {
    if before.is_err() {
        return (rows, before);
    }
    if cap < 1 || 1_000_000 < cap {
        return (rows, Err(Bad::Line("no number from 1 to 1000000")));
    }
    match Uids::over(alloc, rows, cap) {
        Ok(names) => {
            let mut names = names;
            let done = match stage {
                Stage::Load => load_all(alloc, &mut names, rule, lines),
                Stage::Calls => {
                    make_calls(alloc, &mut names, rule, lines, report);
                    Ok(())
                }
            };
            (names.part(), done)
        }
        Err((_error, rows)) => (rows, Err(Bad::OutOfMemory)),
    }
}
