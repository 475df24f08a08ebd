//! The blocks of a file, one after the other.

use crate::run_cases;
use std::alloc::Global;
use std::sync::Wait;
use std::thread::Threads;
use test_readers::case_lines::{Block, Line, add};
use test_readers::readers::read;
use test_readers::report::Report;
use test_readers::text::Bad;
use test_readers::told::Told;
use test_stores::store_case;

/// Does a line that stands alone.
fn read_alone(alloc: Global, line: &Line<'_>, report: &mut Report) {
    let mut out = Told::of(alloc);
    let done = read(alloc, line.verb, line.rest, &mut out);
    report.settle(line, done, &out);
    report.end_case(line);
}

/// Whether one of the lines is a whole run.
fn has_run(lines: &[Line<'_>]) -> bool {
    for line in lines {
        if line.verb.starts_with("run") {
            return true;
        }
    }
    false
}

/// Does the lines of a case: whole runs, where there is one, or else calls over a store.
fn do_case<'a, T: Threads + Wait + Sync>(
    rt: &T,
    alloc: Global,
    setup: &[Line<'a>],
    lines: &[Line<'a>],
    head: &Line<'a>,
    report: &mut Report,
) -> Result<(), Bad> {
    if has_run(lines) {
        run_cases::case(rt, alloc, setup, lines, report);
        report.end_case(head);
        Ok(())
    } else {
        store_case::case(alloc, setup, lines, head, report)
    }
}

/// Does a block: `wrong` says that the cases from here on are to differ, `setup` begins lines that stand before those of each later
/// case, `case` begins a case, and else each line is one.
fn do_block<'a, T: Threads + Wait + Sync>(
    rt: &T,
    alloc: Global,
    setup: &mut Block<'a>,
    block: Block<'a>,
    report: &mut Report,
) -> Result<(), Bad> {
    let Some(head) = block.first() else {
        return Ok(());
    };
    match head.verb {
        "wrong" => report.expect_wrong(),
        "setup" => *setup = block,
        "case" => do_case(rt, alloc, setup.as_slice(), block.as_slice(), head, report)?,
        _ => {
            for line in block.as_slice() {
                read_alone(alloc, line, report);
            }
        }
    }
    Ok(())
}

/// Does the cases of a file, and reports what differs.
pub fn do_file<T: Threads + Wait + Sync>(
    rt: &T,
    alloc: Global,
    file: &str,
    text: &str,
) -> Result<Report, Bad> {
    let mut report = Report::of(alloc, file)?;
    let mut setup = Vec::new(alloc);
    let mut block = Vec::new(alloc);
    for (at, line) in text.lines().enumerate() {
        let line = line.trim();
        if line.is_empty() {
            let whole = std::mem::replace(&mut block, Vec::new(alloc));
            do_block(rt, alloc, &mut setup, whole, &mut report)?;
        } else {
            add(alloc, &mut block, at.saturating_add(1), line)?;
        }
    }
    do_block(rt, alloc, &mut setup, block, &mut report)?;
    report.text.end()?;
    Ok(report)
}
