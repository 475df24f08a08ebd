//! Cases that are data: reads files of cases, does them, and prints what differs from what they want.
#![tactic(auto)]

mod case;
mod mem_links;
mod run_cases;

use crate::case::do_file;
use std::process::ExitCode;
use std::sync::Wait;
use std::thread::Threads;
use std::{env, fs, io};
use test_readers::report::Report;
use test_readers::text::Bad;

/// How many cases there were, and how many of them weren't as wanted.
#[derive(Clone, Copy)]
struct Count {
    cases: u64,
    failed: u64,
}

/// Prints why a file isn't done, which counts as a case that isn't as wanted.
fn tell_undone(rt: &HostRuntime, file: &str, why: &str) -> io::Result<Count> {
    println!(rt; "{file}: {why}")?;
    Ok(Count {
        cases: 0,
        failed: 1,
    })
}

/// Prints what differs in the cases of a file.
fn tell_report(rt: &HostRuntime, file: &str, report: &Report) -> io::Result<Count> {
    let differing = report.text.text();
    let cases = report.cases;
    let wrong = if report.expects_wrong() { " wrong" } else { "" };
    print!(rt; "{differing}")?;
    println!(rt; "{file}: {cases}{wrong} cases")?;
    Ok(Count {
        cases,
        failed: report.failed,
    })
}

/// Does the cases of a file, and prints what differs.
fn check_file<T: Threads + Wait + Sync>(
    rt: &HostRuntime,
    threads: &T,
    file: &str,
) -> io::Result<Count> {
    let Ok(text) = fs::read_to_string(rt, file) else {
        return tell_undone(rt, file, "it can't be read");
    };
    match do_file(threads, rt.alloc(), file, text.as_str()) {
        Ok(report) => tell_report(rt, file, &report),
        Err(Bad::Line(why)) => tell_undone(rt, file, why),
        Err(Bad::OutOfMemory) => tell_undone(rt, file, "out of memory"),
    }
}

fn main(rt: HostRuntime) -> io::Result<ExitCode> {
    let mut cases = 0u64;
    let mut failed = 0u64;
    for file in env::args(&rt)?.skip(1) {
        let count = check_file(&rt, &rt, file.as_str())?;
        cases = cases.saturating_add(count.cases);
        failed = failed.saturating_add(count.failed);
    }
    if failed == 0 {
        println!(rt; "{cases} cases, each as wanted")?;
        Ok(ExitCode::SUCCESS)
    } else {
        println!(rt; "{cases} cases, {failed} not as wanted")?;
        Ok(ExitCode::FAILURE)
    }
}
