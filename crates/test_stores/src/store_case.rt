//! Cases over a store with several callers.
ghost use Rattle.std.specs.Prelude.{◌≡◌};
ghost use Rattle.tsd_hooks.specs.AllowedNames.{allowed};

use crate::case_base::based;
use crate::case_calls::{Stage, lines_over};
use crate::case_end::{end, entries};
use crate::case_patterns::patterns_of;
use crate::case_roles::{cap_of, script_of, stops_of};
use lone_store::Fused;
use std::alloc::Global;
use test_readers::case_lines::{Line, joined};
use test_readers::report::Report;
use test_readers::text::Bad;
use test_rows::script::Script;
use test_rows::scripted::Scripted;
use test_rows::sharing::Shared;
use tsd_base::kinds::Kind;
use tsd_base::names::Name;
use tsd_hooks::UidRule;
use tsd_io::halt::MemHalt;

/// What a case begins with.
struct Opening {
    cap: u32,
    halt: MemHalt,
    shared: Shared,
}

/// What the case of these lines begins with.
fn opening_of(alloc: Global, lines: &[Line<'_>]) -> Result<Opening, Bad> {
    let cap = cap_of(lines)?;
    let halt = MemHalt::make(stops_of(alloc, lines)?);
    let shared = based(alloc, lines)?;
    Ok(Opening { cap, halt, shared })
}

/// Does the lines of a case once by a rule for new names, and reports what differs.
fn play(
    alloc: Global,
    lines: &[Line<'_>],
    opening: Opening,
    rule: &UidRule,
    script: Script,
    report: &mut Report,
) -> Result<(), Bad> {
    let Opening { cap, halt, shared } = opening;
    let rows = Scripted::of(alloc, shared);
    let (rows, loaded) = lines_over(alloc, rows, Ok(()), 1, rule, Stage::Load, lines, report);
    let mut rows = rows;
    let first = entries(rows.shared());
    rows.begin(script);
    let fused = Fused::make(rows, halt);
    let (fused, called) = lines_over(alloc, fused, loaded, cap, rule, Stage::Calls, lines, report);
    let (rows, _halt) = fused.part();
    let ended = end(alloc, rows, first, lines, report);
    called?;
    ended
}

/// The same in the order of these digits, or as the lines stand.
fn play_ordered(
    alloc: Global,
    setup: &[Line<'_>],
    lines: &[Line<'_>],
    digits: Option<&str>,
    all: &[Line<'_>],
    rule: &UidRule,
    report: &mut Report,
) -> Result<(), Bad> {
    let script = script_of(alloc, setup, lines, digits, all)?;
    match opening_of(alloc, all) {
        Ok(opening) => play(alloc, all, opening, rule, script, report),
        Err(bad) => Err(bad),
    }
}

/// The same by the rule of all lines, those of the setup first.
fn begin(
    alloc: Global,
    setup: &[Line<'_>],
    lines: &[Line<'_>],
    digits: Option<&str>,
    all: &[Line<'_>],
    report: &mut Report,
) -> Result<(), Bad> {
    let patterns = patterns_of(alloc, all)?;
    let kept = patterns.again(alloc)?;
    let test = Box::new(
        alloc,
        move |kind: Kind, name: &Name|
            ensures { result ≡ allowed patterns kind name.now }
        { patterns.allow(kind, name) },
    )?;
    let rule = UidRule::keep(kept, test);
    play_ordered(alloc, setup, lines, digits, all, &rule, report)
}

/// The same, which ends the case, that begins with `head`. What can't be begun is reported there.
fn once(
    alloc: Global,
    setup: &[Line<'_>],
    lines: &[Line<'_>],
    digits: Option<&str>,
    all: &[Line<'_>],
    head: &Line<'_>,
    report: &mut Report,
) -> Result<(), Bad> {
    report.in_order(digits);
    match begin(alloc, setup, lines, digits, all, report) {
        Ok(()) => {}
        Err(Bad::Line(why)) => report.refuse(head, why),
        Err(Bad::OutOfMemory) => return Err(Bad::OutOfMemory),
    }
    report.end_case(head);
    Ok(())
}

/// Does the lines of a case, once for each of its orders.
pub fn case<'a>(
    alloc: Global,
    setup: &[Line<'a>],
    lines: &[Line<'a>],
    head: &Line<'a>,
    report: &mut Report,
) -> Result<(), Bad> {
    let all = joined(alloc, setup, lines)?;
    let all = all.as_slice();
    let mut ordered = false;
    for line in lines {
        if line.verb == "order" {
            ordered = true;
            for digits in line.rest.split_ascii_whitespace() {
                once(alloc, setup, lines, Some(digits), all, head, report)?;
            }
        }
    }
    if ordered {
        Ok(())
    } else {
        once(alloc, setup, lines, None, all, head, report)
    }
}
