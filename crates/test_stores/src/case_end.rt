//! What is left at the end of a case, and what differs in it.

use crate::case_base::table;
use crate::case_roles::{Role, role_of};
use cell_model::{Body, ListLine, Listing, Tally};
use cell_region::Regions;
use row_key::Table;
use std::alloc::{AllocError, Global};
use test_readers::case_lines::Line;
use test_readers::report::Report;
use test_readers::text::{Bad, first_word, hex};
use test_readers::told::Told;
use test_rows::act::Acted;
use test_rows::script::Part;
use test_rows::scripted::Scripted;
use test_rows::sharing::Shared;
use test_verbs::acts::tell_acted;

/// How many entries each of four callers made.
pub type Steps = [u64; 4];

/// What is left of a store.
#[derive(Drop)]
struct Left {
    steps: Steps,
    tally: Tally,
    listing: Listing,
}

/// How many entries each caller made.
pub fn entries(shared: &Shared) -> Steps {
    [
        shared.entries(1),
        shared.entries(2),
        shared.entries(3),
        shared.entries(4),
    ]
}

/// How many of the last entries came behind the first ones.
fn made(first: Steps, last: Steps) -> Steps {
    let mut made = last;
    for at in 0..4 {
        made[at] = last[at].saturating_sub(first[at]);
    }
    made
}

/// What callers leave, at the start of which each had made so many entries. The store is split and joined again before.
fn left_of(alloc: Global, shared: Shared, first: Steps) -> Result<Left, AllocError> {
    let steps = made(first, entries(&shared));
    let body = Regions::joined(shared.part().split());
    let tally = body.tally();
    let listing = body.listing(alloc)?;
    Ok(Left {
        steps,
        tally,
        listing,
    })
}

/// Reports what another caller was answered, where that isn't what is wanted. A step for which nothing is wanted is to be made.
fn report_act(alloc: Global, line: &Line<'_>, part: &Part, report: &mut Report) {
    match part.acted() {
        None => report.refuse(line, "not done"),
        Some(Acted::NotAllowed) if line.wanted.is_empty() => report.refuse(line, "not allowed"),
        Some(Acted::NoRoom) if line.wanted.is_empty() => report.refuse(line, "no room"),
        Some(_) if line.wanted.is_empty() => {}
        Some(acted) => {
            let mut out = Told::of(alloc);
            tell_acted(&mut out, acted);
            report.compare(line, &out);
        }
    }
}

/// The same of all.
fn report_acts(alloc: Global, lines: &[Line<'_>], parts: &[Part], report: &mut Report) {
    let mut at = 0;
    for line in lines {
        if let Role::Act(_) = role_of(line.verb) {
            if at < parts.len() {
                report_act(alloc, line, &parts[at], report);
                at += 1;
            }
        }
    }
}

/// Adds a line of a listing.
fn tell_line(out: &mut Told, line: &ListLine) {
    out.add(match line.table {
        Table::Ids => "ids ",
        Table::Names => "names ",
        Table::Points => "points ",
    });
    out.hex(line.row.list());
    out.add(" ");
    out.hex(line.qual.list());
    out.add(" ");
    out.hex(line.value.list());
    out.add("\n");
}

/// Whether a line is of the table and of the row, where these are asked for.
fn is_listed(line: &ListLine, asked: Option<Table>, row: &[u8]) -> bool {
    let in_table = match asked {
        Some(table) => line.table == table,
        None => true,
    };
    in_table && (row.is_empty() || line.row.list() == row)
}

/// `list [TABLE [ROW]]`: the cells of the store, of the table or of the row.
fn list(alloc: Global, listing: &Listing, text: &str, out: &mut Told) -> Result<(), Bad> {
    let (word, digits) = first_word(text);
    let row = hex(alloc, digits)?;
    let asked = if word.is_empty() {
        None
    } else {
        Some(table(word)?)
    };
    for line in listing.lines() {
        if is_listed(line, asked, row.as_slice()) {
            tell_line(out, line);
        }
    }
    Ok(())
}

/// Adds the counters, and the numbers of point rows and of their cells.
fn tell_tally(out: &mut Told, tally: &Tally) {
    let [metrics, keys, values] = tally.ids;
    tell_count(out, "ids ", metrics);
    tell_count(out, " ", keys);
    tell_count(out, " ", values);
    tell_count(out, " rows ", tally.point_rows);
    tell_count(out, " cells ", tally.point_cells);
}

/// Adds a number behind a text.
fn tell_count(out: &mut Told, before: &str, count: u64) {
    out.add(before);
    out.number(count);
}

/// `steps N`: how many entries this caller made.
fn tell_steps(out: &mut Told, steps: &Steps, caller: &str) -> Result<(), Bad> {
    let steps = match caller {
        "1" => steps[0],
        "2" => steps[1],
        "3" => steps[2],
        "4" => steps[3],
        _ => return Err(Bad::Line("no caller")),
    };
    out.number(steps);
    Ok(())
}

/// Adds what a line asks for at the end.
fn tell_end(alloc: Global, left: &Left, line: &Line<'_>, out: &mut Told) -> Result<(), Bad> {
    match line.verb {
        "steps" => tell_steps(out, &left.steps, line.rest),
        "tally" => {
            tell_tally(out, &left.tally);
            Ok(())
        }
        _ => list(alloc, &left.listing, line.rest, out),
    }
}

/// Reports what differs in what is left.
fn report_left(alloc: Global, lines: &[Line<'_>], left: &Left, report: &mut Report) {
    for line in lines {
        if role_of(line.verb) == Role::End {
            let mut out = Told::of(alloc);
            let done = tell_end(alloc, left, line, &mut out);
            report.settle(line, done, &out);
        }
    }
}

/// The same of callers, at the start of which each had made so many entries.
fn report_store(
    alloc: Global,
    lines: &[Line<'_>],
    shared: Shared,
    first: Steps,
    report: &mut Report,
) -> Result<(), Bad> {
    match left_of(alloc, shared, first) {
        Ok(left) => {
            report_left(alloc, lines, &left, report);
            Ok(())
        }
        Err(AllocError) => Err(Bad::OutOfMemory),
    }
}

/// Lets the others make the steps that are left of them, and reports what differs.
pub fn end(
    alloc: Global,
    rows: Scripted,
    first: Steps,
    lines: &[Line<'_>],
    report: &mut Report,
) -> Result<(), Bad> {
    let (shared, script, finished) = rows.end();
    report_acts(alloc, lines, script.parts(), report);
    let ended = report_store(alloc, lines, shared, first, report);
    finished?;
    ended
}
