//! Calls over a store: ids, puts, scans, queries and compactions, made by caller 1.

use crate::acts::{point, tell_found};
use crate::asks::asked;
use crate::compactions;
use cell_model::{Row, Rows, RowsFault};
use compactor::Queue;
use point_put::{Config, PutFault, TextFault, put, put_text};
use row_scan::Scan;
use std::alloc::Global;
use test_readers::text::{Bad, bytes, first_word, kind, name, small};
use test_readers::told::Told;
use tsd_base::kinds::Kind;
use tsd_base::names::Name;
use tsd_hooks::UidRule;
use uid_table::{AssignFault, Assigned, ResolveFault, Uids};

/// How many rows a scan tells at most.
const MOST_ROWS: u32 = 1000;

/// Adds how a name has an id.
fn tell_assigned(out: &mut Told, answer: Assigned) {
    match answer {
        Assigned::Fresh { id } => tell_id(out, "fresh ", id),
        Assigned::Existing { id } => tell_id(out, "existing ", id),
        Assigned::Lost { wasted, id } => {
            tell_id(out, "lost ", wasted);
            tell_id(out, " ", id);
        }
    }
}

/// Adds an id behind a text.
fn tell_id(out: &mut Told, before: &str, id: u32) {
    out.add(before);
    out.number(u64::from(id));
}

/// Adds a kind between two texts.
fn tell_kind(out: &mut Told, before: &str, kind: Kind, behind: &str) {
    out.add(before);
    out.add(kind.text());
    out.add(behind);
}

/// Adds why a name has no id.
fn tell_assign_fault(out: &mut Told, fault: AssignFault) {
    match fault {
        AssignFault::Filtered { kind } => tell_kind(out, "filtered ", kind, ""),
        AssignFault::Exhausted { kind } => tell_kind(out, "ids of ", kind, " are exhausted"),
        AssignFault::OutOfMemory => out.lose(),
        AssignFault::Stopped => out.add("stopped"),
    }
}

/// `assign KIND NAME`: how the name has an id, or why it has none.
fn assign<R: Rows + Drop>(
    alloc: Global,
    names: &mut Uids<R>,
    rule: &UidRule,
    text: &str,
    out: &mut Told,
) -> Result<(), Bad> {
    let (kind_word, word) = first_word(text);
    let kind = kind(kind_word)?;
    let name = name(alloc, word)?;
    match names.assign(alloc, rule, kind, &name) {
        Ok(answer) => tell_assigned(out, answer),
        Err(fault) => tell_assign_fault(out, fault),
    }
    Ok(())
}

/// The id of a name, and the name of that id.
fn there_and_back<R: Rows + Drop>(
    alloc: Global,
    names: &mut Uids<R>,
    kind: Kind,
    name: &Name,
) -> Result<(u32, Name), ResolveFault> {
    let id = names.resolve(alloc, kind, name)?;
    match names.name_of(alloc, kind, id) {
        Ok(back) => Ok((id, back)),
        Err(RowsFault::OutOfMemory) => Err(ResolveFault::OutOfMemory),
        Err(RowsFault::Stopped) => Err(ResolveFault::Stopped),
    }
}

/// `resolve KIND NAME`: its id, and the name of that id.
fn resolve<R: Rows + Drop>(
    alloc: Global,
    names: &mut Uids<R>,
    text: &str,
    out: &mut Told,
) -> Result<(), Bad> {
    let (kind_word, word) = first_word(text);
    let kind = kind(kind_word)?;
    let name = name(alloc, word)?;
    match there_and_back(alloc, names, kind, &name) {
        Ok((id, back)) => {
            tell_id(out, "", id);
            out.add(" ");
            out.bytes(back.bytes());
        }
        Err(ResolveFault::Unknown { kind }) => tell_kind(out, "unknown ", kind, ""),
        Err(ResolveFault::OutOfMemory) => out.lose(),
        Err(ResolveFault::Stopped) => out.add("stopped"),
    }
    Ok(())
}

/// `suggest KIND MAX [PREFIX]`: the names.
fn suggest<R: Rows + Drop>(
    alloc: Global,
    names: &mut Uids<R>,
    text: &str,
    out: &mut Told,
) -> Result<(), Bad> {
    let (kind_word, text) = first_word(text);
    let (max, prefix) = first_word(text);
    let kind = kind(kind_word)?;
    let max = small(max)?;
    if max < 1 || 10_000 < max {
        return Err(Bad::Line("no number from 1 to 10000"));
    }
    let prefix = bytes(alloc, prefix)?;
    match names.suggest(alloc, kind, prefix.as_slice(), max) {
        Ok(list) => tell_list(out, list.as_slice()),
        Err(fault) => tell_rows_fault(out, fault),
    }
    Ok(())
}

/// Adds names, each before a space.
fn tell_list(out: &mut Told, list: &[Name]) {
    if list.is_empty() {
        out.add("(none)");
    }
    for name in list {
        out.bytes(name.bytes());
        out.add(" ");
    }
}

/// Adds why rows couldn't be read or changed.
pub fn tell_rows_fault(out: &mut Told, fault: RowsFault) {
    match fault {
        RowsFault::OutOfMemory => out.lose(),
        RowsFault::Stopped => out.add("stopped"),
    }
}

/// How a point is put, and the line, of `[--auto-metric] [--appends] LINE`.
fn config_and_line(text: &str) -> (Config, &str) {
    let mut config = Config::usual();
    let text = match text.strip_prefix("--auto-metric ") {
        Some(rest) => {
            config.auto_metric = true;
            rest
        }
        None => text,
    };
    match text.strip_prefix("--appends ") {
        Some(line) => {
            config.appends = true;
            (config, line)
        }
        None => (config, text),
    }
}

fn tell_stored(out: &mut Told, base: u32, row: &Row) {
    out.number(u64::from(base));
    out.add(" ");
    out.hex(row.bytes.list());
}

/// Puts the point of a line, tells its row or why it isn't put, and answers whether it is.
fn put_by<R: Rows + Drop>(
    alloc: Global,
    names: &mut Uids<R>,
    rule: &UidRule,
    config: &Config,
    line: &str,
    out: &mut Told,
) -> Result<bool, Bad> {
    let point = point(alloc, line)?;
    match put(alloc, names, rule, config, &point) {
        Ok(stored) => {
            tell_stored(out, stored.base, &stored.row);
            Ok(true)
        }
        Err(fault) => {
            tell_put_fault(alloc, out, &fault)?;
            Ok(false)
        }
    }
}

/// `load LINE`: puts a point before the case, each of its names being given an id.
pub fn load<R: Rows + Drop>(
    alloc: Global,
    names: &mut Uids<R>,
    rule: &UidRule,
    text: &str,
) -> Result<(), Bad> {
    let mut config = Config::usual();
    config.auto_metric = true;
    let mut out = Told::of(alloc);
    if put_by(alloc, names, rule, &config, text, &mut out)? {
        Ok(())
    } else {
        Err(Bad::Line("not put"))
    }
}

/// `put [--auto-metric] [--appends] LINE`: the row of the point.
fn put_line<R: Rows + Drop>(
    alloc: Global,
    names: &mut Uids<R>,
    rule: &UidRule,
    text: &str,
    out: &mut Told,
) -> Result<(), Bad> {
    let (config, line) = config_and_line(text);
    put_by(alloc, names, rule, &config, line, out)?;
    Ok(())
}

/// `put_text [--auto-metric] [--appends] LINE`: the row of the point, which is put by its text.
fn put_line_text<R: Rows + Drop>(
    alloc: Global,
    names: &mut Uids<R>,
    rule: &UidRule,
    text: &str,
    out: &mut Told,
) -> Result<(), Bad> {
    let (config, line) = config_and_line(text);
    let line = bytes(alloc, line)?;
    match put_text(alloc, names, rule, &config, line.as_slice()) {
        Ok(stored) => {
            tell_stored(out, stored.base(), stored.row());
            stored.keep(names);
            Ok(())
        }
        Err(TextFault::Unread { fault: _ }) => {
            out.add("no point");
            Ok(())
        }
        Err(TextFault::Unput { fault }) => tell_put_fault(alloc, out, &fault),
    }
}

/// Adds why a point isn't put.
fn tell_put_fault(alloc: Global, out: &mut Told, fault: &PutFault) -> Result<(), Bad> {
    let mut told = Vec::new(alloc);
    fault.write_text(&mut told)?;
    out.bytes(told.as_slice());
    Ok(())
}

/// `scan METRIC FIRST LAST`: the rows of the metric in the hours from one base to another, each with its cells.
fn scan<R: Rows + Drop>(
    alloc: Global,
    names: &mut Uids<R>,
    text: &str,
    out: &mut Told,
) -> Result<(), Bad> {
    let (metric, text) = first_word(text);
    let (first, last) = first_word(text);
    let mut scan = Scan::start(small(metric)?, small(first)?, small(last)?, names.widths());
    for _ in 0..MOST_ROWS {
        match scan.turn(alloc, names) {
            Ok(Some(found)) => tell_found(out, &found),
            Ok(None) => {
                tell_none(out);
                return Ok(());
            }
            Err(fault) => {
                tell_rows_fault(out, fault);
                return Ok(());
            }
        }
    }
    Err(Bad::Line("too many rows"))
}

/// Tells that there is nothing, where nothing was told before.
fn tell_none(out: &mut Told) {
    if out.text().is_empty() {
        out.add("(none)");
    }
}

/// Makes the call of a line.
pub fn call<R: Rows + Drop>(
    alloc: Global,
    names: &mut Uids<R>,
    rule: &UidRule,
    queue: &mut Queue,
    verb: &str,
    rest: &str,
    out: &mut Told,
) -> Result<(), Bad> {
    match verb {
        "assign" => assign(alloc, names, rule, rest, out),
        "resolve" => resolve(alloc, names, rest, out),
        "suggest" => suggest(alloc, names, rest, out),
        "put" => put_line(alloc, names, rule, rest, out),
        "put_text" => put_line_text(alloc, names, rule, rest, out),
        "scan" => scan(alloc, names, rest, out),
        "ask" => asked(alloc, names, rest, out),
        "drop_cache" => {
            names.drop_cache();
            Ok(())
        }
        _ => compactions::call(alloc, names, queue, verb, rest, out),
    }
}
