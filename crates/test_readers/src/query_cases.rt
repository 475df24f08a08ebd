//! What the texts of sub queries are read as.

use crate::text::{Bad, bytes};
use crate::told::Told;
use query_text::queries::{Filter, NameList, Sub, Test};
use query_text::subs::read_m;
use std::alloc::Global;
use tsd_base::kinds::{Aggregator, Down, Fill, Function};

/// The name of an aggregator.
fn aggregator_text(how: Aggregator) -> &'static str {
    match how {
        Aggregator::Sum => "sum",
        Aggregator::Min => "min",
        Aggregator::Max => "max",
        Aggregator::Avg => "avg",
        Aggregator::Count => "count",
        Aggregator::Zimsum => "zimsum",
        Aggregator::Mimmin => "mimmin",
        Aggregator::Mimmax => "mimmax",
        Aggregator::NoneOf => "none",
    }
}

/// The name of a function.
fn function_text(function: Function) -> &'static str {
    match function {
        Function::Sum => "sum",
        Function::Min => "min",
        Function::Max => "max",
        Function::Avg => "avg",
        Function::Count => "count",
        Function::First => "first",
        Function::Last => "last",
        Function::Zimsum => "zimsum",
        Function::Mimmin => "mimmin",
        Function::Mimmax => "mimmax",
    }
}

fn tell_down(out: &mut Told, down: Down) {
    out.add("; ");
    out.number(down.interval);
    out.add(" ");
    out.add(function_text(down.function));
    if down.fill == Fill::Zero {
        out.add(" zero");
    }
}

fn tell_names(out: &mut Told, names: &NameList) {
    for (at, name) in names.list().iter().enumerate() {
        out.add(if at > 0 { "|" } else { "" });
        out.bytes(name.bytes());
    }
}

/// Adds a filter: `group` or `keep`, the key, and its test.
fn tell_filter(out: &mut Told, filter: &Filter) {
    out.add(if filter.group { "; group " } else { "; keep " });
    out.bytes(filter.key.bytes());
    match &filter.test {
        Test::Any => out.add("=*"),
        Test::OneOf { names } => {
            out.add("=");
            tell_names(out, names);
        }
        Test::NotOneOf { names } => {
            out.add("!=");
            tell_names(out, names);
        }
        Test::Wild { text } => {
            out.add("=wildcard(");
            out.bytes(text.list());
            out.add(")");
        }
        Test::Pattern { text } => {
            out.add("=regexp(");
            out.add(text.text());
            out.add(")");
        }
    }
}

fn tell_sub(out: &mut Told, sub: &Sub) {
    out.add(aggregator_text(sub.how));
    out.add(" ");
    out.bytes(sub.metric.bytes());
    if let Some(down) = sub.down {
        tell_down(out, down);
    }
    for filter in sub.filters.list() {
        tell_filter(out, filter);
    }
}

/// What stands behind `--ms`, and whether it was there.
pub fn option_ms(text: &str) -> (bool, &str) {
    match text.strip_prefix("--ms ") {
        Some(rest) => (true, rest.trim()),
        None => (false, text),
    }
}

/// `m [--ms] TEXT`: the sub query, or the text of its fault.
pub fn m(alloc: Global, text: &str, out: &mut Told) -> Result<(), Bad> {
    let (ms, text) = option_ms(text);
    let text = bytes(alloc, text)?;
    match read_m(alloc, text.as_slice(), ms) {
        Ok(sub) => tell_sub(out, &sub),
        Err(fault) => {
            let mut told = Vec::new(alloc);
            fault.write_text(&mut told)?;
            out.bytes(told.as_slice());
        }
    }
    Ok(())
}
