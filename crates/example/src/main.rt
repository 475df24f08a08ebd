//! The library by example: a program with a store of its own. It puts the points of its input, one a line, and prints the answer of one query.
//!
//! Its words are `START END M`, as behind `tsd batch`, where START and END are times as a point has them.
#![tactic(auto)]

ghost use Rattle.std.specs.Prelude.{◌≡◌, ◌≤◌, false, All, IfOk, IsErr};
ghost use Rattle.query_text.specs.Subs.{CanDown};
ghost use Rattle.tsd_base.specs.declared.times.TheConstants.{LAST_TIME};
ghost use Rattle.tsd_hooks.specs.AllowedNames.{allowed};

use anyhow::{Result, anyhow};
use cell_model::Rows;
use json_reply::reply::reply_text;
use lone_store::{Store, empty, halt_of};
use point_put::{Config, put};
use query_run::{AskFault, ask};
use query_text::queries::{Query, Sub, SubList};
use query_text::subs::read_m;
use row_key::Widths;
use std::alloc::Global;
use std::env;
use std::io::{BufRead, BufReader};
use std::str::from_utf8;
use tsd_base::kinds::Kind;
use tsd_base::names::Name;
use tsd_base::point_text::read_point;
use tsd_base::times::read_time;
use tsd_hooks::{Patterns, UidRule};
use tsd_io::halt::{Halt, MemHalt};
use uid_table::Uids;

fn main(rt: HostRuntime) -> Result<()> {
    let alloc = rt.alloc();
    let words: Vec<String> = env::args(&rt)?.skip(1).collect(alloc)?;
    let query = query_of(alloc, &words)?;
    let patterns = Patterns::none();
    let kept = patterns.again(alloc)?;
    let test = Box::new(
        alloc,
        move |kind: Kind, name: &Name|
            ensures { result ≡ allowed patterns kind name.now }
        { patterns.allow(kind, name) },
    )?;
    let rule = UidRule::keep(kept, test);
    let input = BufReader::new(alloc, rt.stdin())?;
    let reply = match empty(alloc, Widths::three(), MemHalt::make(Vec::new(alloc))) {
        Ok(store) => over_store(alloc, store, &rule, input, &query)?,
        Err(_) => return Err(anyhow!("out of memory")),
    };
    println!(rt; "{}", from_utf8(&reply)?)?;
    Ok(())
}

/// The query that the words ask.
fn query_of(alloc: Global, words: &[String]) -> Result<Query>
    ensures order { IfOk result (λ query. query.start ≤ query.end) }
    ensures most { IfOk result (λ query. query.end ≤ LAST_TIME) }
    ensures downs { IfOk result (λ query. All (CanDown query.ms) query.subs) }
{
    let [start, end, m] = words else {
        return Err(anyhow!("usage: example START END M"));
    };
    let Ok((start, _)) = read_time(start.as_bytes()) else {
        return Err(anyhow!("bad start"));
    };
    let Ok((end, _)) = read_time(end.as_bytes()) else {
        return Err(anyhow!("bad end"));
    };
    if start > end {
        return Err(anyhow!("the end is before the start"));
    }
    let sub = sub_of(alloc, m)?;
    let mut subs = Vec::new(alloc);
    subs.push(sub)?;
    Ok(Query {
        start,
        end,
        ms: false,
        subs: SubList::of(subs),
    })
}

/// The sub query of a text.
fn sub_of(alloc: Global, text: &str) -> Result<Sub>
    ensures { IfOk result (CanDown false) }
{
    match read_m(alloc, text.as_bytes(), false) {
        Ok(sub) => Ok(sub),
        Err(fault) => {
            let mut text = Vec::new(alloc);
            fault.write_text(&mut text)?;
            refuse(&text)
        }
    }
}

/// Puts the points of the input into a store of no points, and answers the query over it.
fn over_store<H: Halt + Drop, I: BufRead + Drop>(
    alloc: Global,
    store: Store<H>,
    rule: &UidRule,
    input: I,
    query: &Query,
) -> Result<Vec<u8>>
    requires order { query.now.start ≤ query.now.end }
    requires most { query.now.end ≤ LAST_TIME }
    requires downs { All (CanDown query.now.ms) query.now.subs }
{
    let mut store = store;
    let reply = put_and_ask(alloc, &mut store, rule, input, query);
    // Taken apart, since the prover takes minutes for the drop of a whole store.
    let _ = halt_of(store);
    reply
}

/// Puts the points of the input, and answers the query.
fn put_and_ask<R: Rows + Drop, I: BufRead + Drop>(
    alloc: Global,
    store: &mut Uids<R>,
    rule: &UidRule,
    input: I,
    query: &Query,
) -> Result<Vec<u8>>
    requires order { query.now.start ≤ query.now.end }
    requires most { query.now.end ≤ LAST_TIME }
    requires downs { All (CanDown query.now.ms) query.now.subs }
{
    for line in input.lines(alloc) {
        let line = line?;
        if !line.is_empty() {
            put_line(alloc, store, rule, line.as_bytes())?;
        }
    }
    answer(alloc, store, query)
}

/// Puts the point of a line.
fn put_line<R: Rows + Drop>(
    alloc: Global,
    store: &mut Uids<R>,
    rule: &UidRule,
    line: &[u8],
) -> Result<()> {
    let config = Config {
        auto_metric: true,
        ..Config::usual()
    };
    let mut text = Vec::new(alloc);
    match read_point(alloc, line) {
        Ok(point) => match put(alloc, store, rule, &config, &point) {
            Ok(_) => return Ok(()),
            Err(fault) => fault.write_text(&mut text)?,
        },
        Err(fault) => fault.write_text(&mut text)?,
    }
    refuse(&text)
}

/// The text of a query's answer.
fn answer<R: Rows + Drop>(alloc: Global, store: &mut Uids<R>, query: &Query) -> Result<Vec<u8>>
    requires order { query.now.start ≤ query.now.end }
    requires most { query.now.end ≤ LAST_TIME }
    requires downs { All (CanDown query.now.ms) query.now.subs }
{
    match ask(alloc, store, query) {
        Ok(reply) => Ok(reply_text(alloc, &reply)?),
        Err(fault) => unanswered(alloc, &fault),
    }
}

/// The error of a query that has no answer.
fn unanswered(alloc: Global, fault: &AskFault) -> Result<Vec<u8>> {
    match fault {
        AskFault::Stopped => Err(anyhow!("stopped")),
        _ => {
            let mut text = Vec::new(alloc);
            fault.write_text(&mut text)?;
            refuse(&text)
        }
    }
}

/// The error that this text tells.
fn refuse<T: Drop>(text: &[u8]) -> Result<T>
    ensures { IsErr result }
{
    Err(anyhow!("{}", from_utf8(text)?))
}
