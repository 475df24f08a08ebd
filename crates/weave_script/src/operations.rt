//! Operations, as they are drawn and done.
ghost use Rattle.std.specs.Prelude.{◌≡◌, ◌<◌, ◌≤◌, All, IfOk};
ghost use Rattle.tsd_base.specs.declared.times.TheConstants.{LAST_TIME};
ghost use Rattle.query_text.specs.Subs.{CanDown};
ghost use Rattle.weave_script.specs.OperationQueues.{GainsOne, LosesFirst};

use cell_model::rows::Rows;
use compactor::compact_row;
use compactor::compaction::CompactFault;
use compactor::queue::Queue;
use point_put::{Config, PutFault};
use query_run::{AskFault, ask};
use query_text::queries::{FilterList, Query, Sub, SubList};
use queued_put::put_queued;
use std::alloc::{AllocError, Global};
use tsd_base::kinds::Aggregator;
use tsd_base::names::Name;
use tsd_base::points::Point;
use tsd_base::tags::Tags;
use tsd_hooks::UidRule;
use uid_table::uids::{KEPT_PAIRS, Uids};
use weave_rows::Loom;

/// The first second of the two hours that the points are of.
const FIRST_SECOND: u64 = 1_356_998_400;

/// How many seconds they have.
const SECONDS: u32 = 7_200;

/// How many metrics and hosts there are.
const METRICS: u32 = 4;

const HOSTS: u32 = 8;

/// Of so many points one has its time in milliseconds.
const FORMS: u32 = 4;

/// Each name is given an id, and each point gets a cell of its own.
const CONFIG: Config = Config {
    auto_metric: true,
    auto_tag_key: true,
    auto_tag_value: true,
    appends: false,
};

/// What a daemon does at a time.
#[derive(Drop)]
pub(crate) enum Operation {
    /// A point is put, and its row is queued.
    Put { point: Point },
    /// The first row of the queue is compacted.
    Compact,
    /// A metric is asked for, by its number.
    Ask { metric: u32 },
    /// Nothing.
    Rest,
}

/// Draws an operation.
pub(crate) fn draw_operation(alloc: Global, loom: &mut Loom) -> Result<Operation, AllocError>
    ensures { loom.new ≡ loom.old }
{
    match loom.draw(16) {
        0..=10 => {
            let point = draw_point(alloc, loom)?;
            Ok(Operation::Put { point })
        }
        11..=13 => Ok(Operation::Compact),
        14 => {
            let metric = loom.draw(METRICS);
            Ok(Operation::Ask { metric })
        }
        _ => Ok(Operation::Rest),
    }
}

/// Draws a point: its metric, its host, its second, and whether its time is given in milliseconds.
fn draw_point(alloc: Global, loom: &mut Loom) -> Result<Point, AllocError>
    ensures { loom.new ≡ loom.old }
{
    let metric = loom.draw(METRICS);
    let host = loom.draw(HOSTS);
    let second = loom.draw(SECONDS);
    let form = loom.draw(FORMS);
    point_at(alloc, metric, host, second, form == 0)
}

/// A letter, and then a digit.
fn numbered(alloc: Global, letter: u8, number: u32) -> Result<Name, AllocError> {
    let digit = b'0' + (number % 10) as u8;
    match Name::read(alloc, &[letter, digit]) {
        Ok(name) => Ok(name),
        Err(_) => Err(AllocError),
    }
}

/// The tag of a host.
fn host_tag(alloc: Global, host: u32) -> Result<Tags, AllocError> {
    let Ok(key) = Name::read(alloc, b"host") else {
        return Err(AllocError);
    };
    let value = numbered(alloc, b'h', host)?;
    let mut pairs = Vec::new(alloc);
    pairs.push((key, value))?;
    match Tags::build(alloc, pairs) {
        Ok(tags) => Ok(tags),
        Err(_) => Err(AllocError),
    }
}

/// The value that a series has at a second, so that no series is given two values at one time.
fn value_at(metric: u32, host: u32, second: u32) -> i64 {
    let mixed = 31 * u64::from(second) + 7 * u64::from(metric) + u64::from(host);
    (mixed % 2001) as i64 - 1000
}

/// The point of a metric and host at a second.
fn point_at(
    alloc: Global,
    metric: u32,
    host: u32,
    second: u32,
    fine: bool,
) -> Result<Point, AllocError>
    requires { second < 7200 }
{
    Ok(Point {
        metric: numbered(alloc, b'm', metric)?,
        tags: host_tag(alloc, host)?,
        time: (FIRST_SECOND + u64::from(second)) * 1000,
        fine,
        value: value_at(metric, host, second),
    })
}

/// The sum of a metric over all hosts, at each second of the two hours.
fn sum_of(alloc: Global, metric: u32) -> Result<Query, AllocError>
    ensures order { IfOk result (λ query. query.start ≤ query.end) }
    ensures most { IfOk result (λ query. query.end ≤ LAST_TIME) }
    ensures downs { IfOk result (λ query. All (CanDown query.ms) query.subs) }
{
    let sub = Sub {
        how: Aggregator::Sum,
        down: None,
        metric: numbered(alloc, b'm', metric)?,
        filters: FilterList::of(Vec::new(alloc)),
    };
    let mut subs = Vec::new(alloc);
    subs.push(sub)?;
    Ok(Query {
        start: FIRST_SECOND * 1000,
        end: (FIRST_SECOND + u64::from(SECONDS) - 1) * 1000,
        ms: false,
        subs: SubList::of(subs),
    })
}

/// Does an operation over rows, and gives them back. An operation that is stopped ends there; what it has done stays done.
pub(crate) fn act<R: Rows + Drop>(
    alloc: Global,
    rows: R,
    rule: &UidRule,
    queue: &mut Queue,
    operation: Operation,
) -> (R, Result<(), AllocError>) {
    match operation {
        Operation::Put { point } => put_one(alloc, rows, rule, queue, &point),
        Operation::Compact => compact_first(alloc, rows, queue),
        Operation::Ask { metric } => match sum_of(alloc, metric) {
            Ok(query) => ask_one(alloc, rows, &query),
            Err(error) => (rows, Err(error)),
        },
        Operation::Rest => (rows, Ok(())),
    }
}

/// Puts a point, and queues its row where it was stored.
fn put_one<R: Rows + Drop>(
    alloc: Global,
    rows: R,
    rule: &UidRule,
    queue: &mut Queue,
    point: &Point,
) -> (R, Result<(), AllocError>)
    ensures queue { GainsOne queue.old queue.new }
{
    match Uids::over(alloc, rows, KEPT_PAIRS) {
        Ok(names) => {
            let mut names = names;
            let done = put_named(alloc, &mut names, rule, queue, point);
            (names.part(), done)
        }
        Err((error, rows)) => (rows, Err(error)),
    }
}

/// Puts a point by these names, and queues its row where it was stored. A put that is stopped or refused leaves the queue as it was.
fn put_named<R: Rows + Drop>(
    alloc: Global,
    names: &mut Uids<R>,
    rule: &UidRule,
    queue: &mut Queue,
    point: &Point,
) -> Result<(), AllocError>
    ensures queue { GainsOne queue.old queue.new }
{
    match put_queued(alloc, names, rule, &CONFIG, queue, point) {
        Ok(()) => Ok(()),
        Err(PutFault::OutOfMemory) => Err(AllocError),
        Err(_) => Ok(()),
    }
}

/// Compacts the first row of the queue, if there is one. It is taken out of the queue, also where the compaction is stopped.
fn compact_first<R: Rows + Drop>(
    alloc: Global,
    rows: R,
    queue: &mut Queue,
) -> (R, Result<(), AllocError>)
    ensures queue { LosesFirst queue.old queue.new }
{
    let Some(first) = queue.pop() else {
        return (rows, Ok(()));
    };
    let mut rows = rows;
    let done = match compact_row(alloc, &mut rows, &first.row) {
        Err(CompactFault::OutOfMemory) => Err(AllocError),
        _ => Ok(()),
    };
    (rows, done)
}

/// Asks a query. The answer goes nowhere, and a refusal counts for nothing.
fn ask_one<R: Rows + Drop>(alloc: Global, rows: R, query: &Query) -> (R, Result<(), AllocError>)
    requires order { query.now.start ≤ query.now.end }
    requires most { query.now.end ≤ LAST_TIME }
    requires downs { All (CanDown query.now.ms) query.now.subs }
{
    match Uids::over(alloc, rows, KEPT_PAIRS) {
        Ok(names) => {
            let mut names = names;
            let asked = ask(alloc, &mut names, query);
            let done = match asked {
                Err(AskFault::OutOfMemory) => Err(AllocError),
                _ => Ok(()),
            };
            (names.part(), done)
        }
        Err((error, rows)) => (rows, Err(error)),
    }
}
