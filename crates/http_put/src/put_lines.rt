//! The put of a body by the lines of its elements.
ghost use Rattle.std.specs.Prelude.{◌≡◌, ◌<◌, ◌+◌, List, [], drop, length, None, Ok as Done, Err, IfOk, IfSome, OnErr};
ghost use Rattle.serde_json.specs.Data.{Data};
ghost use Rattle.cell_model.specs.Deeds.{Since, deeds};
ghost use Rattle.cell_model.specs.Seen.{InEach};
ghost use Rattle.cell_model.specs.Stops.{CountsStops, is_stop};
ghost use Rattle.point_put.specs.Admissions.{admission};
ghost use Rattle.put_bodies.specs.BodyLines.{AreLinesOf};
ghost use Rattle.queued_put.specs.PutRows.{MayHaveRows};
ghost use Rattle.http_put.specs.PutLines.{IsListOf, LineBegun, LinePut, ListBegun, ListPut, TurnBegun, TurnMade, IsDenial, IsTold, IsUnput};
ghost use Rattle.cell_model.specs.declared.answers.RowsFault.TheVariants as rows_fault;
ghost use Rattle.point_put.specs.declared.fault.PutFault.TheVariants as put_fault;
ghost use Rattle.point_put.specs.declared.fault.TextFault.TheVariants.{Unput};

use crate::put_elements::refused;
use crate::rest_elements::put_rest;
use cell_model::answers::RowsFault;
use cell_model::rows::Rows;
use compactor::queue::Queue;
use point_put::{Config, TextFault, put_text};
use put_bodies::body_lines::{BodyLines, body_lines};
use queued_put::queue_stored;
use std::alloc::Global;
use tsd_hooks::UidRule;
use uid_table::uids::Uids;

/// What came of the next element.
#[derive(Drop)]
enum Turn {
    /// It was asked, and this is told of it.
    Told { out: Option<Vec<u8>> },
    /// It has no line of a point.
    Other,
    /// There is no element more.
    End,
}

/// Puts the elements of a body that is a list of elements, most of them plain, as [`put_elements`](crate::put_elements::put_elements)
/// does, with the same answer. Of any other body it answers `None`, which says nothing, and then nothing was done.
///
/// No JSON values are made of the elements up to the first one that has no line of a point: each is put by a text as telnet puts it,
/// and a series is known by that text. The rest are put by their JSON values. That the body is JSON is known before any is put.
pub fn put_lines<R: Rows + Drop>(
    alloc: Global,
    names: &mut Uids<R>,
    rule: &UidRule,
    config: &Config,
    queue: &mut Queue,
    body: &[u8],
) -> Result<Option<Vec<Option<Vec<u8>>>>, RowsFault>
    ensures since { Since (R.seen names.old.rows) (R.seen names.new.rows) }
    ensures ok { IfOk result (λ found. IfSome found (λ outs. ListPut (admission config.now rule.now.patterns) body.now (R.seen names.old.rows) queue.old outs.items (R.seen names.new.rows) queue.new)) }
    ensures nothing { result ≡ Done None → (names.new ≡ names.old) × (queue.new ≡ queue.old) }
    ensures err { OnErr result (ListBegun (admission config.now rule.now.patterns) body.now (R.seen names.old.rows) queue.old (R.seen names.new.rows) queue.new) }
    ensures queue { OnErr result (InEach (R.seen names.new.rows) (λ h. MayHaveRows queue.old [] (deeds h (R.seen names.old.rows).caller (R.seen names.old.rows).length (R.seen names.new.rows).length) queue.new)) }
    ensures stops { CountsStops is_stop result (R.stops names.old.rows) (R.stops names.new.rows) }
{
    let Ok(text) = std::str::from_utf8(body) else {
        return Ok(None);
    };
    let Some(lines) = body_lines(alloc, text) else {
        return Ok(None);
    };
    let outs = put_items(alloc, names, rule, config, queue, body, &lines)?;
    Ok(Some(outs))
}

/// Puts the elements of a list, of which there are lines.
fn put_items<R: Rows + Drop>(
    alloc: Global,
    names: &mut Uids<R>,
    rule: &UidRule,
    config: &Config,
    queue: &mut Queue,
    body: &[u8],
    lines: &BodyLines,
) -> Result<Vec<Option<Vec<u8>>>, RowsFault>
    requires { (elements : List Data) × IsListOf body.now elements × AreLinesOf lines.now elements }
    ensures since { Since (R.seen names.old.rows) (R.seen names.new.rows) }
    ensures ok { IfOk result (λ outs. ListPut (admission config.now rule.now.patterns) body.now (R.seen names.old.rows) queue.old outs.items (R.seen names.new.rows) queue.new) }
    ensures err { OnErr result (ListBegun (admission config.now rule.now.patterns) body.now (R.seen names.old.rows) queue.old (R.seen names.new.rows) queue.new) }
    ensures stops { CountsStops is_stop result (R.stops names.old.rows) (R.stops names.new.rows) }
{
    let mut outs = Vec::new(alloc);
    'turns: loop {
        let turn = put_next(alloc, names, rule, config, queue, lines, outs.len())?;
        match turn {
            Turn::Told { out } => outs.push(out)?,
            Turn::Other => return put_rest(alloc, names, rule, config, queue, body, outs),
            Turn::End => return Ok(outs),
        }
    }
}

/// Puts the point of the line at a place.
fn put_next<R: Rows + Drop>(
    alloc: Global,
    names: &mut Uids<R>,
    rule: &UidRule,
    config: &Config,
    queue: &mut Queue,
    lines: &BodyLines,
    at: usize,
) -> Result<Turn, RowsFault>
    ensures ok { (elements : List Data) → AreLinesOf (drop at lines.now) elements → IfOk result (λ turn. TurnMade (admission config.now rule.now.patterns) elements (R.seen names.old.rows) queue.old turn (drop (at + 1) lines.now) (R.seen names.new.rows) queue.new) }
    ensures err { (elements : List Data) → AreLinesOf (drop at lines.now) elements → OnErr result (TurnBegun (admission config.now rule.now.patterns) elements (R.seen names.old.rows) (R.seen names.new.rows)) }
    ensures same { OnErr result (queue.new ≡ queue.old) }
    ensures stops { CountsStops is_stop result (R.stops names.old.rows) (R.stops names.new.rows) }
    ensures within { IfOk result (λ turn. IsTold turn → at < length lines.now) }
{
    match lines.line(at) {
        Some(line) => put_line(alloc, names, rule, config, queue, line),
        None => Ok(Turn::End),
    }
}

/// Puts the point of a line.
fn put_line<R: Rows + Drop>(
    alloc: Global,
    names: &mut Uids<R>,
    rule: &UidRule,
    config: &Config,
    queue: &mut Queue,
    line: &[u8],
) -> Result<Turn, RowsFault>
    ensures ok { IfOk result (λ turn. LinePut (admission config.now rule.now.patterns) line.now (R.seen names.old.rows) queue.old turn (R.seen names.new.rows) queue.new) }
    ensures err { OnErr result (LineBegun (admission config.now rule.now.patterns) line.now (R.seen names.old.rows) (R.seen names.new.rows)) }
    ensures same { OnErr result (queue.new ≡ queue.old) }
    ensures stops { CountsStops is_stop result (R.stops names.old.rows) (R.stops names.new.rows) }
{
    match put_text(alloc, names, rule, config, line) {
        Ok(stored) => {
            queue_stored(names, queue, stored)?;
            Ok(Turn::Told { out: None })
        }
        Err(fault) => denied(alloc, &fault),
    }
}

/// What is told of a line whose point wasn't put, unless memory ran out or the caller was stopped.
fn denied(alloc: Global, fault: &TextFault) -> Result<Turn, RowsFault>
    ensures ok { IfOk result (IsDenial fault.now) }
    ensures err { OnErr result (IsUnput fault.now) }
    ensures stopped { result ≡ Err rows_fault.Stopped → fault.now ≡ Unput put_fault.Stopped }
{
    match fault {
        TextFault::Unput { fault } => {
            let out = refused(alloc, fault)?;
            Ok(Turn::Told { out })
        }
        TextFault::Unread { fault: _ } => Ok(Turn::Other),
    }
}
