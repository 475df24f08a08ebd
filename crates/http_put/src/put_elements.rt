//! The put of a list of elements.
ghost use Rattle.std.specs.Prelude.{◌≡◌, [], map, Err, IfOk, OnErr, IfErr};
ghost use Rattle.serde_json.specs.View.{view};
ghost use Rattle.tsd_base.specs.Points.{data_point};
ghost use Rattle.cell_model.specs.Deeds.{Since, deeds};
ghost use Rattle.cell_model.specs.Seen.{InEach};
ghost use Rattle.cell_model.specs.Stops.{CountsStops, is_stop};
ghost use Rattle.cell_model.specs.declared.answers.RowsFault.TheVariants as rows_fault;
ghost use Rattle.point_put.specs.declared.fault.PutFault.TheVariants as put_fault;
ghost use Rattle.point_put.specs.Admissions.{admission};
ghost use Rattle.queued_put.specs.PutRows.{MayHaveRows};
ghost use Rattle.http_put.specs.PutElements.{text_of, texts_of, ElementsPut, ElementsBegun};
ghost use Rattle.http_put.specs.PutOneElement.{ElementPut, ElementBegun, PointPut, PointBegun, RefusedElement, RefusedPoint};

use cell_model::answers::RowsFault;
use cell_model::rows::Rows;
use compactor::queue::Queue;
use json_points::elements::read_element;
use json_points::fault::ElementFault;
use point_put::{Config, PutFault};
use queued_put::put_queued;
use serde_json::Value;
use std::alloc::Global;
use tsd_base::points::Point;
use tsd_hooks::UidRule;
use uid_table::uids::Uids;

/// Puts the points of elements, one after the other, in their order, and adds the row of each that was stored to the queue. The
/// answer has None for an element that was stored, and else the text of its refusal; one that is refused leaves the others as they are.
/// A new name is given an id only where the rule allows it.
///
/// A fault ends the put. The elements before it stay put, and their rows queued; of the next one some steps may be done.
pub fn put_elements<R: Rows + Drop>(
    alloc: Global,
    names: &mut Uids<R>,
    rule: &UidRule,
    config: &Config,
    queue: &mut Queue,
    elements: &[Value],
) -> Result<Vec<Option<Vec<u8>>>, RowsFault>
    ensures since { Since (R.seen names.old.rows) (R.seen names.new.rows) }
    ensures ok { IfOk result (λ outs. ElementsPut (admission config.now rule.now.patterns) (map view elements.now) (R.seen names.old.rows) queue.old (texts_of outs.items) (R.seen names.new.rows) queue.new) }
    ensures err { OnErr result (ElementsBegun (admission config.now rule.now.patterns) (map view elements.now) (R.seen names.old.rows) queue.old (R.seen names.new.rows) queue.new) }
    ensures queue { OnErr result (InEach (R.seen names.new.rows) (λ h. MayHaveRows queue.old [] (deeds h (R.seen names.old.rows).caller (R.seen names.old.rows).length (R.seen names.new.rows).length) queue.new)) }
    ensures stops { CountsStops is_stop result (R.stops names.old.rows) (R.stops names.new.rows) }
{
    let mut outs = Vec::new(alloc);
    for element in elements {
        let out = put_element(alloc, names, rule, config, queue, element)?;
        outs.push(out)?;
    }
    Ok(outs)
}

/// Puts the point of one element.
fn put_element<R: Rows + Drop>(
    alloc: Global,
    names: &mut Uids<R>,
    rule: &UidRule,
    config: &Config,
    queue: &mut Queue,
    element: &Value,
) -> Result<Option<Vec<u8>>, RowsFault>
    ensures ok { IfOk result (λ out. ElementPut (admission config.now rule.now.patterns) (view element.now) (R.seen names.old.rows) queue.old (text_of out) (R.seen names.new.rows) queue.new) }
    ensures err { OnErr result (ElementBegun (admission config.now rule.now.patterns) (view element.now) (R.seen names.old.rows) (R.seen names.new.rows)) }
    ensures same { OnErr result (queue.new ≡ queue.old) }
    ensures stops { CountsStops is_stop result (R.stops names.old.rows) (R.stops names.new.rows) }
{
    match read_element(alloc, element) {
        Ok(point) => put_one(alloc, names, rule, config, queue, &point),
        Err(fault) => unread(alloc, &fault),
    }
}

/// Puts the point of an element that reads.
fn put_one<R: Rows + Drop>(
    alloc: Global,
    names: &mut Uids<R>,
    rule: &UidRule,
    config: &Config,
    queue: &mut Queue,
    point: &Point,
) -> Result<Option<Vec<u8>>, RowsFault>
    ensures ok { IfOk result (λ out. PointPut (admission config.now rule.now.patterns) (data_point point.now) (R.seen names.old.rows) queue.old (text_of out) (R.seen names.new.rows) queue.new) }
    ensures err { OnErr result (PointBegun (admission config.now rule.now.patterns) (data_point point.now) (R.seen names.old.rows) (R.seen names.new.rows)) }
    ensures same { OnErr result (queue.new ≡ queue.old) }
    ensures stops { CountsStops is_stop result (R.stops names.old.rows) (R.stops names.new.rows) }
{
    match put_queued(alloc, names, rule, config, queue, point) {
        Ok(()) => Ok(None),
        Err(fault) => refused(alloc, &fault),
    }
}

/// What is told of an element that doesn't read. It fails only for want of memory.
fn unread(alloc: Global, fault: &ElementFault) -> Result<Option<Vec<u8>>, RowsFault>
    ensures ok { IfOk result (λ out. RefusedElement fault.now (text_of out)) }
    ensures err { IfErr result (λ e. e ≡ rows_fault.OutOfMemory) }
{
    let mut text = Vec::new(alloc);
    match fault {
        ElementFault::OutOfMemory => Err(RowsFault::OutOfMemory),
        fault => {
            fault.write_text(&mut text)?;
            Ok(Some(text))
        }
    }
}

/// What is told of a point that wasn't put, unless memory ran out or the caller was stopped.
pub(crate) fn refused(alloc: Global, fault: &PutFault) -> Result<Option<Vec<u8>>, RowsFault>
    ensures ok { IfOk result (λ out. RefusedPoint fault.now (text_of out)) }
    ensures stopped { result ≡ Err rows_fault.Stopped → fault.now ≡ put_fault.Stopped }
{
    let mut text = Vec::new(alloc);
    match fault {
        PutFault::OutOfMemory => Err(RowsFault::OutOfMemory),
        PutFault::Stopped => Err(RowsFault::Stopped),
        fault => {
            fault.write_text(&mut text)?;
            Ok(Some(text))
        }
    }
}
