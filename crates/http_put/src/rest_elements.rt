//! The put of the elements of a body behind those that were put.
ghost use Rattle.std.specs.Prelude.{◌≡◌, ◌++◌, ◌≤◌, List, length, map, drop, IfOk, IfErr, OnErr};
ghost use Rattle.serde_json.specs.Data.{Data, array};
ghost use Rattle.serde_json.specs.View.{items_of, view};
ghost use Rattle.cell_model.specs.Deeds.{Since};
ghost use Rattle.cell_model.specs.Stops.{CountsStops, is_stop};
ghost use Rattle.cell_model.specs.declared.answers.RowsFault.TheVariants as rows_fault;
ghost use Rattle.point_put.specs.Admissions.{admission};
ghost use Rattle.http_put.specs.PutElements.{ElementsBegun};
ghost use Rattle.http_put.specs.PutLines.{IsListOf, RestPut};

use crate::put_elements::put_elements;
use cell_model::answers::RowsFault;
use cell_model::rows::Rows;
use compactor::queue::Queue;
use http_requests::json_body::read_json;
use point_put::Config;
use serde_json::Value;
use std::alloc::Global;
use tsd_hooks::UidRule;
use uid_table::uids::Uids;

/// Puts the elements behind those that were put, each by its JSON value, and adds what is told of them.
pub fn put_rest<R: Rows + Drop>(
    alloc: Global,
    names: &mut Uids<R>,
    rule: &UidRule,
    config: &Config,
    queue: &mut Queue,
    body: &[u8],
    outs: Vec<Option<Vec<u8>>>,
) -> Result<Vec<Option<Vec<u8>>>, RowsFault>
    requires { (elements : List Data) × IsListOf body.now elements × (length outs.items ≤ length elements) }
    ensures since { Since (R.seen names.old.rows) (R.seen names.new.rows) }
    ensures ok { (done rest : List Data) → IsListOf body.now (done ++ rest) → length done ≡ length outs.items → IfOk result (λ all. RestPut (admission config.now rule.now.patterns) rest (R.seen names.old.rows) queue.old outs.items all.items (R.seen names.new.rows) queue.new) }
    ensures err { (done rest : List Data) → IsListOf body.now (done ++ rest) → length done ≡ length outs.items → OnErr result (ElementsBegun (admission config.now rule.now.patterns) rest (R.seen names.old.rows) queue.old (R.seen names.new.rows) queue.new) }
    ensures stops { CountsStops is_stop result (R.stops names.old.rows) (R.stops names.new.rows) }
{
    let value = read_list(alloc, body)?;
    let rest = elements_behind(&value, outs.len());
    let more = put_elements(alloc, names, rule, config, queue, rest)?;
    joined(outs, more)
}

/// The value of a body that is a list.
fn read_list(alloc: Global, body: &[u8]) -> Result<Value, RowsFault>
    requires { (elements : List Data) × IsListOf body.now elements }
    ensures ok { (elements : List Data) → IsListOf body.now elements → IfOk result (λ value. view value ≡ array (items_of elements)) }
    ensures err { IfErr result (λ e. e ≡ rows_fault.OutOfMemory) }
{
    let Ok(found) = read_json(alloc, body) else {
        return Err(RowsFault::OutOfMemory);
    };
    match found {
        Some(value) => Ok(value),
        None => unreachable!(),
    }
}

/// The elements of a list behind the first ones.
fn elements_behind(list: &Value, from: usize) -> &[Value]
    requires { (elements : List Data) × (view list.now ≡ array (items_of elements)) × (from ≤ length elements) }
    ensures { (done rest : List Data) → view list.now ≡ array (items_of (done ++ rest)) → length done ≡ from → map view result.now ≡ rest }
{
    match list.as_array() {
        Some(values) => behind(values.as_slice(), from),
        None => unreachable!(),
    }
}

#[tactic(auto, using(std::proofs::lemmas::List::take_rest))]
fn behind(values: &[Value], from: usize) -> &[Value]
    requires { from ≤ length values.now }
    ensures { result.now ≡ drop from values.now }
{
    &values[from..]
}

/// What was told of all.
fn joined(
    outs: Vec<Option<Vec<u8>>>,
    more: Vec<Option<Vec<u8>>>,
) -> Result<Vec<Option<Vec<u8>>>, RowsFault>
    ensures ok { IfOk result (λ all. all.items ≡ outs.items ++ more.items) }
    ensures err { IfErr result (λ e. e ≡ rows_fault.OutOfMemory) }
{
    let mut all = outs;
    let mut more = more;
    all.append(&mut more)?;
    Ok(all)
}
