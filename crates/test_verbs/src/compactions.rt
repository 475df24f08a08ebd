//! Compactions of rows, and of the rows of a queue, made by caller 1.
ghost use Rattle.std.specs.Prelude.{◌≡◌, IfOk};
ghost use Rattle.row_key.specs.declared.tables.Table.TheVariants.{Points};

use crate::calls::tell_rows_fault;
use cell_model::{Row, Rows};
use compactor::{CompactFault, Compacted, Queue, compact_row, drain};
use qual_codec::Bytes;
use row_key::Table;
use std::alloc::Global;
use test_readers::text::{Bad, first_word, hex, small};
use test_readers::told::Told;
use uid_table::Uids;

/// The row of points whose bytes are these hexadecimal digits.
fn point_row(alloc: Global, digits: &str) -> Result<Row, Bad>
    ensures { IfOk result (λ row. row.table ≡ Points) }
{
    let bytes = hex(alloc, digits)?;
    Ok(Row {
        table: Table::Points,
        bytes: Bytes::of(alloc, bytes.as_slice())?,
    })
}

/// Adds why a row isn't compacted.
fn tell_compact_fault(out: &mut Told, fault: CompactFault) {
    match fault {
        CompactFault::Conflict { offset, a, b } => {
            tell_number(out, "conflict at ", u64::from(offset));
            out.add(": ");
            out.signed(a);
            out.add(" and ");
            out.signed(b);
        }
        CompactFault::OutOfMemory => out.lose(),
        CompactFault::Stopped => out.add("stopped"),
    }
}

/// Adds a number behind a text.
fn tell_number(out: &mut Told, before: &str, number: u64) {
    out.add(before);
    out.number(number);
}

/// `compact ROW`: what was done with the row.
fn compact<R: Rows + Drop>(
    alloc: Global,
    names: &mut Uids<R>,
    text: &str,
    out: &mut Told,
) -> Result<(), Bad> {
    let row = point_row(alloc, text)?;
    match compact_row(alloc, names, &row) {
        Ok(Compacted::Nothing) => out.add("nothing"),
        Ok(Compacted::Merged { before, dropped }) => {
            tell_number(out, "merged ", before);
            tell_number(out, " dropped ", dropped);
        }
        Err(fault) => tell_compact_fault(out, fault),
    }
    Ok(())
}

/// `queue ROW BASE`: whether the row was added.
fn add(alloc: Global, queue: &mut Queue, text: &str, out: &mut Told) -> Result<(), Bad> {
    let (digits, base) = first_word(text);
    let base = small(base)?;
    let row = point_row(alloc, digits)?;
    let added = queue.add(&row, base)?;
    out.add(if added { "added" } else { "was there" });
    Ok(())
}

/// `drain BEFORE MAX`: what became of the rows.
fn drain_queue<R: Rows + Drop>(
    alloc: Global,
    names: &mut Uids<R>,
    queue: &mut Queue,
    text: &str,
    out: &mut Told,
) -> Result<(), Bad> {
    let (before, max) = first_word(text);
    match drain(alloc, names, queue, small(before)?, small(max)?) {
        Ok(drained) => {
            tell_number(out, "done ", u64::from(drained.done));
            tell_number(out, " conflicts ", u64::from(drained.conflicts));
        }
        Err(fault) => tell_rows_fault(out, fault),
    }
    Ok(())
}

/// `pop`: how many rows there are, and the first one, which is taken out.
fn pop(queue: &mut Queue, out: &mut Told) {
    out.number(queue.len());
    if let Some(first) = queue.pop() {
        tell_number(out, " ", u64::from(first.base));
        out.add(" ");
        out.hex(first.row.bytes.list());
    }
}

/// Makes the call of a line.
pub fn call<R: Rows + Drop>(
    alloc: Global,
    names: &mut Uids<R>,
    queue: &mut Queue,
    verb: &str,
    rest: &str,
    out: &mut Told,
) -> Result<(), Bad> {
    match verb {
        "compact" => compact(alloc, names, rest, out),
        "queue" => add(alloc, queue, rest, out),
        "drain" => drain_queue(alloc, names, queue, rest, out),
        "pop" => {
            pop(queue, out);
            Ok(())
        }
        _ => Err(Bad::Line("no verb of a store")),
    }
}
