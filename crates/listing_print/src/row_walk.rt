//! The lines of one row.
ghost use Rattle.std.specs.Prelude.{◌≡◌, ◌≤◌, Err, IfOk, OnOk, OnErr};
ghost use Rattle.tsd_io.specs.Causes.{Rose};
ghost use Rattle.listing_print.specs.StoreRows.{row_lines};

use crate::cell_giver::GiveFault;
use crate::line_taker::LineTaker;
use cell_model::{Cells, ListLine, Row};
use qual_codec::Bytes;
use std::alloc::{AllocError, Global};
use tsd_io::ports::Sink;

/// Has the lines of a row's cells taken, of which one is held at a time.
pub(crate) fn walk_row<K: Sink, T: LineTaker>(
    alloc: Global,
    sink: &mut K,
    taker: &mut T,
    row: &Row,
    cells: &Cells,
) -> Result<(), GiveFault>
    ensures ok { OnOk result (T.took (row_lines row.now cells.now) (K.held sink.old, taker.old) (K.held sink.new, taker.new)) }
    ensures err { OnErr result (T.ended (row_lines row.now cells.now) (K.held sink.old, taker.old) (K.held sink.new, taker.new)) }
    ensures later { K.faults sink.old ≤ K.faults sink.new }
    ensures failed { result ≡ Err GiveFault.Failed → Rose (K.faults sink.old) (K.faults sink.new) }
{
    for i in 0..cells.len() {
        let cell = cells.cell(i);
        let line = line_of(alloc, row, cell.qual, cell.value)?;
        taker.take_line(sink, &line)?;
    }
    Ok(())
}

/// The line of a cell of a row. It fails only for want of memory.
fn line_of(alloc: Global, row: &Row, qual: &[u8], value: &[u8]) -> Result<ListLine, AllocError>
    ensures { IfOk result (λ line. line ≡ record { table = row.now.table; row = row.now.bytes; qual = qual.now; value = value.now }) }
{
    Ok(ListLine {
        table: row.table,
        row: row.bytes.again(alloc)?,
        qual: Bytes::of(alloc, qual)?,
        value: Bytes::of(alloc, value)?,
    })
}
