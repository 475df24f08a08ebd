//! The lines of the rows in a range.
ghost use Rattle.std.specs.Prelude.{◌≡◌, ◌≤◌, [], ◌∷◌, ◌++◌, false, Err, IfOk, IsTrue, OnOk, OnErr};
ghost use Rattle.std.specs.Ordering.{is_lt};
ghost use Rattle.tsd_io.specs.Causes.{Rose};
ghost use Rattle.list_lemmas.specs.BytesOrder.{bytes_cmp};
ghost use Rattle.cell_model.specs.declared.row.Row.{Row as AnyRow};
ghost use Rattle.cell_model.specs.Ranges.{InOneRange};
ghost use Rattle.listing_print.specs.StoreRows.{TookRows, TookSome, row_at};

use crate::cell_giver::GiveFault;
use crate::line_taker::LineTaker;
use crate::row_walk::walk_row;
use cell_model::Body;
use qual_codec::Bytes;
use row_key::Table;
use std::alloc::{AllocError, Global};
use tsd_io::ports::Sink;

/// Has the lines of the rows of a table taken, from one on and below another, in their order, of which one is held at a time. The range lies
/// within one region.
pub(crate) fn walk_range<B: Body, K: Sink, T: LineTaker>(
    alloc: Global,
    sink: &mut K,
    taker: &mut T,
    body: &B,
    table: Table,
    from: &[u8],
    to: &[u8],
) -> Result<(), GiveFault>
    requires covers { (row : AnyRow) → IsTrue (B.covers body.now row) }
    requires range { InOneRange (B.content body.now).widths table from.now to.now }
    requires forward { is_lt (bytes_cmp to.now from.now) ≡ false }
    ensures ok { OnOk result (TookRows T.took (B.content body.now) (row_at table from.now) (row_at table to.now) (K.held sink.old, taker.old) (K.held sink.new, taker.new)) }
    ensures err { OnErr result (TookSome T.ended (B.content body.now) (row_at table from.now) (K.held sink.old, taker.old) (K.held sink.new, taker.new)) }
    ensures later { K.faults sink.old ≤ K.faults sink.new }
    ensures failed { result ≡ Err GiveFault.Failed → Rose (K.faults sink.old) (K.faults sink.new) }
{
    let first = Bytes::of(alloc, from)?;
    let end = Bytes::of(alloc, to)?;
    walk_until(alloc, sink, taker, body, table, first, &end)
}

/// The same from a row on that goes.
pub(crate) fn walk_until<B: Body, K: Sink, T: LineTaker>(
    alloc: Global,
    sink: &mut K,
    taker: &mut T,
    body: &B,
    table: Table,
    from: Bytes,
    to: &Bytes,
) -> Result<(), GiveFault>
    requires covers { (row : AnyRow) → IsTrue (B.covers body.now row) }
    requires range { InOneRange (B.content body.now).widths table from to.now }
    requires forward { is_lt (bytes_cmp to.now from) ≡ false }
    ensures ok { OnOk result (TookRows T.took (B.content body.now) (row_at table from) (row_at table to.now) (K.held sink.old, taker.old) (K.held sink.new, taker.new)) }
    ensures err { OnErr result (TookSome T.ended (B.content body.now) (row_at table from) (K.held sink.old, taker.old) (K.held sink.new, taker.new)) }
    ensures later { K.faults sink.old ≤ K.faults sink.new }
    ensures failed { result ≡ Err GiveFault.Failed → Rose (K.faults sink.old) (K.faults sink.new) }
{
    let mut next = from;
    for _ in 0..u64::MAX {
        let Some(found) = body.next_row(alloc, table, &next, to)? else {
            return Ok(());
        };
        walk_row(alloc, sink, taker, &found.row, &found.cells)?;
        let after = behind(alloc, found.row.bytes.list())?;
        next = after;
    }
    Err(GiveFault::OutOfMemory)
}

/// The least bytes above these. It fails only for want of memory.
fn behind(alloc: Global, bytes: &[u8]) -> Result<Bytes, AllocError>
    ensures { IfOk result (λ made. made ≡ bytes.now ++ 0 ∷ []) }
{
    let mut more = Vec::from_slice(alloc, bytes)?;
    more.push(0)?;
    Bytes::of(alloc, more.as_slice())
}
