//! The lines of all cells of a store, of which one row is held at a time.
ghost use Rattle.std.specs.Prelude.{◌≡◌, ◌≤◌, ◌+◌, [], ◌∷◌, ◌++◌, length, Err, IsTrue, OnOk, OnErr};
ghost use Rattle.std.specs.Io.KnownBytes.{Appends};
ghost use Rattle.tsd_io.specs.Causes.{Rose};
ghost use Rattle.row_key.specs.declared.tables.Table.TheVariants.{Ids, Names, Points};
ghost use Rattle.tsd_base.specs.declared.kinds.Kind.TheVariants.{Metric};
ghost use Rattle.cell_model.specs.declared.row.Row.{Row as AnyRow};
ghost use Rattle.cell_model.specs.Counts.{lines_of};
ghost use Rattle.cell_model.specs.Machine.{counter_of, counter_row};
ghost use Rattle.cell_model.specs.Sound.{IsSound};
ghost use Rattle.cell_listing.specs.Grammar.{cells_text};
ghost use Rattle.row_key.specs.Key.{hour_bytes, most_ids};
ghost use Rattle.listing_print.specs.GivenTexts.{GaveFront};
ghost use Rattle.listing_print.specs.IdsLeft.{all_ids};
ghost use Rattle.listing_print.specs.MetricRows.{metric_end};
ghost use Rattle.listing_print.specs.StoreRows.{TookRows, TookSome, lines_from, row_at};

use crate::cell_giver::{GiveFault, give_text};
use crate::ids_left::{IdsLeft, all_ids, least_of, passed_all};
use crate::line_taker::LineTaker;
use crate::line_texts::LineTexts;
use crate::range_walk::{walk_range, walk_until};
use crate::row_walk::walk_row;
use arrayvec::ArrayVec;
use cell_model::{Body, Row};
use qual_codec::Bytes;
use row_key::{Table, Widths, id_bytes};
use std::alloc::Global;
use tsd_io::ports::Sink;

/// Gives the lines of all cells of a sound store, in their order, piece by piece. One row is held at a time, and no more than a piece and a
/// line of the text. Where the sink fails or memory runs out a front of the lines was given.
pub fn give_body<B: Body, K: Sink>(alloc: Global, sink: &mut K, body: &B) -> Result<(), GiveFault>
    requires covers { (row : AnyRow) → IsTrue (B.covers body.now row) }
    requires sound { IsSound (B.content body.now) }
    ensures ok { OnOk result (Appends (K.held sink.old) (K.held sink.new) (cells_text (lines_of (B.content body.now)))) }
    ensures err { OnErr result (GaveFront (K.held sink.old) (K.held sink.new) (cells_text (lines_of (B.content body.now)))) }
    ensures later { K.faults sink.old ≤ K.faults sink.new }
    ensures failed { result ≡ Err GiveFault.Failed → Rose (K.faults sink.old) (K.faults sink.new) }
{
    let mut texts = LineTexts::make(alloc);
    walk_body(alloc, sink, &mut texts, body)?;
    give_text(sink, &texts.text)?;
    Ok(())
}

/// Has the lines of all cells of a sound store taken, in their order. One row is held at a time.
pub fn walk_body<B: Body, K: Sink, T: LineTaker>(
    alloc: Global,
    sink: &mut K,
    taker: &mut T,
    body: &B,
) -> Result<(), GiveFault>
    requires covers { (row : AnyRow) → IsTrue (B.covers body.now row) }
    requires sound { IsSound (B.content body.now) }
    ensures ok { OnOk result (T.took (lines_of (B.content body.now)) (K.held sink.old, taker.old) (K.held sink.new, taker.new)) }
    ensures err { OnErr result (T.ended (lines_of (B.content body.now)) (K.held sink.old, taker.old) (K.held sink.new, taker.new)) }
    ensures later { K.faults sink.old ≤ K.faults sink.new }
    ensures failed { result ≡ Err GiveFault.Failed → Rose (K.faults sink.old) (K.faults sink.new) }
{
    let ids = all_ids(body);
    walk_names(alloc, sink, taker, body)?;
    walk_ids(alloc, sink, taker, body, ids)?;
    walk_points(alloc, sink, taker, body, ids.metric.last)
}

/// Has the lines of the counters and of the names taken.
fn walk_names<B: Body, K: Sink, T: LineTaker>(
    alloc: Global,
    sink: &mut K,
    taker: &mut T,
    body: &B,
) -> Result<(), GiveFault>
    requires covers { (row : AnyRow) → IsTrue (B.covers body.now row) }
    requires sound { IsSound (B.content body.now) }
    ensures ok { OnOk result (TookRows T.took (B.content body.now) (row_at Ids []) (row_at Names []) (K.held sink.old, taker.old) (K.held sink.new, taker.new)) }
    ensures err { OnErr result (TookSome T.ended (B.content body.now) (row_at Ids []) (K.held sink.old, taker.old) (K.held sink.new, taker.new)) }
    ensures later { K.faults sink.old ≤ K.faults sink.new }
    ensures failed { result ≡ Err GiveFault.Failed → Rose (K.faults sink.old) (K.faults sink.new) }
{
    walk_counters(alloc, sink, taker, body)?;
    walk_range(alloc, sink, taker, body, Table::Ids, b"\x01", b"A")?;
    walk_range(alloc, sink, taker, body, Table::Ids, b"A", b"a")?;
    walk_range(alloc, sink, taker, body, Table::Ids, b"a", b"n")?;
    walk_range(alloc, sink, taker, body, Table::Ids, b"n", b"{")?;
    Ok(())
}

/// Has the lines of the counters taken.
fn walk_counters<B: Body, K: Sink, T: LineTaker>(
    alloc: Global,
    sink: &mut K,
    taker: &mut T,
    body: &B,
) -> Result<(), GiveFault>
    requires covers { (row : AnyRow) → IsTrue (B.covers body.now row) }
    requires sound { IsSound (B.content body.now) }
    ensures ok { OnOk result (TookRows T.took (B.content body.now) (row_at Ids []) (row_at Ids (1 ∷ [])) (K.held sink.old, taker.old) (K.held sink.new, taker.new)) }
    ensures err { OnErr result (TookSome T.ended (B.content body.now) (row_at Ids []) (K.held sink.old, taker.old) (K.held sink.new, taker.new)) }
    ensures later { K.faults sink.old ≤ K.faults sink.new }
    ensures failed { result ≡ Err GiveFault.Failed → Rose (K.faults sink.old) (K.faults sink.new) }
{
    let row = counters();
    let cells = body.read(alloc, &row)?;
    walk_row(alloc, sink, taker, &row, &cells)
}

/// The row of the counters.
fn counters() -> Row
    ensures { result ≡ counter_row }
{
    Row {
        table: Table::Ids,
        bytes: Bytes::short([0].as_slice()),
    }
}

/// Has the lines of the ids that are left taken, in the order of their bytes. Ids of several kinds with the same bytes are one row.
fn walk_ids<B: Body, K: Sink, T: LineTaker>(
    alloc: Global,
    sink: &mut K,
    taker: &mut T,
    body: &B,
    all: IdsLeft,
) -> Result<(), GiveFault>
    requires covers { (row : AnyRow) → IsTrue (B.covers body.now row) }
    requires sound { IsSound (B.content body.now) }
    requires all { all ≡ all_ids (B.content body.now) }
    ensures ok { OnOk result (TookRows T.took (B.content body.now) (row_at Names []) (row_at Points (metric_end (B.content body.now).widths 0)) (K.held sink.old, taker.old) (K.held sink.new, taker.new)) }
    ensures err { OnErr result (TookSome T.ended (B.content body.now) (row_at Names []) (K.held sink.old, taker.old) (K.held sink.new, taker.new)) }
    ensures later { K.faults sink.old ≤ K.faults sink.new }
    ensures failed { result ≡ Err GiveFault.Failed → Rose (K.faults sink.old) (K.faults sink.new) }
{
    let widths = body.widths();
    let mut ids = all;
    for _ in 0..u64::MAX {
        let Some(bytes) = least_of(widths, ids) else {
            return Ok(());
        };
        let row = Row {
            table: Table::Names,
            bytes,
        };
        let cells = body.read(alloc, &row)?;
        walk_row(alloc, sink, taker, &row, &cells)?;
        ids = passed_all(widths, ids, row.bytes.list());
    }
    Err(GiveFault::OutOfMemory)
}

/// Has the lines of the points of metrics up to this one taken.
fn walk_points<B: Body, K: Sink, T: LineTaker>(
    alloc: Global,
    sink: &mut K,
    taker: &mut T,
    body: &B,
    metrics: u64,
) -> Result<(), GiveFault>
    requires covers { (row : AnyRow) → IsTrue (B.covers body.now row) }
    requires sound { IsSound (B.content body.now) }
    requires all { metrics ≡ counter_of (B.content body.now) Metric }
    ensures ok { OnOk result (T.took (lines_from (B.content body.now) (row_at Points (metric_end (B.content body.now).widths 0))) (K.held sink.old, taker.old) (K.held sink.new, taker.new)) }
    ensures err { OnErr result (TookSome T.ended (B.content body.now) (row_at Points (metric_end (B.content body.now).widths 0)) (K.held sink.old, taker.old) (K.held sink.new, taker.new)) }
    ensures later { K.faults sink.old ≤ K.faults sink.new }
    ensures failed { result ≡ Err GiveFault.Failed → Rose (K.faults sink.old) (K.faults sink.new) }
{
    for before in 0..metrics {
        walk_metric(alloc, sink, taker, body, before)?;
    }
    Ok(())
}

/// Has the lines of the points of the metric behind this one taken.
fn walk_metric<B: Body, K: Sink, T: LineTaker>(
    alloc: Global,
    sink: &mut K,
    taker: &mut T,
    body: &B,
    before: u64,
) -> Result<(), GiveFault>
    requires covers { (row : AnyRow) → IsTrue (B.covers body.now row) }
    requires sound { IsSound (B.content body.now) }
    requires fits { before + 1 ≤ most_ids (B.content body.now).widths.metric }
    ensures ok { OnOk result (TookRows T.took (B.content body.now) (row_at Points (metric_end (B.content body.now).widths before)) (row_at Points (metric_end (B.content body.now).widths (before + 1))) (K.held sink.old, taker.old) (K.held sink.new, taker.new)) }
    ensures err { OnErr result (TookSome T.ended (B.content body.now) (row_at Points (metric_end (B.content body.now).widths before)) (K.held sink.old, taker.old) (K.held sink.new, taker.new)) }
    ensures later { K.faults sink.old ≤ K.faults sink.new }
    ensures failed { result ≡ Err GiveFault.Failed → Rose (K.faults sink.old) (K.faults sink.new) }
{
    let widths = body.widths();
    let metric = (before + 1) as u32;
    let from = hour_row(metric, 0, widths);
    let to = hour_row(metric, u32::MAX, widths);
    walk_until(alloc, sink, taker, body, Table::Points, from, &to)
}

/// The bytes with which the rows of a metric and an hour begin.
fn hour_row(metric: u32, base: u32, widths: Widths) -> Bytes
    ensures { result ≡ hour_bytes widths metric base }
{
    let start = hour_start(metric, base, widths);
    Bytes::short(start.as_slice())
}

/// The same, where they stand in an array.
fn hour_start(metric: u32, base: u32, widths: Widths) -> ArrayVec<u8, 8>
    ensures bytes { result.items ≡ hour_bytes widths metric base }
    ensures short { length result.items ≤ 8 }
{
    let id = id_bytes(metric, widths.metric);
    let mut start = ArrayVec::new();
    let _ = start.try_extend_from_slice(id.as_slice());
    let _ = start.try_extend_from_slice(base.to_be_bytes().as_slice());
    start
}
