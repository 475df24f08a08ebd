//! The rows of a metric that pass filters, collected as the points of series by the ids of their tags.
ghost use Rattle.std.specs.Prelude.{◌≡◌, ◌≤◌, [], ℕ, List, length, All, OnOk};
ghost use Rattle.qual_codec.specs.CellDots.{Reads};
ghost use Rattle.cell_model.specs.Seen.{IsPossible};
ghost use Rattle.cell_model.specs.Calls.{Leaves};
ghost use Rattle.cell_model.specs.Layout.{base_time};
ghost use Rattle.tsd_base.specs.Dots.{IsAboveAll};
ghost use Rattle.span_merge.specs.Spans.{KeepsSpans, Span, TakesLater, dots_of};
ghost use Rattle.query_text.specs.declared.queries.Filter.{Filter};
ghost use Rattle.metric_scan.specs.AskFaults.{is_stop};
ghost use Rattle.query_run.specs.ValueJudges.{AreFresh, filters_of};
ghost use Rattle.metric_scan.specs.Walks.{HasWalked, row_range};
ghost use Rattle.query_run.specs.Collection.{AddsKept, CanTake, CollectSays, LeftSays, MayTake, StandsBehind, TakesPicked, TakesRow};

use crate::row_dots::row_dots;
use crate::value_judges::{ValueJudge, suits};
use cell_model::row::{Cells, Found};
use cell_model::rows::Rows;
use metric_scan::fault::AskFault;
use metric_scan::metric_rows::MetricRows;
use metric_scan::row_names::IdNames;
use metric_scan::row_turn::RowTurn;
use row_key::RowKey;
use span_merge::spans::Spans;
use std::alloc::{AllocError, Global};
use tsd_base::dots::Dots;
use tsd_base::kinds::Down;
use uid_table::uids::Uids;

/// What is kept of the points of series by the ids of their tags, and the names of these ids.
#[derive(Drop)]
pub(crate) struct Collected {
    pub(crate) spans: Spans,
    pub(crate) names: IdNames,
}

/// Adds points to those of a series, where there are any.
fn add_dots(
    alloc: Global,
    spans: &mut Spans,
    how: Option<Down>,
    pairs: &[(u32, u32)],
    dots: Dots,
) -> Result<(), AllocError>
    requires later { TakesLater how spans.old pairs.now dots }
    ensures { OnOk result ((series : List Span) → KeepsSpans how spans.old series → All (λ d. IsAboveAll d.0 (dots_of series pairs.now)) dots → AddsKept how series pairs.now dots spans.new) }
{
    if dots.list().is_empty() {
        return Ok(());
    }
    spans.add(alloc, how, pairs, dots)
}

/// Adds the points of a picked row from `start` to `end` to those of its series.
fn take_row(
    alloc: Global,
    how: Option<Down>,
    start: u64,
    end: u64,
    key: &RowKey,
    cells: &Cells,
    spans: &mut Spans,
) -> Result<(), AskFault>
    requires reads { All (λ c. Reads c.qual c.value) cells.now }
    requires from_on { base_time start ≤ key.now.base }
    requires up_to { key.now.base ≤ base_time end }
    requires behind { MayTake how spans.old key.now }
    ensures { (series : List Span) → KeepsSpans how spans.old series → StandsBehind series key.now → TakesRow how key.now cells.now start end series result spans.new }
{
    let dots = row_dots(alloc, cells, key.base, start, end)?;
    add_dots(alloc, spans, how, key.pairs.as_slice(), dots)?;
    Ok(())
}

/// Adds the points of a picked row, where its values pass the tests of text.
fn take_picked(
    alloc: Global,
    rows: &MetricRows,
    judges: &mut Vec<ValueJudge<'_>>,
    how: Option<Down>,
    start: u64,
    end: u64,
    key: RowKey,
    found: Found,
    spans: &mut Spans,
) -> Result<(), AskFault>
    requires { CanTake rows.now judges.old.items how spans.old key found.cells start end }
    ensures { TakesPicked rows.now judges.old.items how key found.cells start end result judges.new.items spans.old spans.new }
{
    if !suits(judges, rows.names(), rows.filters(), key.pairs.as_slice())? {
        return Ok(());
    }
    take_row(alloc, how, start, end, &key, &found.cells, spans)
}

/// Collects what is left of the picked rows whose values pass the tests of text.
fn collect_left<R: Rows + Drop>(
    alloc: Global,
    names: &mut Uids<R>,
    rows: &mut MetricRows,
    judges: &mut Vec<ValueJudge<'_>>,
    how: Option<Down>,
    start: u64,
    end: u64,
    spans: &mut Spans,
) -> Result<(), AskFault>
    requires as_many { length judges.old.items ≡ length rows.old.filters.items }
    requires fresh { (filters : List Filter) × AreFresh filters judges.old.items }
    requires begun { (id : ℕ) × HasWalked (row_range id start end (R.seen names.old.rows)) [] [] rows.old (R.seen names.old.rows) }
    requires possible { IsPossible (R.seen names.old.rows) }
    requires none { spans.old ≡ [] }
    ensures says { (id : ℕ) → HasWalked (row_range id start end (R.seen names.old.rows)) [] [] rows.old (R.seen names.old.rows) → LeftSays (row_range id start end (R.seen names.old.rows)) rows.old.filters.items (filters_of judges.old.items) how result rows.new spans.new (R.seen names.new.rows) }
    ensures leaves { Leaves is_stop result (R.seen names.new.rows) (R.stops names.old.rows) (R.stops names.new.rows) }
{
    for _ in 0..u64::MAX {
        match rows.turn(alloc, names)? {
            RowTurn::End => return Ok(()),
            RowTurn::Passed => {}
            RowTurn::Picked { key, found } => {
                take_picked(alloc, rows, judges, how, start, end, key, found, spans)?;
            }
        }
    }
    Err(AskFault::OutOfMemory)
}

/// Collects the picked rows whose values pass the tests of text, with the points from `start` to `end`. `how` is how the series are downsampled
/// at the end.
pub(crate) fn collect<R: Rows + Drop>(
    alloc: Global,
    names: &mut Uids<R>,
    mut rows: MetricRows,
    mut judges: Vec<ValueJudge<'_>>,
    how: Option<Down>,
    start: u64,
    end: u64,
) -> Result<Collected, AskFault>
    requires as_many { length judges.items ≡ length rows.filters.items }
    requires fresh { (filters : List Filter) × AreFresh filters judges.items }
    requires begun { (id : ℕ) × HasWalked (row_range id start end (R.seen names.old.rows)) [] [] rows (R.seen names.old.rows) }
    requires possible { IsPossible (R.seen names.old.rows) }
    ensures says { (id : ℕ) → HasWalked (row_range id start end (R.seen names.old.rows)) [] [] rows (R.seen names.old.rows) → CollectSays (row_range id start end (R.seen names.old.rows)) rows.filters.items (filters_of judges.entry.items) how result (R.seen names.new.rows) }
    ensures leaves { Leaves is_stop result (R.seen names.new.rows) (R.stops names.old.rows) (R.stops names.new.rows) }
{
    let mut spans = Spans::make(alloc);
    collect_left(
        alloc,
        names,
        &mut rows,
        &mut judges,
        how,
        start,
        end,
        &mut spans,
    )?;
    Ok(Collected {
        spans,
        names: rows.into_names(),
    })
}
