//! Series as lines, in the order of their tags.
ghost use Rattle.std.specs.Prelude.{◌≡◌, List, IfOk, Some, ℕ};
ghost use Rattle.std.specs.BTreeMap.{IsOrdered, get};
ghost use Rattle.std.specs.List.{AllZip};
ghost use Rattle.span_merge.specs.Spans.{pairs_cmp};
ghost use Rattle.metric_scan.specs.RowTags.{OneToOne};
ghost use Rattle.metric_scan.specs.Walks.{names_of};
ghost use Rattle.series_meta.specs.SeriesLines.{AreFirst, CanTell, IsLine};

use crate::meta_answers::Line;
use crate::series_ids::SeriesIds;
use crate::series_row::series_id;
use metric_scan::MetricRows;
use row_key::{RowKey, Widths};
use std::alloc::{AllocError, Global};
use std::collections::BTreeMap;

/// The line of a series of this metric.
fn line_of(
    alloc: Global,
    rows: &MetricRows,
    metric: u32,
    ids: SeriesIds,
    count: u64,
    widths: Widths,
) -> Result<Line, AllocError>
    requires one { OneToOne (names_of rows.now) }
    requires series { CanTell (names_of rows.now) widths metric ids }
    ensures { IfOk result (IsLine (names_of rows.now) widths metric (ids, count)) }
{
    let tags = rows.tags(alloc, ids.pairs.as_slice())?;
    let key = RowKey {
        metric,
        base: 0,
        pairs: ids.pairs,
    };
    let tsuid = series_id(alloc, &key, widths)?;
    Ok(Line { tags, tsuid, count })
}

/// The lines of all series of this metric, in the order of their ids.
pub(crate) fn all_lines(
    alloc: Global,
    rows: &MetricRows,
    metric: u32,
    counts: BTreeMap<SeriesIds, u64>,
    widths: Widths,
) -> Result<Vec<Line>, AllocError>
    requires one { OneToOne (names_of rows.now) }
    requires series { (pairs : List (ℕ × ℕ)) (count : ℕ) → get pairs_cmp counts pairs ≡ Some count → CanTell (names_of rows.now) widths metric pairs }
    ensures lines { IfOk result (λ lines. AllZip (IsLine (names_of rows.now) widths metric) counts.entries lines.items) }
    ensures order { IsOrdered pairs_cmp counts }
{
    let mut lines = Vec::with_capacity(alloc, counts.len())?;
    for (ids, count) in counts {
        lines.push(line_of(alloc, rows, metric, ids, count, widths)?)?;
    }
    Ok(lines)
}

/// The first of the lines in the order of their tags' pairs.
pub(crate) fn first_lines(mut lines: Vec<Line>, limit: u32) -> Result<Vec<Line>, AllocError>
    ensures { IfOk result (λ first. AreFirst limit lines.items first.items) }
{
    lines.sort_by(|a, b| a.tags.cmp(&b.tags))?;
    lines.truncate(limit as usize);
    Ok(lines)
}
