//! Series under the names of their tags, in place of the ids.
ghost use Rattle.std.specs.Prelude.{IfOk, List, Contains, Option};
ghost use Rattle.std.specs.List.{AllZip};
ghost use Rattle.span_merge.specs.declared.series.Series as spans;
ghost use Rattle.metric_scan.specs.RowNames.{known};
ghost use Rattle.tsd_base.specs.declared.kinds.Down.{Down};
ghost use Rattle.span_merge.specs.Spans.{KeepsSpans, Span};
ghost use Rattle.metric_scan.specs.RowTags.{ArePairs, OneToOne};
ghost use Rattle.query_run.specs.SeriesTags.{CanTitle, IsRenamed, TitlesKept};

use crate::collection::Collected;
use metric_scan::row_names::IdNames;
use metric_scan::row_tags::tags_of;
use series_groups::named_series::Series;
use span_merge::series::Series as SeriesById;
use std::alloc::{AllocError, Global};

/// Each series with its names.
fn renamed(alloc: Global, names: &IdNames, list: Vec<SeriesById>) -> Result<Vec<Series>, AllocError>
    requires one { OneToOne (known names.now) }
    requires pairs { (s : spans.Series) → Contains list.items s → ArePairs (known names.now) s.pairs.items }
    ensures { IfOk result (λ series. AllZip (IsRenamed (known names.now)) list.items series.items) }
{
    let mut series = Vec::with_capacity(alloc, list.len())?;
    for span in list {
        let SeriesById { pairs, kept } = span;
        let tags = tags_of(alloc, names, pairs.as_slice())?;
        series.push(Series { tags, kept })?;
    }
    Ok(series)
}

/// The series with the names of their tags, rising by these.
pub(crate) fn titled(alloc: Global, collected: Collected) -> Result<Vec<Series>, AllocError>
    requires { (how : Option Down) × (spans : List Span) × KeepsSpans how collected.spans spans × CanTitle (known collected.names) spans }
    ensures { IfOk result (λ series. (how : Option Down) (spans : List Span) → KeepsSpans how collected.spans spans → CanTitle (known collected.names) spans → TitlesKept how (known collected.names) spans series.items) }
{
    let Collected { spans, names } = collected;
    let mut series = renamed(alloc, &names, spans.into_series()?)?;
    series.sort_by(|a, b| a.tags.cmp(&b.tags))?;
    Ok(series)
}
