//! At how many times series have points, by the ids of their tags.
ghost use Rattle.std.specs.Prelude.{◌≡◌, OnOk, All};
ghost use Rattle.qual_codec.specs.CellDots.{Reads};
ghost use Rattle.series_meta.specs.SeriesCounts.{AddsCount, CountsRow};

use crate::row_count::row_count;
use crate::series_ids::SeriesIds;
use cell_model::Found;
use row_key::RowKey;
use std::alloc::{AllocError, Global};
use std::collections::BTreeMap;

/// At how many times the series of a metric have points.
#[derive(Drop)]
pub(crate) struct SeriesCounts {
    /// The metric's id, once a series was counted.
    pub(crate) metric: u32,
    pub(crate) counts: BTreeMap<SeriesIds, u64>,
}

/// Adds so many times to those of the series with these ids.
fn add_count(
    counts: &mut BTreeMap<SeriesIds, u64>,
    ids: SeriesIds,
    count: u64,
) -> Result<(), AllocError>
    ensures { OnOk result (AddsCount counts.old ids count counts.new) }
{
    if let Some(sum) = counts.get_mut(&ids) {
        let Some(more) = sum.checked_add(count) else {
            return Err(AllocError);
        };
        *sum = more;
        return Ok(());
    }
    counts.insert(ids, count)?;
    Ok(())
}

/// Counts the times of a row for its series, where it has any.
pub(crate) fn count_row(
    alloc: Global,
    key: RowKey,
    found: Found,
    series: &mut SeriesCounts,
) -> Result<(), AllocError>
    requires { All (λ c. Reads c.qual c.value) found.cells }
    ensures { OnOk result (CountsRow series.old key found.cells series.new) }
{
    let count = row_count(alloc, &found.cells)?;
    if count == 0 {
        return Ok(());
    }
    series.metric = key.metric;
    add_count(&mut series.counts, SeriesIds { pairs: key.pairs }, count)
}
