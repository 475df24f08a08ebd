//! One series.
ghost use Rattle.std.specs.Prelude.{◌≡◌, OnOk, OnErr, IfOk};
ghost use Rattle.span_merge.specs.KeptPoints.{Keeps, KeepsMore, Takes};
ghost use Rattle.span_merge.specs.Spans.{pairs_cmp};

use crate::kept_points::{Kept, keep_more, kept_of};
use std::alloc::{AllocError, Global};
use std::cmp::Ordering;
use tsd_base::dots::Dots;
use tsd_base::kinds::Down;

/// What is kept of the points of one series, under the ids of its tags.
#[derive(Drop)]
pub struct Series {
    /// The ids of its tags: each key's and its value's.
    pub pairs: Vec<(u32, u32)>,
    pub kept: Kept,
}

/// A series of these points.
pub(crate) fn series_of(
    alloc: Global,
    how: Option<Down>,
    pairs: &[(u32, u32)],
    dots: Dots,
) -> Result<Series, AllocError>
    ensures pairs { IfOk result (λ s. s.pairs.items ≡ pairs.now) }
    ensures kept { IfOk result (λ s. Keeps how s.kept dots) }
{
    let kept = kept_of(alloc, how, dots)?;
    let pairs = Vec::from_slice(alloc, pairs)?;
    Ok(Series { pairs, kept })
}

/// Puts later points behind those of a series. It fails only for want of memory, and then nothing changes.
pub(crate) fn append(alloc: Global, series: &mut Series, dots: &Dots) -> Result<(), AllocError>
    requires { Takes series.old.kept dots.now }
    ensures pairs { series.new.pairs.items ≡ series.old.pairs.items }
    ensures ok { OnOk result (KeepsMore series.old.kept series.new.kept dots.now) }
    ensures err { OnErr result (series.new.kept ≡ series.old.kept) }
{
    keep_more(alloc, &mut series.kept, dots)
}

/// How the series stands to these ids.
#[inline]
pub(crate) fn order(series: &Series, pairs: &[(u32, u32)]) -> Ordering
    ensures { result ≡ pairs_cmp series.now.pairs.items pairs.now }
{
    series.pairs.as_slice().cmp(pairs)
}
