//! What is kept of the points of a series.
ghost use Rattle.std.specs.Prelude.{◌≡◌, IfOk, OnOk, OnErr};
ghost use Rattle.std.specs.Bool.{OnTrue};
ghost use Rattle.downsample.specs.BucketFolds.{IsLength};
ghost use Rattle.span_merge.specs.KeptPoints.{Keeps, KeepsMore, Takes};

use downsample::bucket_fold::{BucketFold, LONGEST, fold_all};
use std::alloc::{AllocError, Global};
use tsd_base::dots::Dots;
use tsd_base::kinds::Down;

/// Buckets of at most so many milliseconds have about one point each, or none.
const ONE_POINT: u64 = 1000;

/// The points of a series, or the buckets that they make.
#[derive(Drop)]
pub enum Kept {
    /// The points themselves: nothing is downsampled, or a bucket has about one point.
    Points { dots: Dots },
    /// The buckets so far.
    Buckets { fold: Box<BucketFold> },
}

/// Whether points are folded into the buckets of a downsample.
fn are_folded(down: Down) -> bool
    ensures { OnTrue result (IsLength down.interval) }
{
    ONE_POINT < down.interval && down.interval <= LONGEST
}

/// These points, as they are kept where series are downsampled so. It fails only for want of memory.
pub(crate) fn kept_of(alloc: Global, how: Option<Down>, dots: Dots) -> Result<Kept, AllocError>
    ensures { IfOk result (λ kept. Keeps how kept dots) }
{
    let Some(down) = how else {
        return Ok(Kept::Points { dots });
    };
    if !are_folded(down) {
        return Ok(Kept::Points { dots });
    }
    let mut fold = BucketFold::make(alloc, down.interval, down.function);
    fold_all(alloc, &mut fold, dots.list())?;
    Ok(Kept::Buckets {
        fold: Box::new(alloc, fold)?,
    })
}

/// Adds later points. It fails only for want of memory, and then nothing changes.
pub(crate) fn keep_more(alloc: Global, kept: &mut Kept, later: &Dots) -> Result<(), AllocError>
    requires { Takes kept.old later.now }
    ensures ok { OnOk result (KeepsMore kept.old kept.new later.now) }
    ensures err { OnErr result (kept.new ≡ kept.old) }
{
    match kept {
        Kept::Points { dots } => dots.append(later),
        Kept::Buckets { fold } => fold_all(alloc, &mut **fold, later.list()),
    }
}
