//! The buckets of a series, made while its points come.
ghost use Rattle.std.specs.Prelude.{◌≡◌, ◌≤◌, ◌++◌, ◌∷◌, [], List, ℕ, ℤ, OnOk, OnErr};
ghost use Rattle.downsample.specs.Folding.{in_buckets};
ghost use Rattle.downsample.specs.Downsampling.{GivesDown};
ghost use Rattle.tsd_base.specs.Dots.{IsAboveAll, IsRising};
ghost use Rattle.lerp_aggregate.specs.Tally.{HasRoom};
ghost use Rattle.downsample.specs.BucketFolds.{Closes, Finishes, Folds, FoldsBehind, FoldsMore, Follows, Holds, IsLength, IsNext};

use crate::downsampling::DownFault;
use crate::intervals::bucket_of;
use crate::open_bucket::OpenBucket;
use std::alloc::{AllocError, Global};
use tsd_base::dots::Dots;
use tsd_base::kinds::Function;

/// The longest bucket into which points are folded, in milliseconds.
pub const LONGEST: u64 = 1_000_000_000_000_000_000;

/// The closed buckets of a series, and the one of its latest points.
#[derive(Drop)]
pub struct BucketFold {
    /// The length of a bucket, in milliseconds, from 1 to [`LONGEST`].
    pub interval: u64,
    /// What the values of a bucket make.
    pub function: Function,
    closed: Dots,
    latest: Option<OpenBucket>,
    /// The first bucket whose sum left `i64`.
    large: Option<u64>,
}

impl BucketFold {
    /// Of no points.
    pub fn make(alloc: Global, interval: u64, function: Function) -> BucketFold
        requires { IsLength interval }
        ensures interval { result.interval ≡ interval }
        ensures function { result.function ≡ function }
        ensures folds { Folds result [] }
    {
        BucketFold {
            interval,
            function,
            closed: Dots::make(alloc),
            latest: None,
            large: None,
        }
    }

    /// What goes on behind the closed buckets of this one, with its open one.
    fn going_on(&self, alloc: Global) -> BucketFold
        ensures { result ≡ record self.now { closed = [] } }
    {
        BucketFold {
            interval: self.interval,
            function: self.function,
            closed: Dots::make(alloc),
            latest: self.latest,
            large: self.large,
        }
    }

    /// Folds a later point. It fails only for want of memory.
    fn add(&mut self, time: u64, value: i64) -> Result<(), AllocError>
        requires { IsNext self.old time }
        ensures interval { self.new.interval ≡ self.old.interval }
        ensures function { self.new.function ≡ self.old.function }
        ensures ok { OnOk result ((front points : List (ℕ × ℤ)) → FoldsBehind front self.old points → IsAboveAll time points → FoldsBehind front self.new (points ++ (time, value) ∷ [])) }
    {
        if let Some(latest) = &mut self.latest {
            if time - latest.bucket < self.interval {
                latest.add(value);
                return Ok(());
            }
            close(&mut self.closed, &mut self.large, latest, self.function)?;
            *latest = OpenBucket::of(bucket_of(self.interval, time), value);
            return Ok(());
        }
        self.latest = Some(OpenBucket::of(bucket_of(self.interval, time), value));
        Ok(())
    }

    /// The points of all buckets, or the first bucket whose sum leaves `i64`.
    pub fn finish(self) -> Result<Dots, DownFault>
        requires folds { (points : List (ℕ × ℤ)) × Folds self points }
        ensures { (points : List (ℕ × ℤ)) → Folds self points → GivesDown result (in_buckets self.function self.interval points) }
    {
        let BucketFold {
            function,
            closed,
            latest,
            large,
            ..
        } = self;
        match latest {
            Some(latest) => finish_with(closed, large, &latest, function),
            None => Ok(closed),
        }
    }
}

/// What is told of the closed buckets and the open one.
fn finish_with(
    mut closed: Dots,
    mut large: Option<u64>,
    latest: &OpenBucket,
    function: Function,
) -> Result<Dots, DownFault>
    requires holds { (values : List ℤ) × Holds latest.now values }
    requires room { HasRoom latest.now.tally 0 }
    requires above { IsAboveAll latest.now.bucket closed }
    ensures { Finishes function latest.now closed large result }
{
    close(&mut closed, &mut large, latest, function)?;
    match large {
        Some(time) => Err(DownFault::Overflow { time }),
        None => Ok(closed),
    }
}

/// Puts the value of a bucket behind those of the earlier ones, unless a sum has left `i64`. It fails only for want of memory, and then
/// nothing changes.
fn close(
    closed: &mut Dots,
    large: &mut Option<u64>,
    latest: &OpenBucket,
    function: Function,
) -> Result<(), AllocError>
    requires holds { (values : List ℤ) × Holds latest.now values }
    requires room { HasRoom latest.now.tally 0 }
    requires above { IsAboveAll latest.now.bucket closed.old }
    ensures closes { OnOk result (Closes function latest.now closed.old large.old closed.new large.new) }
    ensures dots { OnErr result (closed.new ≡ closed.old) }
    ensures none { OnErr result (large.new ≡ large.old) }
{
    if large.is_some() {
        return Ok(());
    }
    match latest.value(function) {
        Some(value) => closed.push(latest.bucket, value)?,
        None => *large = Some(latest.bucket),
    }
    Ok(())
}

/// Folds later points. It fails only for want of memory, and then nothing changes.
pub fn fold_all(
    alloc: Global,
    fold: &mut BucketFold,
    later: &[(u64, i64)],
) -> Result<(), AllocError>
    requires rising { IsRising later.now }
    requires follows { Follows [] fold.old later.now }
    ensures interval { fold.new.interval ≡ fold.old.interval }
    ensures function { fold.new.function ≡ fold.old.function }
    ensures ok { OnOk result (FoldsMore [] fold.old fold.new later.now) }
    ensures err { OnErr result (fold.new ≡ fold.old) }
{
    let mut more = fold.going_on(alloc);
    fold_each(&mut more, later)?;
    fold.closed.append(&more.closed)?;
    fold.latest = more.latest;
    fold.large = more.large;
    Ok(())
}

/// Folds later points one by one. It fails only for want of memory, and then some of them may be folded.
fn fold_each(fold: &mut BucketFold, later: &[(u64, i64)]) -> Result<(), AllocError>
    requires rising { IsRising later.now }
    requires follows { (front : List (ℕ × ℤ)) × Follows front fold.old later.now }
    ensures interval { fold.new.interval ≡ fold.old.interval }
    ensures function { fold.new.function ≡ fold.old.function }
    ensures ok { OnOk result ((front : List (ℕ × ℤ)) → FoldsMore front fold.old fold.new later.now) }
{
    for dot in later {
        fold.add(dot.0, dot.1)?;
    }
    Ok(())
}
