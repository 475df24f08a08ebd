//! Points that are their own downsampled series.
ghost use Rattle.std.specs.Prelude.{◌≡◌, ◌≤◌, All, length};
ghost use Rattle.std.specs.Bool.{OnTrue};
ghost use Rattle.tsd_base.specs.declared.times.TheConstants.{LAST_TIME};
ghost use Rattle.downsample.specs.Buckets.{all_buckets, keeps_one};
ghost use Rattle.downsample.specs.Downsampling.{downsampled, AreBuckets, Begins, GivesDown};

use crate::downsampling::{DownFault, down};
use crate::intervals::bucket_of;
use std::alloc::Global;
use tsd_base::dots::Dots;
use tsd_base::kinds::{Down, Fill, Function};

/// The downsampled series of points that are let go of, as [`crate::down`] makes it of them. Where a bucket begins at each
/// point, and its value stays, it takes no memory.
pub fn down_owned(
    alloc: Global,
    dots: Dots,
    how: Down,
    start: u64,
    end: u64,
) -> Result<Dots, DownFault>
    requires interval { 1 ≤ how.interval }
    requires order { start ≤ end }
    requires end { end ≤ LAST_TIME }
    requires few { how.fill ≡ Fill.Zero → length (all_buckets how.interval start end) ≤ 1000000 }
    ensures { GivesDown result (downsampled how start end dots) }
{
    if are_buckets(dots.list(), how) {
        return Ok(dots);
    }
    down(alloc, &dots, how, start, end)
}

/// Whether the points are their own downsampled series.
fn are_buckets(list: &[(u64, i64)], how: Down) -> bool
    requires { 1 ≤ how.interval }
    ensures { OnTrue result (AreBuckets how list.now) }
{
    match how.fill {
        Fill::NoFill => keeps_one(how.function) && all_begin(list, how.interval),
        Fill::Zero => false,
    }
}

/// Whether the function makes a value of itself alone.
fn keeps_one(function: Function) -> bool
    ensures { result ≡ keeps_one function }
{
    match function {
        Function::Count => false,
        Function::Sum => true,
        Function::Min => true,
        Function::Max => true,
        Function::Avg => true,
        Function::First => true,
        Function::Last => true,
        Function::Zimsum => true,
        Function::Mimmin => true,
        Function::Mimmax => true,
    }
}

/// The usual interval, in milliseconds: that of points in seconds.
const SECOND: u64 = 1000;

/// Whether a bucket begins at each point. By the usual interval, which is known here, times are divided sooner.
fn all_begin(list: &[(u64, i64)], interval: u64) -> bool
    requires { 1 ≤ interval }
    ensures { OnTrue result (All (Begins interval) list.now) }
{
    if interval == SECOND {
        return each_begins(list, SECOND);
    }
    each_begins(list, interval)
}

/// Whether a bucket begins at each point.
#[inline(always)]
fn each_begins(list: &[(u64, i64)], interval: u64) -> bool
    requires { 1 ≤ interval }
    ensures { OnTrue result (All (Begins interval) list.now) }
{
    for dot in list {
        if !begins(interval, dot.0, dot.1) {
            return false;
        }
    }
    true
}

/// Whether a bucket begins at this time. A value of an `i64` fits.
#[inline(always)]
fn begins(interval: u64, time: u64, _value: i64) -> bool
    requires { 1 ≤ interval }
    ensures { OnTrue result (Begins interval (time, _value)) }
{
    if bucket_of(interval, time) != time {
        return false;
    }
    true
}
