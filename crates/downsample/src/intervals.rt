//! Buckets: the times from one multiple of an interval to the next.
ghost use Rattle.std.specs.Prelude.{◌≡◌, ◌≤◌, ◌<◌, ◌+◌, ◌-◌, length};
ghost use Rattle.std.specs.List.{AllWithin};
ghost use Rattle.tsd_base.specs.declared.times.TheConstants.{LAST_TIME};
ghost use Rattle.tsd_base.specs.Dots.{IsRising};
ghost use Rattle.downsample.specs.Buckets.{bucket_of, all_buckets};

/// How many buckets there are from the one of `start` to that of `end`, these two included. Times and interval are in
/// milliseconds.
pub fn buckets(start: u64, end: u64, interval: u64) -> u64
    requires interval { 1 ≤ interval }
    requires order { start ≤ end }
    requires end { end ≤ LAST_TIME }
    ensures { result ≡ length (all_buckets interval start end) }
{
    end / interval - start / interval + 1
}

/// The time at which the bucket of a time begins.
#[inline]
pub fn bucket_of(interval: u64, time: u64) -> u64
    requires { 1 ≤ interval }
    ensures { result ≡ bucket_of interval time }
{
    time - time % interval
}

/// The place behind the points of a bucket, the first of which would be at `from`.
pub fn behind_bucket(list: &[(u64, i64)], from: usize, bucket: u64, interval: u64) -> usize
    requires rising { IsRising list.now }
    requires from { from ≤ length list.now }
    requires late { AllWithin (λ p. bucket ≤ p.0) list.now from (length list.now) }
    ensures from { from ≤ result }
    ensures within { result ≤ length list.now }
    ensures in_bucket { AllWithin (λ p. p.0 < bucket + interval) list.now from result }
    ensures behind { AllWithin (λ p. bucket + interval ≤ p.0) list.now result (length list.now) }
{
    let mut at = from;
    while at < list.len() && list[at].0 - bucket < interval {
        at += 1;
    }
    at
}
