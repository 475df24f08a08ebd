//! Numbers in arguments.
ghost use Rattle.std.specs.Prelude.{◌≡◌, ◌≤◌, ◌<◌, ◌^◌, option_map, IfSome};
ghost use Rattle.http_series.specs.ArgumentReading.{number_or, number_within, within};

use tsd_base::digits::read_digits;

/// The number that an argument is, between two, both included, or `usual` where there is none.
pub(crate) fn number_or(usual: u32, least: u32, most: u32, text: Option<&str>) -> Option<u32>
    requires least { least ≤ usual }
    requires most { usual ≤ most }
    ensures number { result ≡ number_or usual least most (option_map (λ text. text.now) text.entry) }
    ensures between { IfSome result (λ n. (least ≤ n) × (n ≤ most)) }
{
    match text {
        Some(text) => number_within(least, most, text.as_bytes()),
        None => Some(usual),
    }
}

/// The number that digits are, of any length, between two, both included.
#[tactic(auto, using(crate::proofs::NumberLemmas::within_min))]
fn number_within(least: u32, most: u32, text: &[u8]) -> Option<u32>
    ensures number { result ≡ number_within least most text.now }
    ensures between { IfSome result (λ n. (least ≤ n) × (n ≤ most)) }
{
    within(least, most, read_digits(text)?)
}

/// The number, where it is between two, both included.
fn within(least: u32, most: u32, n: u64) -> Option<u32>
    ensures number { result ≡ within least most n }
    ensures between { IfSome result (λ n. (least ≤ n) × (n ≤ most)) }
{
    if u64::from(least) <= n && n <= u64::from(most) {
        return Some(n as u32);
    }
    None
}
