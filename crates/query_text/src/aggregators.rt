//! Aggregators in text.
ghost use Rattle.std.specs.Prelude.{◌≡◌};
ghost use Rattle.query_text.specs.Aggregators.{aggregator_named};

use tsd_base::kinds::Aggregator;

/// The aggregator with this name, if there is one.
pub fn aggregator_named(name: &[u8]) -> Option<Aggregator>
    ensures { result ≡ aggregator_named name.now }
{
    let how = if name == b"sum".as_slice() {
        Aggregator::Sum
    } else if name == b"min".as_slice() {
        Aggregator::Min
    } else if name == b"max".as_slice() {
        Aggregator::Max
    } else if name == b"avg".as_slice() {
        Aggregator::Avg
    } else if name == b"count".as_slice() {
        Aggregator::Count
    } else if name == b"zimsum".as_slice() {
        Aggregator::Zimsum
    } else if name == b"mimmin".as_slice() {
        Aggregator::Mimmin
    } else if name == b"mimmax".as_slice() {
        Aggregator::Mimmax
    } else if name == b"none".as_slice() {
        Aggregator::NoneOf
    } else {
        return None;
    };
    Some(how)
}
