//! Texts that ask for series.
ghost use Rattle.std.specs.Prelude.{◌≡◌, ◌++◌, codes, OnOk, IfOk, Result};
ghost use Rattle.series_meta.specs.LookupTexts.{GivesSeries, has_text_test, has_two_parts};

use crate::meta_faults::{SeriesFault, text_fault};
use query_text::cuts::{cut, place_of};
use query_text::queries::{Filter, Sub};
use query_text::subs::read_m;
use std::alloc::{AllocError, Global};

/// Whether a text has more than one part in braces.
fn has_two_parts(text: &[u8]) -> bool
    ensures { result ≡ has_two_parts text.now }
{
    match cut(text, b'{') {
        (_, Some(rest)) => place_of(rest, b'{').is_some(),
        (_, None) => false,
    }
}

/// Whether a filter tests the text of a value, and not names alone.
pub(crate) fn has_text_test(filters: &[Filter]) -> bool
    ensures { result ≡ has_text_test filters.now }
{
    filters.iter().any(|filter| filter.test.is_of_text())
}

/// The text with the aggregator `none` before it.
fn with_none(alloc: Global, text: &[u8]) -> Result<Vec<u8>, AllocError>
    ensures { IfOk result (λ whole. whole.items ≡ codes "none:" ++ text.now) }
{
    let mut whole = Vec::new(alloc);
    whole.extend_from_slice(b"none:")?;
    whole.extend_from_slice(text)?;
    Ok(whole)
}

/// Reads a text that asks for the series of a metric which pass filters, as `m` and `m{host=a|b,dc=*}`.
///
/// `BadSeries` exactly where the text, with `none:` before it, is no query's, or has a downsample, more than one part in braces, or a filter
/// by `wildcard(..)` or `regexp(..)`.
pub fn read_series(alloc: Global, text: &[u8]) -> Result<Sub, SeriesFault>
    ensures { GivesSeries result text.now }
{
    if has_two_parts(text) {
        return Err(SeriesFault::BadSeries);
    }
    let whole = with_none(alloc, text)?;
    match read_m(alloc, &whole, true) {
        Ok(sub) => match sub.down {
            Some(_) => Err(SeriesFault::BadSeries),
            None if has_text_test(sub.filters.list()) => Err(SeriesFault::BadSeries),
            None => Ok(sub),
        },
        Err(fault) => Err(text_fault(fault)),
    }
}
