//! Texts that ask for series.
ghost use Rattle.std.specs.Prelude.{◌≡◌};
ghost use Rattle.http_series.specs.ArgumentReading.{Gives, or_fault};
ghost use Rattle.http_series.specs.SeriesTexts.{series_of};

use crate::argument_fault::ArgumentFault;
use query_text::queries::Sub;
use series_meta::{SeriesFault, read_series};
use std::alloc::Global;

/// The series that a text asks for, or this fault where it asks for none.
pub(crate) fn series_or(
    alloc: Global,
    fault: ArgumentFault,
    text: &[u8],
) -> Result<Sub, ArgumentFault>
    ensures { Gives (λ sub. sub) result (or_fault fault (series_of text.now)) }
{
    match read_series(alloc, text) {
        Ok(sub) => Ok(sub),
        Err(SeriesFault::BadSeries) => Err(fault),
        Err(SeriesFault::OutOfMemory) => Err(ArgumentFault::OutOfMemory),
    }
}
