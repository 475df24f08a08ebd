//! Why series aren't told.
ghost use Rattle.std.specs.Prelude.{◌≡◌};
ghost use Rattle.series_meta.specs.MetaFaults.{IsOfSteps, meta_fault, text_fault};
ghost use Rattle.series_meta.specs.declared.meta_faults.SeriesFault.TheVariants as text;

use metric_scan::AskFault;
use query_text::queries::QueryFault;
use std::alloc::{AllocError, AllocFailed};
use tsd_base::kinds::Kind;
use tsd_base::names::Name;

/// Why a text asks for no series.
#[derive(Clone, Copy, Debug, PartialEq, Eq)]
pub enum SeriesFault {
    /// With the aggregator `none` before it the text is no query's, or it has a downsample, or more than one part in braces.
    BadSeries,
    /// There was no memory for what the text asks.
    OutOfMemory,
}

impl From<AllocError> for SeriesFault {
    ghost from_gives = { λ _ answer. answer ≡ text.OutOfMemory };

    fn from(_failed: AllocError) -> SeriesFault {
        SeriesFault::OutOfMemory
    }
}

impl<T: Drop> From<AllocFailed<T>> for SeriesFault {
    ghost from_gives = { λ _ answer. answer ≡ text.OutOfMemory };

    fn from(_failed: AllocFailed<T>) -> SeriesFault {
        SeriesFault::OutOfMemory
    }
}

/// Why a text asks for no series, where as a query's it has this fault.
pub(crate) fn text_fault(fault: QueryFault) -> SeriesFault
    ensures { result ≡ text_fault fault }
{
    match fault {
        QueryFault::BadM { .. } => SeriesFault::BadSeries,
        QueryFault::UnknownAggregator => SeriesFault::BadSeries,
        QueryFault::RateRefused => SeriesFault::BadSeries,
        QueryFault::BadDownsample => SeriesFault::BadSeries,
        QueryFault::BadFilter { .. } => SeriesFault::BadSeries,
        QueryFault::BadTimes => SeriesFault::BadSeries,
        QueryFault::BadQuery => SeriesFault::BadSeries,
        QueryFault::TooManyQueries { .. } => SeriesFault::BadSeries,
        QueryFault::OutOfMemory => SeriesFault::OutOfMemory,
    }
}

/// Why series, or the last point of one, aren't told.
#[derive(Debug, Drop)]
pub enum MetaFault {
    /// A name of this kind that is asked for is no series' name: a read found no id of it. Those before it are. The metric comes first, and
    /// then each key before its value.
    Unknown { kind: Kind, name: Name },
    /// The last time in reach has two values: `a` is that of the first data point there, and `b` that of the first behind it with another
    /// value, cell by cell and within the column of appends in its order.
    Duplicate { time: u64, a: i64, b: i64 },
    /// There was no memory for the answer.
    OutOfMemory,
    /// The caller was stopped before one of the steps.
    Stopped,
}

/// A fault of the steps that ask for series.
pub(crate) fn meta_fault(fault: AskFault) -> MetaFault
    requires { IsOfSteps fault }
    ensures { result ≡ meta_fault fault }
{
    match fault {
        AskFault::TooManyBuckets { .. } | AskFault::BadFilter { .. } => unreachable!(),
        AskFault::Unknown { kind, name } => MetaFault::Unknown { kind, name },
        AskFault::Duplicate { time, a, b } => MetaFault::Duplicate { time, a, b },
        AskFault::Overflow { .. } => unreachable!(),
        AskFault::OutOfMemory => MetaFault::OutOfMemory,
        AskFault::Stopped => MetaFault::Stopped,
    }
}
