//! The faults of series as those of queries.
ghost use Rattle.std.specs.Prelude.{◌≡◌};
ghost use Rattle.http_series.specs.SeriesAnswers.{query_fault};

use metric_scan::AskFault;
use series_meta::MetaFault;

/// The fault of a query whose text and cause are those of a fault of series.
pub fn query_fault(fault: MetaFault) -> AskFault
    ensures { result ≡ query_fault fault }
{
    match fault {
        MetaFault::Unknown { kind, name } => AskFault::Unknown { kind, name },
        MetaFault::Duplicate { time, a, b } => AskFault::Duplicate { time, a, b },
        MetaFault::OutOfMemory => AskFault::OutOfMemory,
        MetaFault::Stopped => AskFault::Stopped,
    }
}
