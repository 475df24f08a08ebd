//! Why a query isn't answered.
ghost use Rattle.std.specs.Prelude.{◌≡◌};
ghost use Rattle.metric_scan.specs.declared.fault.AskFault.TheVariants.{OutOfMemory};
ghost use Rattle.metric_scan.specs.AskFaults.{ask_fault};

use cell_model::answers::RowsFault;
use std::alloc::{AllocError, AllocFailed};
use tsd_base::kinds::Kind;
use tsd_base::names::Name;

/// Why a query isn't answered: the fault of its first sub query that has one.
#[derive(Debug, Drop)]
pub enum AskFault {
    /// The sub query has `count` buckets, more than 1,000,000.
    TooManyBuckets { count: u64 },
    /// The engine answered a syntax error for the pattern of the filter at this place of the sub query, and for that of none before it.
    BadFilter { index: usize },
    /// A name of this kind that the sub query has is no series' name. Those before it in its text are.
    Unknown { kind: Kind, name: Name },
    /// A row that was read and passes the filters has two values at this time: `a` is that of the first data point there, and `b` that of the first
    /// behind it with another value, cell by cell and within the column of appends in its order. It is the first such row, and its least such time. Each row below it with a reading that is asked for, which
    /// was there before the sub query's first step, was read before it.
    Duplicate { time: u64, a: i64, b: i64 },
    /// A sum leaves `i64`. Of the first group that has such a sum it is the least bucket of one of its series, and where there is none
    /// the least time of the group.
    Overflow { time: u64 },
    /// There was no memory for the query.
    OutOfMemory,
    /// The caller was stopped before one of the steps.
    Stopped,
}

impl From<RowsFault> for AskFault {
    ghost from_gives = { λ fault answer. answer ≡ ask_fault fault };

    fn from(fault: RowsFault) -> AskFault {
        match fault {
            RowsFault::OutOfMemory => AskFault::OutOfMemory,
            RowsFault::Stopped => AskFault::Stopped,
        }
    }
}

impl From<AllocError> for AskFault {
    ghost from_gives = { λ _ answer. answer ≡ OutOfMemory };

    fn from(_failed: AllocError) -> AskFault {
        AskFault::OutOfMemory
    }
}

impl<T: Drop> From<AllocFailed<T>> for AskFault {
    ghost from_gives = { λ _ answer. answer ≡ OutOfMemory };

    fn from(_failed: AllocFailed<T>) -> AskFault {
        AskFault::OutOfMemory
    }
}
