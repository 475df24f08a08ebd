//! The texts of query faults, which go behind what was written before.
ghost use Rattle.std.specs.Prelude.{◌≡◌, ◌≢◌, ◌++◌, IsOk, OnOk};
ghost use Rattle.query_text.specs.QueryFaultTexts.{query_fault_text};

use crate::queries::QueryFault;
use std::alloc::AllocError;
use tsd_base::decimals::write_number;

impl QueryFault {
    /// Writes why what was read is no query. Want of memory has no text, and fails.
    pub fn write_text(self, out: &mut Vec<u8>) -> Result<(), AllocError>
        ensures text { OnOk result (out.new.items ≡ out.old.items ++ query_fault_text self) }
        ensures told { IsOk result → self ≢ QueryFault.OutOfMemory }
    {
        match self {
            QueryFault::BadM { at } => {
                out.extend_from_slice(b"bad query at byte ")?;
                write_number(at as u64, out)
            }
            QueryFault::UnknownAggregator => out.extend_from_slice(b"unknown aggregator"),
            QueryFault::RateRefused => out.extend_from_slice(b"rate is not supported"),
            QueryFault::BadDownsample => out.extend_from_slice(b"bad downsample"),
            QueryFault::BadFilter { index } => {
                out.extend_from_slice(b"bad filter ")?;
                write_number(index as u64, out)
            }
            QueryFault::BadTimes => out.extend_from_slice(b"bad times"),
            QueryFault::BadQuery => out.extend_from_slice(b"bad request"),
            QueryFault::TooManyQueries { count } => {
                write_number(count as u64, out)?;
                out.extend_from_slice(b" queries (16 at most)")
            }
            QueryFault::OutOfMemory => Err(AllocError),
        }
    }
}
