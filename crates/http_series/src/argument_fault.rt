//! Why the arguments of a request on series ask for nothing.
ghost use Rattle.std.specs.Prelude.{◌≡◌, ◌++◌, OnOk};
ghost use Rattle.http_series.specs.declared.argument_fault.ArgumentFault.TheVariants as argument;
ghost use Rattle.http_series.specs.ArgumentTexts.{argument_fault_text};

use std::alloc::{AllocError, AllocFailed};

/// Why the arguments of a request on series ask for nothing.
#[derive(Clone, Copy, Debug, PartialEq, Eq)]
pub enum ArgumentFault {
    /// The text of a lookup is missing, or asks for no series.
    BadLookup,
    /// The most series that are wanted are no number from 1 to 10,000.
    BadLimit,
    /// There is no text of a series or more than 16, or one of them asks for no series by 1 to 8 different keys with one value each.
    BadTimeseries,
    /// The hours to look back are no number from 0 to 8,784.
    BadBackScan,
    /// There was no memory for the arguments.
    OutOfMemory,
}

impl ArgumentFault {
    /// Writes why nothing is asked for, behind what was written before. It fails only for want of memory.
    #[tactic(auto, unfolding(crate::specs::ArgumentTexts::argument_fault_text))]
    pub fn write_text(&self, out: &mut Vec<u8>) -> Result<(), AllocError>
        ensures { OnOk result (out.new.items ≡ out.old.items ++ argument_fault_text self.now) }
    {
        match self {
            ArgumentFault::BadLookup => out.extend_from_slice(b"bad lookup"),
            ArgumentFault::BadLimit => out.extend_from_slice(b"bad limit"),
            ArgumentFault::BadTimeseries => out.extend_from_slice(b"bad timeseries"),
            ArgumentFault::BadBackScan => out.extend_from_slice(b"bad back_scan"),
            ArgumentFault::OutOfMemory => out.extend_from_slice(b"out of memory"),
        }
    }
}

impl From<AllocError> for ArgumentFault {
    ghost from_gives = { λ _ fault. fault ≡ argument.OutOfMemory };

    fn from(_failed: AllocError) -> ArgumentFault {
        ArgumentFault::OutOfMemory
    }
}

impl<T: Drop> From<AllocFailed<T>> for ArgumentFault {
    ghost from_gives = { λ _ fault. fault ≡ argument.OutOfMemory };

    fn from(_failed: AllocFailed<T>) -> ArgumentFault {
        ArgumentFault::OutOfMemory
    }
}
