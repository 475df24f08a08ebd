//! Why a request about names can't be answered.
ghost use Rattle.std.specs.Prelude.{◌≡◌, ◌++◌, OnOk, OnErr};
ghost use Rattle.name_requests.specs.declared.fault.AssignFault.TheVariants as assign;
ghost use Rattle.name_requests.specs.declared.fault.SuggestFault.TheVariants as suggest;
ghost use Rattle.name_requests.specs.RequestFaults.{assign_fault_text, suggest_fault_text};

use std::alloc::{AllocError, AllocFailed};

/// Why a request names nothing that could be given ids.
#[derive(Clone, Copy, Debug, PartialEq, Eq)]
pub enum AssignFault {
    /// The body is no JSON.
    NotJson,
    /// The body is no object, or a list in it is no array of strings.
    BadLists,
    /// None of the lists is there.
    NothingToAssign,
    /// There was no memory for the lists.
    OutOfMemory,
}

impl AssignFault {
    /// Writes why nothing can be given ids, behind what was written before. It fails only for want of memory, and then nothing is
    /// written.
    #[tactic(auto, unfolding(crate::specs::RequestFaults::assign_fault_text))]
    pub fn write_text(&self, out: &mut Vec<u8>) -> Result<(), AllocError>
        ensures ok { OnOk result (out.new.items ≡ out.old.items ++ assign_fault_text self.now) }
        ensures err { OnErr result (out.new.items ≡ out.old.items) }
    {
        match self {
            AssignFault::NotJson => out.extend_from_slice(b"body is not JSON"),
            AssignFault::BadLists => out.extend_from_slice(b"bad lists"),
            AssignFault::NothingToAssign => out.extend_from_slice(b"nothing to assign"),
            AssignFault::OutOfMemory => out.extend_from_slice(b"out of memory"),
        }
    }
}

impl From<AllocError> for AssignFault {
    ghost from_gives = { λ _ fault. fault ≡ assign.OutOfMemory };

    fn from(_failed: AllocError) -> AssignFault {
        AssignFault::OutOfMemory
    }
}

impl<T: Drop> From<AllocFailed<T>> for AssignFault {
    ghost from_gives = { λ _ fault. fault ≡ assign.OutOfMemory };

    fn from(_failed: AllocFailed<T>) -> AssignFault {
        AssignFault::OutOfMemory
    }
}

/// Why a request doesn't say what is to be suggested.
#[derive(Clone, Copy, Debug, PartialEq, Eq)]
pub enum SuggestFault {
    /// The body is no JSON.
    NotJson,
    /// The body is no object, or its prefix is no string.
    BadRequest,
    /// The type is missing, or none of `metrics`, `tagk` and `tagv`.
    BadType,
    /// The greatest number of names is no number from 1 to 10,000.
    BadMax,
    /// There was no memory for the request.
    OutOfMemory,
}

impl SuggestFault {
    /// Writes why nothing can be suggested, behind what was written before. It fails only for want of memory, and then nothing is
    /// written.
    #[tactic(auto, unfolding(crate::specs::RequestFaults::suggest_fault_text))]
    pub fn write_text(&self, out: &mut Vec<u8>) -> Result<(), AllocError>
        ensures ok { OnOk result (out.new.items ≡ out.old.items ++ suggest_fault_text self.now) }
        ensures err { OnErr result (out.new.items ≡ out.old.items) }
    {
        match self {
            SuggestFault::NotJson => out.extend_from_slice(b"body is not JSON"),
            SuggestFault::BadRequest => out.extend_from_slice(b"bad request"),
            SuggestFault::BadType => out.extend_from_slice(b"bad type"),
            SuggestFault::BadMax => out.extend_from_slice(b"bad max"),
            SuggestFault::OutOfMemory => out.extend_from_slice(b"out of memory"),
        }
    }
}

impl From<AllocError> for SuggestFault {
    ghost from_gives = { λ _ fault. fault ≡ suggest.OutOfMemory };

    fn from(_failed: AllocError) -> SuggestFault {
        SuggestFault::OutOfMemory
    }
}
