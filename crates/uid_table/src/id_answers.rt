//! What resolving and assigning answer.
ghost use Rattle.std.specs.Prelude.{◌≡◌};
ghost use Rattle.uid_table.specs.IdAnswers.{answered_id, resolve_fault, assign_fault};

use cell_model::answers::RowsFault;
use tsd_base::kinds::Kind;

/// How a name has an id.
#[derive(Clone, Copy, Debug, PartialEq, Eq)]
pub enum Assigned {
    /// This call gave the name its id.
    Fresh { id: u32 },
    /// The name had this id already.
    Existing { id: u32 },
    /// Another caller gave the name its id in between. The id `wasted`, which this call was given, is nobody's.
    Lost { wasted: u32, id: u32 },
}

impl Assigned {
    /// The id of the name.
    pub fn id(self) -> u32
        ensures { result ≡ answered_id self }
    {
        match self {
            Assigned::Fresh { id } | Assigned::Existing { id } | Assigned::Lost { id, .. } => id,
        }
    }
}

/// Why a name wasn't resolved.
#[derive(Clone, Copy, Debug, PartialEq, Eq)]
pub enum ResolveFault {
    /// No name of this kind is the one that was asked.
    Unknown { kind: Kind },
    /// There was no memory for the read.
    OutOfMemory,
    /// The caller was stopped before the read.
    Stopped,
}

/// Why a name wasn't assigned an id.
#[derive(Clone, Copy, Debug, PartialEq, Eq)]
pub enum AssignFault {
    /// The name has no id, and the rule for new names doesn't allow it. No id was spent.
    Filtered { kind: Kind },
    /// All ids of this kind were given.
    Exhausted { kind: Kind },
    /// There was no memory for one of the steps. The steps before it stay done.
    OutOfMemory,
    /// The caller was stopped before one of the steps. The steps before it stay done.
    Stopped,
}

impl From<RowsFault> for ResolveFault {
    ghost from_gives = { λ fault answer. answer ≡ resolve_fault fault };

    fn from(fault: RowsFault) -> ResolveFault {
        match fault {
            RowsFault::OutOfMemory => ResolveFault::OutOfMemory,
            RowsFault::Stopped => ResolveFault::Stopped,
        }
    }
}

impl From<RowsFault> for AssignFault {
    ghost from_gives = { λ fault answer. answer ≡ assign_fault fault };

    fn from(fault: RowsFault) -> AssignFault {
        match fault {
            RowsFault::OutOfMemory => AssignFault::OutOfMemory,
            RowsFault::Stopped => AssignFault::Stopped,
        }
    }
}
