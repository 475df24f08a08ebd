//! Why a point wasn't put.
ghost use Rattle.std.specs.Prelude.{◌≡◌, ◌++◌, OnOk};
ghost use Rattle.point_put.specs.declared.fault.PutFault.TheVariants.{OutOfMemory};
ghost use Rattle.point_put.specs.PutFaults.{put_fault, put_fault_text};

use cell_model::answers::RowsFault;
use std::alloc::AllocError;
use tsd_base::kinds::Kind;
use tsd_base::names::Name;
use tsd_base::points::PointFault;

/// Why a point wasn't put. Names that were given ids before it keep them.
#[derive(Debug, PartialEq, Eq, Drop)]
pub enum PutFault {
    /// The first name that has no id. Names of its kind aren't given any.
    Unknown { kind: Kind, name: Name },
    /// The first name that has no id, where names of its kind are given one and the rule for new names doesn't allow this one. No id was
    /// spent for it.
    Filtered { kind: Kind, name: Name },
    /// All ids of this kind were given.
    Exhausted { kind: Kind },
    /// There was no memory for one of the steps.
    OutOfMemory,
    /// The caller was stopped before one of the steps.
    Stopped,
}

/// Why no point of a text was put.
#[derive(Debug, Drop)]
pub enum TextFault {
    /// The text has no point.
    Unread { fault: PointFault },
    /// The point of the text was refused.
    Unput { fault: PutFault },
}

impl PutFault {
    /// Writes why a point wasn't put, behind what was written before.
    #[tactic(auto, using(std::proofs::lemmas::List::append_assoc), unfolding(crate::specs::PutFaults::put_fault_text))]
    pub fn write_text(&self, out: &mut Vec<u8>) -> Result<(), AllocError>
        ensures { OnOk result (out.new.items ≡ out.old.items ++ put_fault_text self.now) }
    {
        match self {
            PutFault::Unknown { kind, name } => {
                out.extend_from_slice(b"unknown ")?;
                out.extend_from_slice(kind.text().as_bytes())?;
                out.extend_from_slice(b" ")?;
                out.extend_from_slice(name.bytes())
            }
            PutFault::Filtered { kind, name } => {
                out.extend_from_slice(kind.text().as_bytes())?;
                out.extend_from_slice(b" ")?;
                out.extend_from_slice(name.bytes())?;
                out.extend_from_slice(b" is filtered")
            }
            PutFault::Exhausted { kind } => {
                out.extend_from_slice(b"ids of ")?;
                out.extend_from_slice(kind.text().as_bytes())?;
                out.extend_from_slice(b" are exhausted")
            }
            PutFault::OutOfMemory => out.extend_from_slice(b"out of memory"),
            PutFault::Stopped => out.extend_from_slice(b"stopped"),
        }
    }
}

impl From<RowsFault> for PutFault {
    ghost from_gives = { λ fault answer. answer ≡ put_fault fault };

    fn from(fault: RowsFault) -> PutFault {
        match fault {
            RowsFault::OutOfMemory => PutFault::OutOfMemory,
            RowsFault::Stopped => PutFault::Stopped,
        }
    }
}

impl From<AllocError> for PutFault {
    ghost from_gives = { λ _ answer. answer ≡ OutOfMemory };

    fn from(_failed: AllocError) -> PutFault {
        PutFault::OutOfMemory
    }
}
