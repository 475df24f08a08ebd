//! Why a JSON value is no point.
ghost use Rattle.std.specs.Prelude.{◌≡◌, ◌++◌, OnOk, OnErr};
ghost use Rattle.tsd_base.specs.Faults.{Keeps};
ghost use Rattle.json_points.specs.declared.fault.ElementFault.TheVariants.{OutOfMemory};
ghost use Rattle.json_points.specs.ElementFaults.{element_fault_text, from_tags, member_text};

use std::alloc::{AllocError, AllocFailed};
use tsd_base::points::PointFault;
use tsd_base::tags::TagsFault;

/// The members that are judged before what they say is read.
#[derive(Clone, Copy, Debug, PartialEq, Eq)]
pub enum Member {
    /// `metric`, which is a string.
    Metric,
    /// `timestamp`, which is there.
    Timestamp,
    /// `value`, which is there.
    Value,
    /// `tags`, which is an object of strings.
    Tags,
}

/// Why an element is no point. No `fault` within is want of memory.
#[derive(Debug, Drop)]
pub enum ElementFault {
    /// It is no object.
    NotObject,
    /// The member is missing, or it is the metric and no string, or the tags and no object of strings.
    BadMember { member: Member },
    /// The members are no point.
    Point { fault: PointFault },
    /// There was no memory for the point.
    OutOfMemory,
}

impl Member {
    /// The name that the member has in an element.
    pub fn text(self) -> &'static str
        ensures { result.now ≡ member_text self }
    {
        match self {
            Member::Metric => "metric",
            Member::Timestamp => "timestamp",
            Member::Value => "value",
            Member::Tags => "tags",
        }
    }
}

impl ElementFault {
    /// Writes why an element is no point, behind what was written before. It fails only for want of memory, and then nothing is written.
    pub fn write_text(&self, out: &mut Vec<u8>) -> Result<(), AllocError>
        ensures ok { OnOk result (out.new.items ≡ out.old.items ++ element_fault_text self.now) }
        ensures err { OnErr result (out.new.items ≡ out.old.items) }
    {
        let start = out.len();
        let written = self.write_behind(out);
        if written.is_err() {
            out.truncate(start);
        }
        written
    }

    #[tactic(auto, using(std::proofs::lemmas::List::append_assoc), unfolding(crate::specs::ElementFaults::element_fault_text))]
    fn write_behind(&self, out: &mut Vec<u8>) -> Result<(), AllocError>
        ensures ok { OnOk result (out.new.items ≡ out.old.items ++ element_fault_text self.now) }
        ensures err { OnErr result (Keeps out.old.items out.new.items) }
    {
        match self {
            ElementFault::NotObject => out.extend_from_slice(b"not an object"),
            ElementFault::BadMember { member } => {
                out.extend_from_slice(b"bad member ")?;
                out.extend_from_slice(member.text().as_bytes())
            }
            ElementFault::Point { fault } => fault.write_text(out),
            ElementFault::OutOfMemory => out.extend_from_slice(b"out of memory"),
        }
    }
}

impl<T: Drop> From<AllocFailed<T>> for ElementFault {
    ghost from_gives = { λ _ fault. fault ≡ OutOfMemory };

    fn from(_failed: AllocFailed<T>) -> ElementFault {
        ElementFault::OutOfMemory
    }
}

impl From<AllocError> for ElementFault {
    ghost from_gives = { λ _ fault. fault ≡ OutOfMemory };

    fn from(_failed: AllocError) -> ElementFault {
        ElementFault::OutOfMemory
    }
}

impl From<TagsFault> for ElementFault {
    ghost from_gives = { λ inner fault. fault ≡ from_tags inner };

    fn from(fault: TagsFault) -> ElementFault {
        match fault {
            TagsFault::OutOfMemory => ElementFault::OutOfMemory,
            fault => ElementFault::Point {
                fault: PointFault::Tags { fault },
            },
        }
    }
}
