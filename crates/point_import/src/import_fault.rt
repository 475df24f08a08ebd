//! Why an import ended before its input did.
ghost use Rattle.std.specs.Prelude.{◌≡◌, ◌++◌, OnOk};
ghost use Rattle.point_import.specs.declared.import_fault.ImportFault.TheVariants.{OutOfMemory};
ghost use Rattle.point_import.specs.ImportFaults.{line_fault_text, of_input, of_rows};

use cell_model::answers::RowsFault;
use line_stream::reader::InputFault;
use std::alloc::AllocError;
use tsd_base::kinds::Kind;
use tsd_base::points::PointFault;

/// What is wrong with a line.
#[derive(Debug, Drop)]
pub enum LineFault {
    /// It has more than 8,192 bytes.
    TooLong,
    /// It is no point.
    Point { fault: PointFault },
    /// It is a point for one of whose names there is no id left.
    Exhausted { kind: Kind },
}

/// Why an import ended before its input did. The points of the lines before stay put.
#[derive(Debug, Drop)]
pub enum ImportFault {
    /// The first line that is refused: its number, from 1, and what is wrong with it.
    Line { number: u64, fault: LineFault },
    /// The source failed.
    ReadFault,
    /// 2^40 bytes of input came without their end.
    SessionFull,
    /// There was no memory.
    OutOfMemory,
    /// The caller was stopped before one of its steps.
    Stopped,
}

impl LineFault {
    /// Writes what is wrong with the line, behind what was written before.
    pub fn write_text(&self, out: &mut Vec<u8>) -> Result<(), AllocError>
        ensures { OnOk result (out.new.items ≡ out.old.items ++ line_fault_text self.now) }
    {
        match self {
            LineFault::TooLong => out.extend_from_slice(b"line too long"),
            LineFault::Point { fault } => fault.write_text(out),
            LineFault::Exhausted { kind } => {
                out.extend_from_slice(b"ids of ")?;
                out.extend_from_slice(kind.text().as_bytes())?;
                out.extend_from_slice(b" are exhausted")
            }
        }
    }
}

impl From<InputFault> for ImportFault {
    ghost from_gives = { λ fault e. e ≡ of_input fault };

    fn from(fault: InputFault) -> ImportFault {
        match fault {
            InputFault::Failed => ImportFault::ReadFault,
            InputFault::Full => ImportFault::SessionFull,
            InputFault::OutOfMemory => ImportFault::OutOfMemory,
        }
    }
}

impl From<RowsFault> for ImportFault {
    ghost from_gives = { λ fault e. e ≡ of_rows fault };

    fn from(fault: RowsFault) -> ImportFault {
        match fault {
            RowsFault::OutOfMemory => ImportFault::OutOfMemory,
            RowsFault::Stopped => ImportFault::Stopped,
        }
    }
}

impl From<AllocError> for ImportFault {
    ghost from_gives = { λ _ e. e ≡ OutOfMemory };

    fn from(_error: AllocError) -> ImportFault {
        ImportFault::OutOfMemory
    }
}
