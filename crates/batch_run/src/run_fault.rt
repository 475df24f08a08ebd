//! Why a run prints nothing.
ghost use Rattle.std.specs.Prelude.{◌≡◌};
ghost use Rattle.batch_run.specs.declared.run_fault.RunFault.TheVariants.{OutOfMemory};
ghost use Rattle.batch_run.specs.RunFaults.{of_input, of_rows};

use cell_model::answers::RowsFault;
use line_stream::reader::InputFault;
use std::alloc::AllocError;

/// Why a run prints nothing.
#[derive(Clone, Copy, Debug, PartialEq, Eq)]
pub enum RunFault {
    /// The source failed.
    Failed,
    /// 2^40 bytes of input came without their end.
    Full,
    /// There was no memory.
    OutOfMemory,
    /// The halt refused a step.
    Stopped,
}

impl From<InputFault> for RunFault {
    ghost from_gives = { λ fault e. e ≡ of_input fault };

    fn from(fault: InputFault) -> RunFault {
        match fault {
            InputFault::Failed => RunFault::Failed,
            InputFault::Full => RunFault::Full,
            InputFault::OutOfMemory => RunFault::OutOfMemory,
        }
    }
}

impl From<RowsFault> for RunFault {
    ghost from_gives = { λ fault e. e ≡ of_rows fault };

    fn from(fault: RowsFault) -> RunFault {
        match fault {
            RowsFault::OutOfMemory => RunFault::OutOfMemory,
            RowsFault::Stopped => RunFault::Stopped,
        }
    }
}

impl From<AllocError> for RunFault {
    ghost from_gives = { λ _ e. e ≡ OutOfMemory };

    fn from(_error: AllocError) -> RunFault {
        RunFault::OutOfMemory
    }
}
