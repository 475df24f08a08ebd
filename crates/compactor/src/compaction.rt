//! What compactions answer.
ghost use Rattle.std.specs.Prelude.{◌≡◌};
ghost use Rattle.compactor.specs.declared.compaction.CompactFault.TheVariants.{OutOfMemory, Stopped as WasStopped};
ghost use Rattle.compactor.specs.CompactFaults.{fault_of_merge, fault_of_rows};

use cell_model::answers::{RowsFault, Stopped};
use qual_codec::MergeFault;
use std::alloc::AllocError;

/// What was done with a row.
#[derive(Clone, Copy, Debug, PartialEq, Eq)]
pub enum Compacted {
    /// The row has fewer than two cells beside the column of appends.
    Nothing,
    /// One cell was written in place of the `before` cells that were read beside the column, and `dropped` of these were removed.
    Merged { before: u64, dropped: u64 },
}

/// Why a row wasn't compacted.
#[derive(Clone, Copy, Debug, PartialEq, Eq)]
pub enum CompactFault {
    /// Two cells have different values at one offset: the least such offset, the value of the first cell that has it, and that of
    /// the first later cell that differs. Nothing was written.
    Conflict { offset: u32, a: i64, b: i64 },
    /// There was no memory. Nothing was written.
    OutOfMemory,
    /// The caller was stopped before one of the steps. The steps before it stay done.
    Stopped,
}

/// What became of the rows of a queue.
#[derive(Clone, Copy, Debug, PartialEq, Eq)]
pub struct Drained {
    /// How many rows were taken from the queue.
    pub done: u32,
    /// How many of these have a conflict.
    pub conflicts: u32,
}

impl From<AllocError> for CompactFault {
    ghost from_gives = { λ _ answer. answer ≡ OutOfMemory };

    fn from(_e: AllocError) -> CompactFault {
        CompactFault::OutOfMemory
    }
}

impl From<MergeFault> for CompactFault {
    ghost from_gives = { λ fault answer. answer ≡ fault_of_merge fault };

    fn from(fault: MergeFault) -> CompactFault {
        match fault {
            MergeFault::Conflict { offset, a, b } => CompactFault::Conflict { offset, a, b },
            MergeFault::OutOfMemory => CompactFault::OutOfMemory,
        }
    }
}

impl From<RowsFault> for CompactFault {
    ghost from_gives = { λ fault answer. answer ≡ fault_of_rows fault };

    fn from(fault: RowsFault) -> CompactFault {
        match fault {
            RowsFault::OutOfMemory => CompactFault::OutOfMemory,
            RowsFault::Stopped => CompactFault::Stopped,
        }
    }
}

impl From<Stopped> for CompactFault {
    ghost from_gives = { λ _ answer. answer ≡ WasStopped };

    fn from(_stopped: Stopped) -> CompactFault {
        CompactFault::Stopped
    }
}
