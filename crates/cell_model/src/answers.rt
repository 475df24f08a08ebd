//! What steps and bodies answer.
ghost use Rattle.std.specs.Prelude.{◌≡◌};
ghost use Rattle.cell_model.specs.declared.answers.RowsFault.TheVariants.{OutOfMemory};

use crate::row::Row;
use qual_codec::Bytes;
use std::alloc::{AllocError, AllocFailed};

/// The answer to a bump.
#[derive(Clone, Copy, Debug, PartialEq, Eq)]
pub enum Bumped {
    /// The next id of the kind, which nobody was given before.
    Given { id: u32 },
    /// All ids of the kind were given.
    Full,
}

/// The answer to a claim.
#[derive(Debug, PartialEq, Eq, Drop)]
pub enum Claimed {
    /// The cell was absent, and was written.
    Done,
    /// The cell stands, with this value. Nothing was written.
    Held { value: Bytes },
}

/// Why a step that takes memory wasn't made.
#[derive(Clone, Copy, Debug, PartialEq, Eq)]
pub enum RowsFault {
    /// There was no memory for it.
    OutOfMemory,
    /// The caller was stopped before it.
    Stopped,
}

impl From<AllocError> for RowsFault {
    ghost from_gives = { λ _ fault. fault ≡ OutOfMemory };

    fn from(_failed: AllocError) -> RowsFault {
        RowsFault::OutOfMemory
    }
}

impl<T: Drop> From<AllocFailed<T>> for RowsFault {
    ghost from_gives = { λ _ fault. fault ≡ OutOfMemory };

    fn from(_failed: AllocFailed<T>) -> RowsFault {
        RowsFault::OutOfMemory
    }
}

/// A step wasn't made: the caller was stopped before it.
#[derive(Clone, Copy, Debug, PartialEq, Eq)]
pub struct Stopped;

/// What a store holds, in numbers.
#[derive(Clone, Copy, Debug, PartialEq, Eq)]
pub struct Tally {
    /// The counters of metrics, of tag keys and of tag values.
    pub ids: [u64; 3],
    /// How many point rows have a cell.
    pub point_rows: u64,
    /// How many cells they have.
    pub point_cells: u64,
}

/// Where a point was stored.
#[derive(Debug, PartialEq, Eq, Drop)]
pub struct Stored {
    /// The point row.
    pub row: Row,
    /// The second at which the row's hour begins.
    pub base: u32,
}
