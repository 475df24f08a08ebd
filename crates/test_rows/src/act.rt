//! What another caller does, and what it is answered.

use cell_model::{Bumped, Cells, Claimed, Found, Row};
use qual_codec::Bytes;
use tsd_base::kinds::Kind;
use tsd_base::points::Point;

/// What another caller does: one step each.
#[derive(Drop)]
pub enum Act {
    /// It reads a row.
    Read { row: Row },
    /// It looks for the next row of points from one on and below another, both of one metric.
    Find { from: Bytes, to: Bytes },
    /// It asks for an id.
    Bump { kind: Kind },
    /// It claims a cell.
    Claim { row: Row, qual: Bytes, value: Bytes },
    /// It puts a point of one tag, whose names were shown to have ids.
    Put { point: Point },
    /// It appends a point of one tag, whose names were shown to have ids, to the column of its row.
    Append { point: Point },
    /// It writes a cell that merges others of its point row.
    Merge { row: Row, qual: Bytes, value: Bytes },
    /// It drops the cells of these qualifiers, up to the versions that were read.
    Drop { row: Row, quals: Vec<Bytes> },
}

/// What an act was answered.
#[derive(Drop)]
pub enum Acted {
    /// A row has these cells.
    Cells { cells: Cells },
    /// This row was found, if any.
    Found { found: Option<Found> },
    /// The next id.
    Bumped { bumped: Bumped },
    /// Whether the cell was claimed.
    Claimed { claimed: Claimed },
    /// The cell was written, or the point was appended.
    Written,
    /// So many cells were dropped.
    Dropped { count: u64 },
    /// Nothing was done: what was seen of the store doesn't show that the step is allowed.
    NotAllowed,
    /// Nothing was done: too many steps that take no memory came behind one another.
    NoRoom,
}
