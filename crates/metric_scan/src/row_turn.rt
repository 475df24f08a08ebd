//! What one turn came to, of going through the rows of a metric.

use cell_model::row::Found;
use row_key::RowKey;

/// What a turn came to.
#[derive(Drop)]
pub enum RowTurn {
    /// No row is left.
    End,
    /// A row that fails the filters was passed over.
    Passed,
    /// The row of this key passes them, and its ids have names.
    Picked { key: RowKey, found: Found },
}
