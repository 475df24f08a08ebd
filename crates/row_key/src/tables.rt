//! The tables of the store.

/// A table of the store. In a listing the tables stand in this order.
#[derive(Clone, Copy, Debug, PartialEq, Eq, PartialOrd, Ord, Hash)]
pub enum Table {
    /// From a name to its id: the row is the name, the qualifier the kind, the value the id.
    Ids,
    /// From an id to its name: the row is the id, the qualifier the kind, the value the name.
    Names,
    /// The data points: a row for each series and hour.
    Points,
}
