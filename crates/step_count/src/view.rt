//! What a pass, a licence and a note know. No run makes a value of these types: contracts speak of them.

use cell_model::{Content, Place, Placed};
use row_key::Widths;
use std::collections::LinkedList;

/// The store with which a history begins, and how many regions its point rows have.
pub struct Named {
    /// How many bytes the ids of each kind have.
    pub widths: Widths,
    /// The cells of the store, in order.
    pub base: LinkedList<(Place, Content)>,
    pub data_regions: u64,
}

/// What a seat knows.
pub struct View {
    /// The store, if the seat was told which one it is.
    pub named: Option<Named>,
    /// The greatest length of the history that was seen.
    pub length: u64,
    /// Entries that were seen, at their places.
    pub seen: LinkedList<Placed>,
    /// The callers that the seat is: its own number first, then those that it absorbed, each with all its entries.
    pub callers: LinkedList<(u64, LinkedList<Placed>)>,
    /// The regions whose licences the seat has, each with all entries that look at the region.
    pub licences: LinkedList<(u64, LinkedList<Placed>)>,
}
