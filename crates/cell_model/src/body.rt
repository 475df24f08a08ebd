//! One owned store.
ghost use Rattle.std.specs.Prelude.{◌≡◌, ◌≢◌, IfOk, OnOk, OnErr, None, Bool, IsTrue, length};
ghost use Rattle.cell_model.specs.declared.row.Row.{Row};
ghost use Rattle.cell_model.specs.declared.events.Step.TheVariants.{Bump, Claim, PutMerged, DropCells};
ghost use Rattle.cell_model.specs.Store.{Store, content_at, value_at, appended, cells_of, next_row_of, is_between, drop_count, stamped};
ghost use Rattle.cell_model.specs.Counts.{counters_of, listing_of, point_entries, point_rows};
ghost use Rattle.cell_model.specs.Sound.{CountersRead};
ghost use Rattle.cell_model.specs.Ranges.{InOneRange};
ghost use Rattle.cell_model.specs.Machine.{after, bump_reply, claim_reply, counter_row, kind_qual};

use crate::answers::{Bumped, Claimed, Tally};
use crate::row::{Cells, Drops, Found, Listing, Row};
use qual_codec::Bytes;
use row_key::{Table, Widths};
use std::alloc::{AllocError, Global};
use tsd_base::kinds::Kind;

/// The operations on one owned store, or on a part of one.
///
/// Each change is the machine's step at place 0, so a cell that is written has version 0 until it is stamped.
/// Where memory is wanted, the store is as before.
pub trait Body {
    /// The store.
    ghost content: { Self → Store };

    /// The rows that it is over.
    ghost covers: { Self → Row → Bool };

    /// How many bytes the ids of each kind have.
    fn widths(&self) -> Widths
        ensures { result ≡ (content self.now).widths };

    /// The cells of a row, in byte order of qualifier.
    fn read(&self, alloc: Global, row: &Row) -> Result<Cells, AllocError>
        requires covered { IsTrue (covers self.now row.now) }
        ensures { IfOk result (λ cells. cells ≡ cells_of (content self.now) row.now) };

    /// The least row of the table from `from` on and below `to` that has a cell, with its cells. The range lies within one region.
    fn next_row(
        &self,
        alloc: Global,
        table: Table,
        from: &Bytes,
        to: &Bytes,
    ) -> Result<Option<Found>, AllocError>
        requires range { InOneRange (content self.now).widths table from.now to.now }
        requires covered { (row : Row) → IsTrue (is_between table from.now to.now row) → IsTrue (covers self.now row) }
        ensures { IfOk result (λ found. found ≡ next_row_of (content self.now) table from.now to.now) };

    /// Adds one to the counter of a kind and answers it, unless it is the greatest id of the kind. It takes no memory.
    fn bump(&mut self, kind: Kind) -> Bumped
        requires covered { IsTrue (covers self.old counter_row) }
        ensures reply { result ≡ bump_reply (content self.old) kind }
        ensures content { content self.new ≡ after (content self.old) 0 (Bump kind) }
        ensures covers { covers self.new ≡ covers self.old };

    /// Writes a cell where none is; else answers the value that stands there, and writes nothing.
    fn claim(
        &mut self,
        alloc: Global,
        row: &Row,
        qual: &Bytes,
        value: &Bytes,
    ) -> Result<Claimed, AllocError>
        requires covered { IsTrue (covers self.old row.now) }
        requires no_counter { row.now ≢ counter_row }
        ensures reply { IfOk result (λ claimed. claimed ≡ claim_reply (value_at (content self.old) row.now qual.now)) }
        ensures ok { OnOk result (content self.new ≡ after (content self.old) 0 (Claim row.now qual.now value.now)) }
        ensures err { OnErr result (content self.new ≡ content self.old) }
        ensures covers { covers self.new ≡ covers self.old };

    /// Writes a cell, over an older one too.
    fn put(
        &mut self,
        alloc: Global,
        row: &Row,
        qual: &Bytes,
        value: &Bytes,
    ) -> Result<(), AllocError>
        requires covered { IsTrue (covers self.old row.now) }
        requires no_counter { row.now ≢ counter_row }
        ensures ok { OnOk result (content self.new ≡ after (content self.old) 0 (PutMerged row.now qual.now value.now)) }
        ensures err { OnErr result (content self.new ≡ content self.old) }
        ensures covers { covers self.new ≡ covers self.old };

    /// Adds a piece to the column of a row, behind what stands there. Its version is then 0.
    fn append(&mut self, alloc: Global, row: &Row, piece: &Bytes) -> Result<(), AllocError>
        requires covered { IsTrue (covers self.old row.now) }
        requires no_counter { row.now ≢ counter_row }
        ensures ok { OnOk result (content self.new ≡ appended (content self.old) row.now piece.now 0) }
        ensures err { OnErr result (content self.new ≡ content self.old) }
        ensures covers { covers self.new ≡ covers self.old };

    /// Removes each cell that is named and has a version not above the one named, and answers how many. It needs no memory.
    fn drop_cells(&mut self, row: &Row, which: &Drops) -> u64
        requires covered { IsTrue (covers self.old row.now) }
        requires no_counter { row.now ≢ counter_row }
        ensures count { result ≡ drop_count (content self.old) row.now which.now }
        ensures content { content self.new ≡ after (content self.old) 0 (DropCells row.now which.now) }
        ensures covers { covers self.new ≡ covers self.old };

    /// Gives a cell that is there a version. It takes no memory.
    fn stamp(&mut self, row: &Row, qual: &Bytes, place: u64)
        requires covered { IsTrue (covers self.old row.now) }
        requires no_counter { row.now ≢ counter_row }
        requires there { content_at (content self.old) row.now qual.now ≢ None }
        ensures content { content self.new ≡ stamped (content self.old) row.now qual.now place }
        ensures covers { covers self.new ≡ covers self.old };

    /// Gives the counter of a kind, which is there, a version. It takes no memory.
    fn stamp_counter(&mut self, kind: Kind, place: u64)
        requires covered { IsTrue (covers self.old counter_row) }
        requires there { content_at (content self.old) counter_row (kind_qual kind) ≢ None }
        ensures content { content self.new ≡ stamped (content self.old) counter_row (kind_qual kind) place }
        ensures covers { covers self.new ≡ covers self.old };

    /// The counters, and the numbers of point rows and of their cells. No counter cell has a flaw.
    fn tally(&self) -> Tally
        ensures counters { CountersRead (content self.now) }
        ensures ids { result.ids ≡ counters_of (content self.now) }
        ensures rows { result.point_rows ≡ length (point_rows (content self.now)) }
        ensures cells { result.point_cells ≡ length (point_entries (content self.now)) };

    /// All cells, rising by table, row and qualifier.
    fn listing(&self, alloc: Global) -> Result<Listing, AllocError>
        ensures { IfOk result (λ listed. listed ≡ listing_of (content self.now)) };
}
