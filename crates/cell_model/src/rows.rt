//! One caller's view of a store that others may step too.
ghost use Rattle.std.specs.Prelude.{ℕ, ◌≡◌, ◌+◌, ◌≤◌, IfOk, IfErr, OnOk, OnErr};
ghost use Rattle.tsd_base.specs.Points.{data_point};
ghost use Rattle.tsd_io.specs.Causes.{Rose};
ghost use Rattle.cell_model.specs.declared.events.Step.TheVariants.{Read, NextRow, Bump, Claim, PutPoint, AppendPoint, PutMerged, DropCells};
ghost use Rattle.cell_model.specs.declared.events.Reply.TheVariants.{Shown, Next, BumpReply, ClaimReply, Written, Removed};
ghost use Rattle.cell_model.specs.Ranges.{InOneRange};
ghost use Rattle.cell_model.specs.Seen.{Seen, Waited, Stepped, IsPossible, Knows, RoseIfStopped, StandsIfUnstopped};

use crate::answers::{Bumped, Claimed, RowsFault, Stopped};
use crate::row::{Cells, Drops, Found, Row};
use qual_codec::Bytes;
use row_key::{Table, Widths};
use std::alloc::Global;
use tsd_base::kinds::Kind;
use tsd_base::points::Point;

/// The eight steps that a caller makes on a store which others may step too, each of them at once.
///
/// A call that answers Ok has made one entry of the store's history, and this is the last one that the caller has seen. A call
/// that answers Err has made none. Either way all that was seen stays seen, no other new entry is this caller's, and there is a
/// lawful history that fits what was seen.
///
/// A step has to be known to be allowed, by what the caller has seen: `claim`, `put_point`, `append_point`, `put_merged` and `drop_cells` demand it.
/// `Stopped` comes only where the count of stops rose. With each other answer the count stands.
pub trait Rows {
    /// What this caller has seen, the base of the store included.
    ghost seen: { Self → Seen };

    /// How often steps were stopped. It never falls, and stands still at the last `u64`.
    ghost stops: { Self → ℕ };

    /// For how many further steps that take no memory there is room.
    ghost spare: { Self → ℕ };

    /// How many bytes the ids of each kind have. It is no step.
    fn widths(&self) -> Widths
        ensures { result ≡ (seen self.now).base.widths };

    /// The cells of a row, in byte order of qualifier.
    fn read(&mut self, alloc: Global, row: &Row) -> Result<Cells, RowsFault>
        ensures ok { IfOk result (λ cells. Stepped (seen self.old) (Read row.now) (Shown cells) (seen self.new)) }
        ensures err { OnErr result (Waited (seen self.old) (seen self.new)) }
        ensures possible { OnOk result (IsPossible (seen self.new)) }
        ensures lives { OnErr result (IsPossible (seen self.old) → IsPossible (seen self.new)) }
        ensures grows { stops self.old ≤ stops self.new }
        ensures stopped { IfErr result (RoseIfStopped (stops self.old) (stops self.new)) }
        ensures stands { StandsIfUnstopped (stops self.old) (stops self.new) result }
        ensures spare { OnOk result (2 ≤ spare self.new) };

    /// The least row of the table from `from` on and below `to` that has a cell, with its cells. The range lies within one region.
    fn next_row(
        &mut self,
        alloc: Global,
        table: Table,
        from: &Bytes,
        to: &Bytes,
    ) -> Result<Option<Found>, RowsFault>
        requires range { InOneRange (seen self.old).base.widths table from.now to.now }
        ensures ok { IfOk result (λ found. Stepped (seen self.old) (NextRow table from.now to.now) (Next found) (seen self.new)) }
        ensures err { OnErr result (Waited (seen self.old) (seen self.new)) }
        ensures possible { OnOk result (IsPossible (seen self.new)) }
        ensures lives { OnErr result (IsPossible (seen self.old) → IsPossible (seen self.new)) }
        ensures grows { stops self.old ≤ stops self.new }
        ensures stopped { IfErr result (RoseIfStopped (stops self.old) (stops self.new)) }
        ensures stands { StandsIfUnstopped (stops self.old) (stops self.new) result }
        ensures spare { OnOk result (2 ≤ spare self.new) };

    /// The next id of a kind. It takes no memory.
    fn bump(&mut self, kind: Kind) -> Result<Bumped, Stopped>
        requires spare { 1 ≤ spare self.old }
        ensures ok { IfOk result (λ bumped. Stepped (seen self.old) (Bump kind) (BumpReply bumped) (seen self.new)) }
        ensures err { OnErr result (Waited (seen self.old) (seen self.new)) }
        ensures possible { OnOk result (IsPossible (seen self.new)) }
        ensures lives { OnErr result (IsPossible (seen self.old) → IsPossible (seen self.new)) }
        ensures grows { stops self.old ≤ stops self.new }
        ensures stopped { OnErr result (Rose (stops self.old) (stops self.new)) }
        ensures stands { OnOk result (stops self.new ≡ stops self.old) }
        ensures spare { spare self.old ≤ spare self.new + 1 };

    /// Writes a cell where none is; else answers the value that stands there, and writes nothing.
    ///
    /// In the table of names it is known to be allowed where this caller was given the id by a bump; in the table of ids
    /// where the id was seen claimed for this name in the table of names.
    fn claim(
        &mut self,
        alloc: Global,
        row: &Row,
        qual: &Bytes,
        value: &Bytes,
    ) -> Result<Claimed, RowsFault>
        requires knows { Knows (seen self.old) (Claim row.now qual.now value.now) }
        ensures ok { IfOk result (λ claimed. Stepped (seen self.old) (Claim row.now qual.now value.now) (ClaimReply claimed) (seen self.new)) }
        ensures err { OnErr result (Waited (seen self.old) (seen self.new)) }
        ensures possible { OnOk result (IsPossible (seen self.new)) }
        ensures lives { OnErr result (IsPossible (seen self.old) → IsPossible (seen self.new)) }
        ensures grows { stops self.old ≤ stops self.new }
        ensures stopped { IfErr result (RoseIfStopped (stops self.old) (stops self.new)) }
        ensures stands { StandsIfUnstopped (stops self.old) (stops self.new) result }
        ensures spare { OnOk result (2 ≤ spare self.new) };

    /// Writes the cell of a point, over an older one too.
    ///
    /// It is known to be allowed where an id of each name was seen, and row, qualifier and value are the layout with these ids.
    fn put_point(
        &mut self,
        alloc: Global,
        point: &Point,
        row: &Row,
        qual: &Bytes,
        value: &Bytes,
    ) -> Result<(), RowsFault>
        requires knows { Knows (seen self.old) (PutPoint (data_point point.now) row.now qual.now value.now) }
        ensures ok { OnOk result (Stepped (seen self.old) (PutPoint (data_point point.now) row.now qual.now value.now) Written (seen self.new)) }
        ensures err { OnErr result (Waited (seen self.old) (seen self.new)) }
        ensures possible { OnOk result (IsPossible (seen self.new)) }
        ensures lives { OnErr result (IsPossible (seen self.old) → IsPossible (seen self.new)) }
        ensures grows { stops self.old ≤ stops self.new }
        ensures stopped { IfErr result (RoseIfStopped (stops self.old) (stops self.new)) }
        ensures stands { StandsIfUnstopped (stops self.old) (stops self.new) result }
        ensures spare { OnOk result (2 ≤ spare self.new) };

    /// Adds a point to the column of its row, behind what stands there.
    ///
    /// It is known to be allowed where an id of each name was seen, the row is the layout with these ids, and the piece is its qualifier and
    /// then its value.
    fn append_point(
        &mut self,
        alloc: Global,
        point: &Point,
        row: &Row,
        piece: &Bytes,
    ) -> Result<(), RowsFault>
        requires knows { Knows (seen self.old) (AppendPoint (data_point point.now) row.now piece.now) }
        ensures ok { OnOk result (Stepped (seen self.old) (AppendPoint (data_point point.now) row.now piece.now) Written (seen self.new)) }
        ensures err { OnErr result (Waited (seen self.old) (seen self.new)) }
        ensures possible { OnOk result (IsPossible (seen self.new)) }
        ensures lives { OnErr result (IsPossible (seen self.old) → IsPossible (seen self.new)) }
        ensures grows { stops self.old ≤ stops self.new }
        ensures stopped { IfErr result (RoseIfStopped (stops self.old) (stops self.new)) }
        ensures stands { StandsIfUnstopped (stops self.old) (stops self.new) result }
        ensures spare { OnOk result (2 ≤ spare self.new) };

    /// Writes a cell that merges others of its point row, over an older one too.
    ///
    /// It is known to be allowed where it reads by its items, and each of its data points was seen in a cell of the row other than the column.
    fn put_merged(
        &mut self,
        alloc: Global,
        row: &Row,
        qual: &Bytes,
        value: &Bytes,
    ) -> Result<(), RowsFault>
        requires knows { Knows (seen self.old) (PutMerged row.now qual.now value.now) }
        ensures ok { OnOk result (Stepped (seen self.old) (PutMerged row.now qual.now value.now) Written (seen self.new)) }
        ensures err { OnErr result (Waited (seen self.old) (seen self.new)) }
        ensures possible { OnOk result (IsPossible (seen self.new)) }
        ensures lives { OnErr result (IsPossible (seen self.old) → IsPossible (seen self.new)) }
        ensures grows { stops self.old ≤ stops self.new }
        ensures stopped { IfErr result (RoseIfStopped (stops self.old) (stops self.new)) }
        ensures stands { StandsIfUnstopped (stops self.old) (stops self.new) result }
        ensures spare { OnOk result (2 ≤ spare self.new) };

    /// Removes each cell that is named and has a version not above the one named, and answers how many. It needs no memory.
    ///
    /// It is known to be allowed where, for each that is named, a cell of the row strictly above it was seen. Nothing is above the column, nor is
    /// it above anything.
    fn drop_cells(&mut self, row: Row, which: Drops) -> Result<u64, Stopped>
        requires knows { Knows (seen self.old) (DropCells row which) }
        requires spare { 1 ≤ spare self.old }
        ensures ok { IfOk result (λ count. Stepped (seen self.old) (DropCells row which) (Removed count) (seen self.new)) }
        ensures err { OnErr result (Waited (seen self.old) (seen self.new)) }
        ensures possible { OnOk result (IsPossible (seen self.new)) }
        ensures lives { OnErr result (IsPossible (seen self.old) → IsPossible (seen self.new)) }
        ensures grows { stops self.old ≤ stops self.new }
        ensures stopped { OnErr result (Rose (stops self.old) (stops self.new)) }
        ensures stands { OnOk result (stops self.new ≡ stops self.old) }
        ensures spare { spare self.old ≤ spare self.new + 1 };
}
